// Numbers written in octets (document 01, "What is ported", 1; the crate's helpers.rs): big-endian
// numbers of 2, 4 and 8 octets, and numbers by sign and size of 1 to 4.
#![tactic(auto)]

ghost use Rattle.std.specs.Prelude.{◌≡◌, ◌-◌, ◌*◌, ◌^◌, ◌<◌, ◌≤◌, pos, neg_ℤ, length};
ghost use Rattle.octets.specs.BigEndian.{be_at};
ghost use Rattle.octets.specs.Signed.{signed_of};

// An octet, as wide as a number can be.
fn wide(octet: u8) -> u64
    ensures { result ≡ octet }
{
    octet as u64
}

// The number that all octets of `s` write, at most 8 of them.
fn big_endian(s: &[u8]) -> u64
    requires { length s.now ≤ 8 }
    ensures { (result ≡ be_at s.now 0 (length s.now))
        × (result < 256 ^ length s.now) }
{
    let mut sum: u64 = 0;
    for octet in s {
        sum = sum * 256 + wide(*octet);
    }
    sum
}

// The big-endian number of two octets.
pub fn be16(octets: [u8; 2]) -> u16
    ensures { result ≡ be_at octets 0 2 }
{
    big_endian(&octets) as u16
}

// The big-endian number of four octets.
pub fn be32(octets: [u8; 4]) -> u32
    ensures { result ≡ be_at octets 0 4 }
{
    big_endian(&octets) as u32
}

// The big-endian number of eight octets.
pub fn be64(octets: [u8; 8]) -> u64
    ensures { result ≡ be_at octets 0 8 }
{
    big_endian(&octets)
}

// The first number that `n` octets can't write as a size: their top bit is the sign.
fn sign_bit(n: usize) -> u64
    requires { (1 ≤ n) × (n ≤ 4) }
    ensures { result ≡ 2 ^ (8 * n - 1) }
{
    match n {
        1 => 0x80,
        2 => 0x8000,
        3 => 0x80_0000,
        _ => 0x8000_0000,
    }
}

// A size as a number.
fn plus(size: u64) -> i32
    requires { size < 2 ^ 31 }
    ensures { result ≡ pos size }
{
    size as i32
}

// A size's negative. There is one zero: that of size 0 is 0.
fn minus(size: u64) -> i32
    requires { size < 2 ^ 31 }
    ensures { result ≡ neg_ℤ (pos size) }
{
    -(size as i32)
}

// The number that a slice of 1 to 4 octets writes by sign and size, with one zero; of any other
// length: no number.
pub fn sign_and_size(s: &[u8]) -> Option<i32>
    ensures { result ≡ signed_of s.now }
{
    let n = s.len();
    if n < 1 {
        return None;
    }
    if 4 < n {
        return None;
    }
    let size = big_endian(s) % sign_bit(n);
    if s[0] < 128 {
        Some(plus(size))
    } else {
        Some(minus(size))
    }
}
