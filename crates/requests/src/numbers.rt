// Numbers of a request: two or four octets at a place, big-endian.
ghost use Rattle.std.specs.Prelude.{◌≡◌, ◌+◌, ◌≤◌, length};
ghost use Rattle.octets.specs.BigEndian.{be_at};

use octets::{be16, be32};

// The number that the two octets from `at` on write.
pub(crate) fn two_octets(input: &[u8], at: usize) -> u16
    requires { at + 2 ≤ length input.now }
    ensures { result ≡ be_at input.now at 2 }
{
    be16([input[at], input[at + 1]])
}

// The number that the four octets from `at` on write.
pub(crate) fn four_octets(input: &[u8], at: usize) -> u32
    requires { at + 4 ≤ length input.now }
    ensures { result ≡ be_at input.now at 4 }
{
    be32([input[at], input[at + 1], input[at + 2], input[at + 3]])
}
