// What is printed: the pieces of a line. A write that fails is answered to the caller, and so on up
// to `main`. What prints answers nothing else, so it has no `ensures`.
ghost use Rattle.std.specs.Prelude.{◌≡◌};
ghost use Rattle.replaying.specs.Hexadecimal.{two_digits};

use index::{End, Outcome, end_of};
use std::io;
use std::io::Write;

const DIGITS: [u8; 16] = *b"0123456789abcdef";

pub(crate) fn text(out: &mut impl io::Write, words: &[u8]) -> io::Result<()> {
    out.write_all(words)
}

pub(crate) fn decimal(out: &mut impl io::Write, number: u64) -> io::Result<()> {
    write!(out, "{number}")
}

// A further field of a line.
pub(crate) fn field(out: &mut impl io::Write, number: u64) -> io::Result<()> {
    write!(out, " {number}")
}

// A further field that is none.
pub(crate) fn no_field(out: &mut impl io::Write) -> io::Result<()> {
    text(out, b" none")
}

pub(crate) fn line_end(out: &mut impl io::Write) -> io::Result<()> {
    text(out, b"\n")
}

// A further field that may be below 0.
pub(crate) fn signed_field(out: &mut impl io::Write, number: i32) -> io::Result<()> {
    write!(out, " {number}")
}

// An octet string in lower-case hexadecimal; `-` where it has no octets.
pub(crate) fn hex(out: &mut impl io::Write, octets: &[u8]) -> io::Result<()> {
    if octets.len() == 0 {
        text(out, b"-")?;
    }
    for octet in octets {
        text(out, &two_digits(*octet))?;
    }
    Ok(())
}

// By hand, for its speed: a destination has up to 262,144 octets, and `write!` takes several times
// as many instructions for one.
fn two_digits(octet: u8) -> [u8; 2]
    ensures { result ≡ two_digits octet }
{
    [DIGITS[(octet / 16) as usize], DIGITS[(octet % 16) as usize]]
}

// Document 01's outcome, place, offset and detail of a walk's end.
pub(crate) fn outcome(out: &mut impl io::Write, how: Outcome) -> io::Result<()> {
    end_fields(out, end_of(how))
}

// The same of any end.
pub(crate) fn end_fields(out: &mut impl io::Write, end: End) -> io::Result<()> {
    field(out, end.outcome)?;
    field(out, end.place)?;
    field(out, end.offset)?;
    field(out, end.detail)
}
