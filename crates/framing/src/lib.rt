// The framing of GRIB edition 2 (document 01, "Framing"; the crate's reader.rs): what stands at a
// place of a file. It looks at "GRIB", section 0, the headers and "7777", and at no octet of a
// payload.
#![tactic(auto)]

mod read;
mod search;

pub use read::{Cursor, Fault, Framed, How, Offset, Section, framed_at};
pub use search::next_start;
