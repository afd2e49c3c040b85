// What a file's index is (document 01, "Order", "Refusal numbers"; the crate's parser.rs): where
// its sections are listed, the line of each submessage, how a walk ends and 01's numbers of that.
// What a walk tells of a file is a definition, specs/Walk.antt; nothing here reads a file.
#![tactic(auto)]

mod bounds;
mod line;
mod listed;
mod numbers;
mod refusal;

pub use bounds::{MOST_OCTETS, Room};
pub use line::{Force, KEPT, Line, Span, in_force, line_of, opened, with_span, with_submessage};
pub use listed::{Listed, unlisted};
pub use numbers::{End, StoreEnd, end_of, stored, unplaced};
pub use refusal::{Outcome, Refusal, Refused};
