// The walk of a file (document 01, "Order", "Refusal numbers"; the crate's parser.rs): every
// section listed, every submessage a line, in tables that the caller lends, with lines as structs.
// `lines` has the loop, over the turns of `tally`.
#![tactic(auto)]

mod lines;
mod tally;

pub use lines::{Answer, walk};
