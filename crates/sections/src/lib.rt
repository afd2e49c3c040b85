// The section kinds of GRIB edition 2 and their decoded fields (document 01, "Framing" and
// "Fields"; the crate's datatypes/sections.rs). One file a kind; `unread` has the three kinds of
// which no field is decoded, and `kinds` what all nine have in common.
#![tactic(auto)]

mod bit_map;
mod grid_definition;
mod identification;
mod indicator;
mod kinds;
mod prod_definition;
mod repr_definition;
mod unread;

pub use bit_map::BitMap;
pub use grid_definition::GridDefinition;
pub use identification::Identification;
pub use indicator::Indicator;
pub use kinds::{Extent, HEADER_SIZE, Kind, least_payload_of, values_of};
pub use prod_definition::ProdDefinition;
pub use repr_definition::ReprDefinition;
pub use unread::{DataSection, EndSection, LocalUse};
