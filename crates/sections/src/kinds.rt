// What every section kind says of itself: its number, its size and where its values octets begin.
ghost use Rattle.std.specs.Prelude.{◌≡◌};
ghost use Rattle.sections.specs.Kinds.{kind_of, least_payload_of, values_of};

use crate::bit_map::BitMap;
use crate::grid_definition::GridDefinition;
use crate::identification::Identification;
use crate::indicator::Indicator;
use crate::prod_definition::ProdDefinition;
use crate::repr_definition::ReprDefinition;
use crate::unread::{DataSection, EndSection, LocalUse};

// The octets of a header: a length of four, and a number.
pub const HEADER_SIZE: usize = 5;

// How large a section of a kind is, in octets.
#[derive(Clone, Copy)]
pub enum Extent {
    // No header: every section of the kind has this size.
    WholeSize(usize),
    // A header, and a payload of at least this size.
    LeastPayload(usize),
}

#[derive(Clone, Copy)]
pub struct Kind {
    pub number: u64,
    pub extent: Extent,
    pub values: Option<usize>,
}

// The kind that has this section number.
pub(crate) fn kind_of(number: u64) -> Option<Kind>
    ensures { result ≡ kind_of number }
{
    match number {
        Indicator::NUMBER => Some(Indicator::KIND),
        Identification::NUMBER => Some(Identification::KIND),
        LocalUse::NUMBER => Some(LocalUse::KIND),
        GridDefinition::NUMBER => Some(GridDefinition::KIND),
        ProdDefinition::NUMBER => Some(ProdDefinition::KIND),
        ReprDefinition::NUMBER => Some(ReprDefinition::KIND),
        BitMap::NUMBER => Some(BitMap::KIND),
        DataSection::NUMBER => Some(DataSection::KIND),
        EndSection::NUMBER => Some(EndSection::KIND),
        _ => None,
    }
}

// The least payload of the sections that have this number, if they have a header.
pub fn least_payload_of(number: u64) -> Option<usize>
    ensures { result ≡ least_payload_of number }
{
    let Some(kind) = kind_of(number) else {
        return None;
    };
    let extent = kind.extent;
    match extent {
        Extent::LeastPayload(octets) => Some(octets),
        Extent::WholeSize(_) => None,
    }
}

// Where the sections that have this number carry values.
pub fn values_of(number: u64) -> Option<usize>
    ensures { result ≡ values_of number }
{
    match kind_of(number) {
        Some(kind) => kind.values,
        None => None,
    }
}
