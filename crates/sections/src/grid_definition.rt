// Section 3, the grid definition section.
ghost use Rattle.std.specs.Prelude.{◌≡◌};
ghost use Rattle.sections.specs.GridDefinition.{grid_definition_of};

use crate::kinds::{Extent, Kind};
use octets::{be16, be32};

#[derive(Clone, Copy)]
pub struct GridDefinition {
    // Data points of the grid
    pub points: u32,
    // Code table 3.1
    pub template: u16,
}

impl GridDefinition {
    pub const NUMBER: u64 = 3;

    pub const LEAST_PAYLOAD: usize = 9;

    pub(crate) const KIND: Kind = Kind {
        number: GridDefinition::NUMBER,
        extent: Extent::LeastPayload(GridDefinition::LEAST_PAYLOAD),
        values: None,
    };

    // Points and template of section 3; none under 9 octets.
    pub fn from_payload(payload: &[u8]) -> Option<GridDefinition>
        ensures { result ≡ grid_definition_of payload.now }
    {
        if payload.len() < GridDefinition::LEAST_PAYLOAD {
            return None;
        }
        Some(GridDefinition {
            points: be32([payload[1], payload[2], payload[3], payload[4]]),
            template: be16([payload[7], payload[8]]),
        })
    }
}
