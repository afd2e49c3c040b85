// Section 4, the product definition section. What its template says is asked of the crate
// `products`.
ghost use Rattle.std.specs.Prelude.{◌≡◌};
ghost use Rattle.sections.specs.ProdDefinition.{prod_definition_of};

use crate::kinds::{Extent, Kind};
use octets::be16;

#[derive(Clone, Copy)]
pub struct ProdDefinition {
    // Coordinate values behind the template
    pub coordinates: u16,
    // Code table 4.0
    pub template: u16,
}

impl ProdDefinition {
    pub const NUMBER: u64 = 4;

    pub const LEAST_PAYLOAD: usize = 4;

    pub(crate) const KIND: Kind = Kind {
        number: ProdDefinition::NUMBER,
        extent: Extent::LeastPayload(ProdDefinition::LEAST_PAYLOAD),
        values: None,
    };

    // Coordinates and template of section 4; none under 4 octets.
    pub fn from_payload(payload: &[u8]) -> Option<ProdDefinition>
        ensures { result ≡ prod_definition_of payload.now }
    {
        if payload.len() < ProdDefinition::LEAST_PAYLOAD {
            return None;
        }
        Some(ProdDefinition {
            coordinates: be16([payload[0], payload[1]]),
            template: be16([payload[2], payload[3]]),
        })
    }
}
