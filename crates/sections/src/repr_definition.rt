// Section 5, the data representation section.
ghost use Rattle.std.specs.Prelude.{◌≡◌};
ghost use Rattle.sections.specs.ReprDefinition.{repr_definition_of};

use crate::kinds::{Extent, Kind};
use octets::{be16, be32};

#[derive(Clone, Copy)]
pub struct ReprDefinition {
    // Data points that have a value in section 7
    pub points: u32,
    // Code table 5.0
    pub template: u16,
}

impl ReprDefinition {
    pub const NUMBER: u64 = 5;

    pub const LEAST_PAYLOAD: usize = 6;

    pub const FIRST_VALUES_OCTET: usize = 12;

    pub(crate) const KIND: Kind = Kind {
        number: ReprDefinition::NUMBER,
        extent: Extent::LeastPayload(ReprDefinition::LEAST_PAYLOAD),
        values: Some(ReprDefinition::FIRST_VALUES_OCTET),
    };

    // Points and template of section 5; none under 6 octets.
    pub fn from_payload(payload: &[u8]) -> Option<ReprDefinition>
        ensures { result ≡ repr_definition_of payload.now }
    {
        if payload.len() < ReprDefinition::LEAST_PAYLOAD {
            return None;
        }
        Some(ReprDefinition {
            points: be32([payload[0], payload[1], payload[2], payload[3]]),
            template: be16([payload[4], payload[5]]),
        })
    }
}
