// Section 6, the bit-map section.
ghost use Rattle.std.specs.Prelude.{◌≡◌};
ghost use Rattle.sections.specs.BitMap.{bit_map_of};

use crate::kinds::{Extent, Kind};

#[derive(Clone, Copy)]
pub struct BitMap {
    // Code table 6.0
    pub indicator: u8,
}

impl BitMap {
    pub const NUMBER: u64 = 6;

    pub const LEAST_PAYLOAD: usize = 1;

    pub const FIRST_VALUES_OCTET: usize = 7;

    pub(crate) const KIND: Kind = Kind {
        number: BitMap::NUMBER,
        extent: Extent::LeastPayload(BitMap::LEAST_PAYLOAD),
        values: Some(BitMap::FIRST_VALUES_OCTET),
    };

    // The indicator of section 6; none without octets.
    pub fn from_payload(payload: &[u8]) -> Option<BitMap>
        ensures { result ≡ bit_map_of payload.now }
    {
        if payload.len() < BitMap::LEAST_PAYLOAD {
            return None;
        }
        Some(BitMap {
            indicator: payload[0],
        })
    }
}
