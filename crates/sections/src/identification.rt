// Section 1, the identification section.
ghost use Rattle.std.specs.Prelude.{◌≡◌};
ghost use Rattle.sections.specs.Identification.{identification_of};

use crate::kinds::{Extent, Kind};
use octets::be16;

#[derive(Clone, Copy)]
pub struct Identification {
    // Common code table C-11
    pub centre: u16,
    pub subcentre: u16,
    // Code table 1.0
    pub master: u8,
    // Code table 1.1
    pub local: u8,
    // Code table 1.2
    pub significance: u8,
    // The reference time, unchecked: a month may be 13
    pub year: u16,
    pub month: u8,
    pub day: u8,
    pub hour: u8,
    pub minute: u8,
    pub second: u8,
    // Code table 1.3
    pub status: u8,
    // Code table 1.4
    pub processed: u8,
}

impl Identification {
    pub const NUMBER: u64 = 1;

    pub const LEAST_PAYLOAD: usize = 16;

    pub(crate) const KIND: Kind = Kind {
        number: Identification::NUMBER,
        extent: Extent::LeastPayload(Identification::LEAST_PAYLOAD),
        values: None,
    };

    // The 13 fields of section 1; none under 16 octets.
    pub fn from_payload(payload: &[u8]) -> Option<Identification>
        ensures { result ≡ identification_of payload.now }
    {
        if payload.len() < Identification::LEAST_PAYLOAD {
            return None;
        }
        Some(Identification {
            centre: be16([payload[0], payload[1]]),
            subcentre: be16([payload[2], payload[3]]),
            master: payload[4],
            local: payload[5],
            significance: payload[6],
            year: be16([payload[7], payload[8]]),
            month: payload[9],
            day: payload[10],
            hour: payload[11],
            minute: payload[12],
            second: payload[13],
            status: payload[14],
            processed: payload[15],
        })
    }
}
