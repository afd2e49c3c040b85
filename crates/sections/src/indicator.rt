// Section 0, the indicator section.
ghost use Rattle.std.specs.Prelude.{◌≡◌};
ghost use Rattle.sections.specs.Indicator.{indicator_of};

use crate::kinds::{Extent, Kind};
use octets::be64;

#[derive(Clone, Copy)]
pub struct Indicator {
    // Code table 0.0
    pub discipline: u8,
    // Octets of the whole message, this section and the end section included
    pub total: u64,
}

impl Indicator {
    pub const NUMBER: u64 = 0;

    pub const WHOLE_SIZE: usize = 16;

    // The edition that is read.
    pub const EDITION: u8 = 2;

    pub(crate) const KIND: Kind = Kind {
        number: Indicator::NUMBER,
        extent: Extent::WholeSize(Indicator::WHOLE_SIZE),
        values: None,
    };

    // Discipline and total length, of the section's own octets; none under 16 octets. Neither
    // "GRIB" nor the edition is tested: framing does that.
    pub fn from_section(section: &[u8]) -> Option<Indicator>
        ensures { result ≡ indicator_of section.now }
    {
        if section.len() < Indicator::WHOLE_SIZE {
            return None;
        }
        Some(Indicator {
            discipline: section[6],
            total: be64([
                section[8],
                section[9],
                section[10],
                section[11],
                section[12],
                section[13],
                section[14],
                section[15],
            ]),
        })
    }
}
