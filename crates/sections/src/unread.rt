// Sections 2, 7 and 8: the kinds of which no field is decoded.

use crate::kinds::{Extent, Kind};

// Section 2, the local use section.
#[derive(Clone, Copy)]
pub struct LocalUse;

impl LocalUse {
    pub const NUMBER: u64 = 2;

    pub const LEAST_PAYLOAD: usize = 0;

    pub const FIRST_VALUES_OCTET: usize = 6;

    pub(crate) const KIND: Kind = Kind {
        number: LocalUse::NUMBER,
        extent: Extent::LeastPayload(LocalUse::LEAST_PAYLOAD),
        values: Some(LocalUse::FIRST_VALUES_OCTET),
    };
}

// Section 7, the data section: the values themselves.
#[derive(Clone, Copy)]
pub struct DataSection;

impl DataSection {
    pub const NUMBER: u64 = 7;

    pub const LEAST_PAYLOAD: usize = 0;

    pub const FIRST_VALUES_OCTET: usize = 6;

    pub(crate) const KIND: Kind = Kind {
        number: DataSection::NUMBER,
        extent: Extent::LeastPayload(DataSection::LEAST_PAYLOAD),
        values: Some(DataSection::FIRST_VALUES_OCTET),
    };
}

// Section 8, the end section: "7777".
#[derive(Clone, Copy)]
pub struct EndSection;

impl EndSection {
    pub const NUMBER: u64 = 8;

    pub const WHOLE_SIZE: usize = 4;

    pub(crate) const KIND: Kind = Kind {
        number: EndSection::NUMBER,
        extent: Extent::WholeSize(EndSection::WHOLE_SIZE),
        values: None,
    };
}
