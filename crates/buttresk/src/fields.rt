// The decoded fields of sections 0, 1, 3, 5 and 6. `known` is 1, or 0 where there are no fields:
// the other numbers then say nothing.
ghost use Rattle.std.specs.Prelude.{◌≡◌};
ghost use Rattle.sections.specs.Indicator.{indicator_of};
ghost use Rattle.sections.specs.Identification.{identification_of};
ghost use Rattle.sections.specs.GridDefinition.{grid_definition_of};
ghost use Rattle.sections.specs.ReprDefinition.{repr_definition_of};
ghost use Rattle.sections.specs.BitMap.{bit_map_of};
ghost use Rattle.buttresk.specs.Fields.{indicator_fields, identification_fields, grid_fields};
ghost use Rattle.buttresk.specs.Fields.{representation_fields, bit_map_fields, no_identification};

use sections::{BitMap, GridDefinition, Identification, Indicator, ReprDefinition};

#[repr(C)]
#[derive(Clone, Copy)]
pub struct IndicatorFields {
    pub known: u8,
    pub discipline: u8,
    pub total: u64,
}

#[repr(C)]
#[derive(Clone, Copy)]
pub struct IdentificationFields {
    pub known: u8,
    pub master: u8,
    pub local: u8,
    pub significance: u8,
    pub month: u8,
    pub day: u8,
    pub hour: u8,
    pub minute: u8,
    pub second: u8,
    pub status: u8,
    pub processed: u8,
    pub centre: u16,
    pub subcentre: u16,
    pub year: u16,
}

#[repr(C)]
#[derive(Clone, Copy)]
pub struct GridFields {
    pub known: u8,
    pub template: u16,
    pub points: u32,
}

#[repr(C)]
#[derive(Clone, Copy)]
pub struct RepresentationFields {
    pub known: u8,
    pub template: u16,
    pub points: u32,
}

#[repr(C)]
#[derive(Clone, Copy)]
pub struct BitMapFields {
    pub known: u8,
    pub indicator: u8,
}

// Section 0's fields with `known` 1, or `known` 0: of the section's own octets.
#[unsafe(no_mangle)]
pub extern "C" fn buttresk_indicator(section: &[u8]) -> IndicatorFields
    ensures { result ≡ indicator_fields (indicator_of section.now) }
{
    let Some(fields) = Indicator::from_section(section) else {
        return IndicatorFields {
            known: 0,
            discipline: 0,
            total: 0,
        };
    };
    IndicatorFields {
        known: 1,
        discipline: fields.discipline,
        total: fields.total,
    }
}

// The numbers of section 1 where it has no fields.
fn no_identification() -> IdentificationFields
    ensures { result ≡ no_identification }
{
    IdentificationFields {
        known: 0,
        master: 0,
        local: 0,
        significance: 0,
        month: 0,
        day: 0,
        hour: 0,
        minute: 0,
        second: 0,
        status: 0,
        processed: 0,
        centre: 0,
        subcentre: 0,
        year: 0,
    }
}

// Section 1's fields with `known` 1, or `known` 0: of its payload.
#[unsafe(no_mangle)]
pub extern "C" fn buttresk_identification(payload: &[u8]) -> IdentificationFields
    ensures { result ≡ identification_fields (identification_of payload.now) }
{
    let Some(fields) = Identification::from_payload(payload) else {
        return no_identification();
    };
    IdentificationFields {
        known: 1,
        master: fields.master,
        local: fields.local,
        significance: fields.significance,
        month: fields.month,
        day: fields.day,
        hour: fields.hour,
        minute: fields.minute,
        second: fields.second,
        status: fields.status,
        processed: fields.processed,
        centre: fields.centre,
        subcentre: fields.subcentre,
        year: fields.year,
    }
}

// Section 3's fields with `known` 1, or `known` 0: of its payload.
#[unsafe(no_mangle)]
pub extern "C" fn buttresk_grid_definition(payload: &[u8]) -> GridFields
    ensures { result ≡ grid_fields (grid_definition_of payload.now) }
{
    let Some(fields) = GridDefinition::from_payload(payload) else {
        return GridFields {
            known: 0,
            template: 0,
            points: 0,
        };
    };
    GridFields {
        known: 1,
        template: fields.template,
        points: fields.points,
    }
}

// Section 5's fields with `known` 1, or `known` 0: of its payload.
#[unsafe(no_mangle)]
pub extern "C" fn buttresk_representation(payload: &[u8]) -> RepresentationFields
    ensures { result ≡ representation_fields (repr_definition_of payload.now) }
{
    let Some(fields) = ReprDefinition::from_payload(payload) else {
        return RepresentationFields {
            known: 0,
            template: 0,
            points: 0,
        };
    };
    RepresentationFields {
        known: 1,
        template: fields.template,
        points: fields.points,
    }
}

// Section 6's field with `known` 1, or `known` 0: of its payload.
#[unsafe(no_mangle)]
pub extern "C" fn buttresk_bit_map(payload: &[u8]) -> BitMapFields
    ensures { result ≡ bit_map_fields (bit_map_of payload.now) }
{
    let Some(fields) = BitMap::from_payload(payload) else {
        return BitMapFields {
            known: 0,
            indicator: 0,
        };
    };
    BitMapFields {
        known: 1,
        indicator: fields.indicator,
    }
}
