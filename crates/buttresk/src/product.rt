// The decoded fields of section 4, by a reading that the caller names: all of them, or when and
// where alone. A `known` stands beside every value that can be none: where it is 0, the value says
// nothing.
ghost use Rattle.std.specs.Prelude.{◌≡◌};
ghost use Rattle.buttresk.specs.Product.{octet_field, time_field, surface_numbers};
ghost use Rattle.buttresk.specs.Product.{surfaces_field, fields_of};
ghost use Rattle.buttresk.specs.Product.{when_where_numbers, reading_of, product_fields};
ghost use Rattle.buttresk.specs.Product.{when_where_fields};

use products::{
    FixedSurface, ForecastTime, Product, TemplateReading, WhenWhere, product_of, when_and_where,
};
use sections::ProdDefinition;

#[repr(C)]
#[derive(Clone, Copy)]
pub struct OctetField {
    pub known: u8,
    pub value: u8,
}

#[repr(C)]
#[derive(Clone, Copy)]
pub struct TimeField {
    pub known: u8,
    pub unit: u8,
    pub time: u32,
}

#[repr(C)]
#[derive(Clone, Copy)]
pub struct Surface {
    pub surface: u8,
    pub factor: i32,
    pub value: i32,
}

// Both surfaces or none.
#[repr(C)]
#[derive(Clone, Copy)]
pub struct SurfacesField {
    pub known: u8,
    pub first: Surface,
    pub second: Surface,
}

#[repr(C)]
#[derive(Clone, Copy)]
pub struct ProductFields {
    pub known: u8,
    pub coordinates: u16,
    pub template: u16,
    pub category: OctetField,
    pub number: OctetField,
    pub process: OctetField,
    pub time: TimeField,
    pub surfaces: SurfacesField,
}

// Time and surfaces of one payload.
#[repr(C)]
#[derive(Clone, Copy)]
pub struct WhenWhereFields {
    pub time: TimeField,
    pub surfaces: SurfacesField,
}

impl From<Option<u8>> for OctetField {
    // An octet, or `known` 0.
    fn from(maybe: Option<u8>) -> OctetField
        ensures { result ≡ octet_field maybe }
    {
        match maybe {
            Some(value) => OctetField { known: 1, value },
            None => OctetField { known: 0, value: 0 },
        }
    }
}

impl From<Option<ForecastTime>> for TimeField {
    // A time and its unit, or `known` 0.
    fn from(maybe: Option<ForecastTime>) -> TimeField
        ensures { result ≡ time_field maybe }
    {
        match maybe {
            Some(time) => TimeField {
                known: 1,
                unit: time.unit,
                time: time.time,
            },
            None => TimeField {
                known: 0,
                unit: 0,
                time: 0,
            },
        }
    }
}

impl From<FixedSurface> for Surface {
    // The three numbers of a surface.
    fn from(surface: FixedSurface) -> Surface
        ensures { result ≡ surface_numbers surface }
    {
        Surface {
            surface: surface.surface,
            factor: surface.factor,
            value: surface.value,
        }
    }
}

impl From<Option<(FixedSurface, FixedSurface)>> for SurfacesField {
    // Both surfaces, or `known` 0.
    fn from(maybe: Option<(FixedSurface, FixedSurface)>) -> SurfacesField
        ensures { result ≡ surfaces_field maybe }
    {
        match maybe {
            Some((first, second)) => SurfacesField {
                known: 1,
                first: Surface::from(first),
                second: Surface::from(second),
            },
            None => {
                let none = Surface {
                    surface: 0,
                    factor: 0,
                    value: 0,
                };
                SurfacesField {
                    known: 0,
                    first: none,
                    second: none,
                }
            }
        }
    }
}

impl From<WhenWhere> for WhenWhereFields {
    // When and where as numbers.
    fn from(told: WhenWhere) -> WhenWhereFields
        ensures { result ≡ when_where_numbers told }
    {
        WhenWhereFields {
            time: TimeField::from(told.time),
            surfaces: SurfacesField::from(told.surfaces),
        }
    }
}

// All fields as numbers. Coordinates and template are of what every section 4 has, whatever its
// template.
fn product_fields(definition: Option<ProdDefinition>, product: Product) -> ProductFields
    ensures { result ≡ fields_of definition product }
{
    let (known, coordinates, template) = match definition {
        Some(fields) => (1, fields.coordinates, fields.template),
        None => (0, 0, 0),
    };
    ProductFields {
        known,
        coordinates,
        template,
        category: OctetField::from(product.category),
        number: OctetField::from(product.number),
        process: OctetField::from(product.process),
        time: TimeField::from(product.time),
        surfaces: SurfacesField::from(product.surfaces),
    }
}

// The number of the reading as the crate.
const AS_CRATE: u64 = 1;

// The number of the one by the Manual.
const BY_MANUAL: u64 = 2;

// The reading that a number names. No other is taken for the one that it may have meant.
fn reading_of(number: u64) -> Option<TemplateReading>
    ensures { result ≡ reading_of number }
{
    match number {
        AS_CRATE => Some(TemplateReading::AsCrate),
        BY_MANUAL => Some(TemplateReading::ByManual),
        _ => None,
    }
}

// Section 4's fields with `known` 1, or `known` 0: of its payload, by a reading. Each product field
// has its own. By a number that names no reading every `known` is 0. The number has 64 bits, so
// that a wider one of the caller's is never cut down to one that names a reading.
#[unsafe(no_mangle)]
pub extern "C" fn buttresk_product_definition(reading: u64, payload: &[u8]) -> ProductFields
    ensures { result ≡ product_fields reading payload.now }
{
    let Some(named) = reading_of(reading) else {
        let none = Product {
            category: None,
            number: None,
            process: None,
            time: None,
            surfaces: None,
        };
        return product_fields(None, none);
    };
    product_fields(
        ProdDefinition::from_payload(payload),
        product_of(named, payload),
    )
}

// When and where a payload of section 4 says that its field is, by a reading: the time and the
// surfaces, each with its own `known`, as `buttresk_product_definition` has them. By a number that
// names no reading both are 0.
#[unsafe(no_mangle)]
pub extern "C" fn buttresk_when_and_where(reading: u64, payload: &[u8]) -> WhenWhereFields
    ensures { result ≡ when_where_fields reading payload.now }
{
    let Some(named) = reading_of(reading) else {
        return WhenWhereFields::from(WhenWhere {
            time: None,
            surfaces: None,
        });
    };
    WhenWhereFields::from(when_and_where(named, payload))
}
