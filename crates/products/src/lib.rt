// Product fields (document 01, "Fields"; the crate's ProdDefinition): what a payload of section 4
// says by its template. The template begins at payload octet 4; what stands where in it is asked of
// `templates`.
#![tactic(auto)]

ghost use Rattle.std.specs.Prelude.{◌≡◌, ℕ, List, drop, Option, None};
ghost use Rattle.std.specs.Fn.{FnReturnsAt};
ghost use Rattle.products.specs.Reads.{Reads};
ghost use Rattle.products.specs.Products.{octet_of, time_of, surface_of, surfaces_of};
ghost use Rattle.products.specs.Products.{supported_of, by_index, when_where_of};
ghost use Rattle.products.specs.Products.{product_by, product_of};

mod templates;

use octets::{be16, be32, sign_and_size};
use sections::ProdDefinition;
pub use templates::{Offsets, ROWS, TemplateReading, TimeOctets, offsets_at, offsets_by};

// The template's first octet, and where each template has the parameter's category and number.
const TEMPLATE: usize = 4;

const CATEGORY: usize = 0;

const PARAMETER: usize = 1;

#[derive(Clone, Copy)]
pub struct ForecastTime {
    // Code table 4.4
    pub unit: u8,
    pub time: u32,
}

#[derive(Clone, Copy)]
pub struct FixedSurface {
    // Code table 4.5
    pub surface: u8,
    pub factor: i32,
    pub value: i32,
}

// When and where, of one payload: the time or none, and the surfaces or none.
#[derive(Clone, Copy)]
pub struct WhenWhere {
    pub time: Option<ForecastTime>,
    pub surfaces: Option<(FixedSurface, FixedSurface)>,
}

// What a payload of section 4 says by its template. Category and number are of the code tables 4.1
// and 4.2, the generating process of 4.3.
#[derive(Clone, Copy)]
pub struct Product {
    pub category: Option<u8>,
    pub number: Option<u8>,
    pub process: Option<u8>,
    pub time: Option<ForecastTime>,
    pub surfaces: Option<(FixedSurface, FixedSurface)>,
}

// What is left of a slice from octet `at` on: nothing, where it ends before.
fn from(s: &[u8], at: usize) -> &[u8]
    ensures { result.now ≡ drop at s.now }
{
    if s.len() < at {
        return &s[s.len()..];
    }
    &s[at..]
}

// The first of these octets.
fn octet_of(s: &[u8]) -> Option<u8>
    ensures { result ≡ octet_of s.now }
{
    if s.len() < 1 {
        return None;
    }
    Some(s[0])
}

// The unit and the time, which has so many octets, at the start of these octets.
fn time_of(s: &[u8], width: TimeOctets) -> Option<ForecastTime>
    ensures { result ≡ time_of width s.now }
{
    match (width, s) {
        (TimeOctets::Two, [unit, a, b, ..]) => Some(ForecastTime {
            unit: *unit,
            time: be16([*a, *b]) as u32,
        }),
        (TimeOctets::Four, [unit, a, b, c, d, ..]) => Some(ForecastTime {
            unit: *unit,
            time: be32([*a, *b, *c, *d]),
        }),
        _ => None,
    }
}

// The surface at the start of these octets.
fn surface_of(s: &[u8]) -> Option<FixedSurface>
    ensures { result ≡ surface_of s.now }
{
    if s.len() < 6 {
        return None;
    }
    let Some(factor) = sign_and_size(&s[1..2]) else {
        return None;
    };
    let Some(value) = sign_and_size(&s[2..6]) else {
        return None;
    };
    Some(FixedSurface {
        surface: s[0],
        factor,
        value,
    })
}

// The two surfaces at the start of these octets: both or none.
fn surfaces_of(s: &[u8]) -> Option<(FixedSurface, FixedSurface)>
    ensures { result ≡ surfaces_of s.now }
{
    let Some(first) = surface_of(s) else {
        return None;
    };
    let Some(second) = surface_of(from(s, 6)) else {
        return None;
    };
    Some((first, second))
}

// The template number, where the payload has one and it is supported.
fn supported_of(payload: &[u8]) -> Option<u16>
    ensures { result ≡ supported_of payload.now }
{
    if payload.len() < ProdDefinition::LEAST_PAYLOAD {
        return None;
    }
    let template = be16([payload[2], payload[3]]);
    if templates::supported(template) {
        Some(template)
    } else {
        None
    }
}

// What a reader finds at an index of the payload's template. Both callers hand over a closure of
// their own for the surfaces: the compiler then makes no call of it.
fn field_at<T, F: Fn(&[u8]) -> Option<T>>(
    payload: &[u8],
    index: Option<usize>,
    read: F,
) -> Option<T>
    requires { F.IsAlwaysCallable read }
    ensures { (field : List ℕ → Option T) → Reads (FnReturnsAt F.Fn read) field
        → result ≡ by_index None field payload.now index }
{
    let Some(at) = index else {
        return None;
    };
    read(from(from(payload, TEMPLATE), at))
}

// When and where a payload of section 4 says that its field is, by a reading: the time or none, and
// the surfaces or none, each as `product_of` has it. The template is judged and its row looked up
// once. Each call lays the table `ROWS` out anew, but of an unsupported template.
pub fn when_and_where(reading: TemplateReading, payload: &[u8]) -> WhenWhere
    ensures { result ≡ when_where_of reading payload.now }
{
    let Some(template) = supported_of(payload) else {
        return WhenWhere {
            time: None,
            surfaces: None,
        };
    };
    let offsets = offsets_at(reading, template);
    let unit = offsets.time;
    let width = offsets.width;
    let first = offsets.surfaces;
    WhenWhere {
        time: field_at(payload, unit, |octets| time_of(octets, width)),
        surfaces: field_at(payload, first, |octets| surfaces_of(octets)),
    }
}

// Category, number, generating process, time and surfaces of a payload of section 4, by a reading
// of a lent table of templates: each is none if the template is unsupported, has no index for it,
// or the payload ends too soon; both surfaces or none. The template is judged and its row looked up
// once; each field is then there or none by itself.
pub fn product_by(rows: &[u32], reading: TemplateReading, payload: &[u8]) -> Product
    ensures { result ≡ product_by rows.now reading payload.now }
{
    let Some(template) = supported_of(payload) else {
        return Product {
            category: None,
            number: None,
            process: None,
            time: None,
            surfaces: None,
        };
    };
    let category = field_at(payload, Some(CATEGORY), octet_of);
    let number = field_at(payload, Some(PARAMETER), octet_of);
    let offsets = offsets_by(rows, reading, template);
    let process = offsets.process;
    let time = offsets.time;
    let width = offsets.width;
    let surfaces = offsets.surfaces;
    Product {
        category,
        number,
        process: field_at(payload, process, octet_of),
        time: field_at(payload, time, |octets| time_of(octets, width)),
        surfaces: field_at(payload, surfaces, |octets| surfaces_of(octets)),
    }
}

// Category, number, generating process, time and surfaces of a payload of section 4, by a reading
// of the table `ROWS`. Each call lays that table out anew: whoever asks for many payloads borrows
// it once and lends it to `product_by`.
pub fn product_of(reading: TemplateReading, payload: &[u8]) -> Product
    ensures { result ≡ product_of reading payload.now }
{
    product_by(&ROWS, reading, payload)
}
