// A submessage's line, and the sections in force that it is made of (the crate's SubMessageIndex of
// parser.rs, with names for its fields).
ghost use Rattle.std.specs.Prelude.{◌≡◌};
ghost use Rattle.index.specs.Lines.{opened, in_force, with_span, with_submessage, line_of};

use framing::Offset;
use order::Place;
use sections::{
    BitMap, DataSection, EndSection, GridDefinition, Identification, Indicator, LocalUse,
    ProdDefinition, ReprDefinition,
};

// Section numbers that a place is kept for: all but the end section's.
pub const KEPT: usize = 8;

// Where a message stands: the octet offset of its section 0, and the total length stated there.
#[derive(Clone, Copy)]
pub struct Span {
    pub offset: Offset,
    pub total: u64,
}

// A line of the submessage table.
#[derive(Clone, Copy)]
pub struct Line {
    pub message: u64,
    pub submessage: u64,
    pub indicator: Place,
    pub identification: Place,
    pub local: Option<Place>,
    pub grid: Place,
    pub product: Place,
    pub representation: Place,
    pub bitmap: Place,
    pub values: Place,
    pub end: Option<Place>,
    // Its message's.
    pub span: Span,
}

// What is in force inside a message: what its section 0 stated, and for each section number the
// place of the last section that had it.
#[derive(Clone, Copy)]
pub struct Force {
    pub message: u64,
    pub submessage: u64,
    pub span: Span,
    pub local: Option<Place>,
    pub places: [Place; KEPT],
}

// A message, before its first section: submessage 0, nothing in force.
pub fn opened(message: u64) -> Force
    ensures { result ≡ opened message }
{
    Force {
        message,
        submessage: 0,
        span: Span {
            offset: Offset(0),
            total: 0,
        },
        local: None,
        places: [Place(0); KEPT],
    }
}

// A section comes in force: it replaces the one of its number, and no other.
pub fn in_force(mut force: Force, number: u64, here: Place) -> Force
    ensures { result ≡ in_force force number here }
{
    if number == LocalUse::NUMBER {
        let span = force.span;
        let places = force.places;
        return Force {
            message: force.message,
            submessage: force.submessage,
            span,
            local: Some(here),
            places,
        };
    }
    if number < EndSection::NUMBER {
        let i = number as usize;
        force.places[i] = here;
    }
    force
}

// The same in force, in a message that stands there.
pub fn with_span(mut force: Force, span: Span) -> Force
    ensures { result ≡ with_span force span }
{
    force.span = span;
    force
}

// The same in force, for another submessage.
pub fn with_submessage(mut force: Force, submessage: u64) -> Force
    ensures { result ≡ with_submessage force submessage }
{
    force.submessage = submessage;
    force
}

// The line of the submessage in hand: what is in force, with what stands behind it.
pub fn line_of(force: Force, end: Option<Place>) -> Line
    ensures { result ≡ line_of force end }
{
    let span = force.span;
    let local = force.local;
    let places = force.places;
    Line {
        message: force.message,
        submessage: force.submessage,
        indicator: places[Indicator::NUMBER as usize],
        identification: places[Identification::NUMBER as usize],
        local,
        grid: places[GridDefinition::NUMBER as usize],
        product: places[ProdDefinition::NUMBER as usize],
        representation: places[ReprDefinition::NUMBER as usize],
        bitmap: places[BitMap::NUMBER as usize],
        values: places[DataSection::NUMBER as usize],
        end,
        span,
    }
}
