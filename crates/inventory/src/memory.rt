// What the loop remembers for the next line: its numbers, and the sections 0 and 4 in force.
ghost use Rattle.std.specs.Prelude.{◌≡◌, ◌<◌};
ghost use Rattle.index.specs.Bounds.{most_octets};
ghost use Rattle.index.specs.Decoded.{own_octets, payload_of};
ghost use Rattle.inventory.specs.Memory.{blank, entry_in, with_section, remembered};
ghost use Rattle.inventory.specs.Inventory.{first_surface};

use crate::turn::Due;
use entries::Entry;
use framing::Section;
use index::unlisted;
use products::{FixedSurface, Product};
use sections::{HEADER_SIZE, Indicator, ProdDefinition};

#[derive(Clone, Copy)]
pub(crate) struct Memory {
    pub message: u64,
    pub submessage: u64,
    pub zeroth: Section,
    pub fourth: Section,
}

// Before a file's first section: nothing asks for the two sections until they are read.
pub(crate) fn blank() -> Memory
    ensures { result ≡ blank }
{
    let none = unlisted();
    let section = none.section;
    Memory {
        message: 0,
        submessage: 0,
        zeroth: section,
        fourth: section,
    }
}

// A section comes in force.
fn with_section(mut memory: Memory, section: Section) -> Memory
    ensures { result ≡ with_section memory section }
{
    if section.number == Indicator::NUMBER {
        memory.zeroth = section;
        return memory;
    }
    if section.number == ProdDefinition::NUMBER {
        memory.fourth = section;
        return memory;
    }
    memory
}

// A section is passed, and what was due is done.
pub(crate) fn remembered(mut memory: Memory, section: Section, due: Due) -> Memory
    requires { (memory.message < most_octets) × (memory.submessage < most_octets) }
    ensures { result ≡ remembered due memory section }
{
    match due {
        Due::NoLine => with_section(memory, section),
        Due::Line => {
            memory.submessage += 1;
            with_section(memory, section)
        }
        Due::LastLine => {
            memory.message += 1;
            memory.submessage = 0;
            memory
        }
    }
}

// A section's own octets: as many as the file has, where it ends before.
pub(crate) fn own_octets(file: &[u8], section: Section) -> &[u8]
    ensures { result.now ≡ own_octets file.now section }
{
    let offset = section.offset;
    let from = offset.0 as usize;
    let length = section.length as usize;
    if file.len() < from {
        return &file[file.len()..];
    }
    let left = file.len() - from;
    if left < length {
        return &file[from..];
    }
    &file[from..from + length]
}

// Those behind its header.
pub(crate) fn payload_of(file: &[u8], section: Section) -> &[u8]
    ensures { result.now ≡ payload_of file.now section }
{
    let own = own_octets(file, section);
    if own.len() < HEADER_SIZE {
        return &own[own.len()..];
    }
    &own[HEADER_SIZE..]
}

fn first_surface(surfaces: Option<(FixedSurface, FixedSurface)>) -> Option<u8>
    ensures { result ≡ first_surface surfaces }
{
    match surfaces {
        Some((first, _)) => Some(first.surface),
        None => None,
    }
}

// The entry of the line that is due.
pub(crate) fn entry_in(memory: Memory, indicator: Indicator, product: Product) -> Entry
    ensures { result ≡ entry_in memory indicator product }
{
    let zeroth = memory.zeroth;
    let offset = zeroth.offset;
    let category = product.category;
    let number = product.number;
    let time = product.time;
    let surfaces = product.surfaces;
    let surface = first_surface(surfaces);
    Entry {
        message: memory.message,
        submessage: memory.submessage,
        offset,
        discipline: indicator.discipline,
        category,
        number,
        time,
        surface,
    }
}
