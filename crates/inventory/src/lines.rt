// The lines of a file, one after the other, into a lent text. A line that does not fit is measured
// and not written.
ghost use Rattle.std.specs.Prelude.{◌≡◌, ◌++◌, ◌+◌, ◌*◌, ◌≤◌, length, take, drop};
ghost use Rattle.products.specs.Rows.{rows};
ghost use Rattle.entries.specs.Entries.{entry_line, text_of, most_line};
ghost use Rattle.index.specs.Bounds.{most_octets, unlimited};
ghost use Rattle.index.specs.Walk.{walked};
ghost use Rattle.inventory.specs.Lines.{put_in_text, entries_in, PutText, PutLines};

use crate::memory::{Memory, blank, entry_in, own_octets, payload_of, remembered};
use crate::turn::{Due, stopped};
use entries::{Entry, spell};
use index::{Listed, Outcome, unlisted};
use order::{Place, completing};
use products::{TemplateReading, product_by};
use reading::{Seen, look, start};
use sections::{Indicator, ProdDefinition};

// How the walk ends, and the octets of all lines.
#[derive(Clone, Copy)]
pub(crate) struct Listing {
    pub outcome: Outcome,
    pub octets: usize,
}

// Copies octets into the text.
fn put_at(text: &mut [u8], at: usize, line: &[u8])
    requires { at + length line.now ≤ length text.old }
    ensures { text.new ≡ put_in_text text.old at line.now }
{
    for i in 0..line.len() {
        text[at + i] = line[i];
    }
}

// Writes a line behind so many octets, if it fits, and says where it ends.
fn put_line(text: &mut [u8], at: usize, line: &[u8]) -> usize
    requires { (at ≤ most_line * most_octets) × (length line.now ≤ most_line) }
    ensures { PutText line.now at text.old text.new result }
{
    let end = at + line.len();
    if text.len() < end {
        return end;
    }
    put_at(text, at, line);
    end
}

// The line of an entry.
fn put_entry(text: &mut [u8], at: usize, entry: Entry) -> usize
    requires { at ≤ most_line * most_octets }
    ensures { PutText (entry_line entry) at text.old text.new result }
{
    let line = spell(entry);
    let octets = line.octets;
    let start = line.start;
    put_line(text, at, &octets[start..])
}

// The line of what is remembered.
fn put_memory(templates: &[u32], file: &[u8], text: &mut [u8], at: usize, memory: Memory) -> usize
    requires { (templates.now ≡ rows) × (at ≤ most_line * most_octets) }
    ensures { PutText (text_of (entries_in file.now memory)) at
        text.old text.new result }
{
    let zeroth = memory.zeroth;
    let fourth = memory.fourth;
    let known = Indicator::from_section(own_octets(file, zeroth));
    let Some(indicator) = known else {
        return at;
    };
    let product = product_by(
        templates,
        TemplateReading::ByManual,
        payload_of(file, fourth),
    );
    put_entry(text, at, entry_in(memory, indicator, product))
}

// All lines of a file that walks clean. On a refusal those before it may stand. The table of
// templates is lent: a constant array is laid out anew wherever it is named.
pub(crate) fn put_lines(templates: &[u32], file: &[u8], text: &mut [u8]) -> Listing
    requires { (templates.now ≡ rows) × (length file.now ≤ most_octets) }
    ensures { PutLines file.now text.old text.new result }
{
    let mut reading = start();
    let mut place: u64 = 0;
    let mut last = unlisted();
    let mut memory = blank();
    let mut octets: usize = 0;
    loop {
        let seen = look(file, reading);
        let here = Place(place);
        match seen {
            Seen::Passes(section, next) => {
                let order = reading.order;
                last = Listed {
                    place: here,
                    section,
                };
                place += 1;
                reading = next;
                if completing(order, section.number) {
                    // The line is of what was remembered before the section: a new section 4
                    // completes the line of the old one.
                    let with_it = remembered(memory, section, Due::Line);
                    octets = put_memory(templates, file, text, octets, memory);
                    memory = with_it;
                } else if section.number == Indicator::NUMBER {
                    memory.zeroth = section;
                } else if section.number == ProdDefinition::NUMBER {
                    memory.fourth = section;
                }
            }
            Seen::Closes(section, next) => {
                octets = put_memory(templates, file, text, octets, memory);
                memory = remembered(memory, section, Due::LastLine);
                last = Listed {
                    place: here,
                    section,
                };
                place += 1;
                reading = next;
            }
            _ => {
                let outcome = stopped(seen, place, last);
                return Listing { outcome, octets };
            }
        }
    }
}
