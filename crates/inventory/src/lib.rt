// The inventory of a file (document 02, Ticket 1): a line of text for each submessage, in a lent
// buffer, and only if the whole file walks clean and the text fits.
#![tactic(auto)]

ghost use Rattle.std.specs.Prelude.{◌≡◌};
ghost use Rattle.inventory.specs.Inventory.{inventory_of};
ghost use Rattle.inventory.specs.End.{inventory_end};

mod lines;
mod memory;
mod turn;

use framing::Offset;
use index::{MOST_OCTETS, Outcome, Refusal, Refused, StoreEnd, end_of, stored, unplaced};
use lines::put_lines;
use order::Place;
use products::ROWS;

// Why there is no inventory.
#[derive(Clone, Copy)]
pub enum InventoryRefusal {
    // The walk's own refusal, with its place and offset.
    Walk(Refused),
    // 20: the text is longer than the buffer.
    TextTooSmall,
}

// The inventory, the line of each submessage: the walk's own refusals, then 20. The text stands in
// the buffer's first octets, so many of them as are answered; the rest of the buffer is untouched.
// The lines are measured first, so that nothing is written on a refusal.
pub fn inventory(file: &[u8], text: &mut [u8]) -> Result<usize, InventoryRefusal>
    ensures answer { result ≡ (inventory_of file.now text.old).answer }
    ensures text { text.new
        ≡ (inventory_of file.now text.old).text }
{
    if MOST_OCTETS < file.len() as u64 {
        return Err(InventoryRefusal::Walk(Refused {
            why: Refusal::FileTooLong,
            place: Place(0),
            offset: Offset(0),
        }));
    }
    // Laid out once, for every line of both passes.
    let templates: &[u32] = &ROWS;
    let measured = put_lines(templates, file, &mut text[..0]);
    let outcome = measured.outcome;
    let octets = measured.octets;
    match outcome {
        Err(stop) => Err(InventoryRefusal::Walk(stop)),
        Ok(()) => {
            if text.len() < octets {
                return Err(InventoryRefusal::TextTooSmall);
            }
            let written = put_lines(templates, file, text);
            Ok(written.octets)
        }
    }
}

// An answer in document 01's and 02's numbers, and the octets written.
pub fn inventory_end(answer: Result<usize, InventoryRefusal>) -> StoreEnd
    ensures { result ≡ inventory_end answer }
{
    match answer {
        Ok(octets) => stored(octets as u64),
        Err(InventoryRefusal::Walk(stop)) => StoreEnd {
            end: end_of(Err(stop)),
            written: 0,
        },
        Err(InventoryRefusal::TextTooSmall) => unplaced(20, 0),
    }
}
