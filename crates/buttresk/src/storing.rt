// The public copy, the writer and the inventory: a destination is lent, and the answer is how it
// ended and the octets written.
ghost use Rattle.std.specs.Prelude.{◌≡◌};
ghost use Rattle.publish.specs.Values.{licensed};
ghost use Rattle.publish.specs.Copy.{copy_of};
ghost use Rattle.publish.specs.End.{copy_end};
ghost use Rattle.writer.specs.Write.{write_of};
ghost use Rattle.writer.specs.End.{write_end};
ghost use Rattle.inventory.specs.Inventory.{inventory_of};
ghost use Rattle.inventory.specs.End.{inventory_end};
ghost use Rattle.buttresk.specs.Stores.{five_of};

use index::StoreEnd;
use inventory::{inventory, inventory_end};
use publish::{copy_end, publish};
use writer::{write, write_end};

#[repr(C)]
#[derive(Clone, Copy)]
pub struct StoreAnswer {
    pub outcome: u64,
    pub place: u64,
    pub offset: u64,
    pub detail: u64,
    pub written: u64,
}

impl From<StoreEnd> for StoreAnswer {
    // The five numbers of an end.
    fn from(answer: StoreEnd) -> StoreAnswer
        ensures { result ≡ five_of answer }
    {
        let end = answer.end;
        StoreAnswer {
            outcome: end.outcome,
            place: end.place,
            offset: end.offset,
            detail: end.detail,
            written: answer.written,
        }
    }
}

// Writes the public copy of a file; a refusal leaves the destination as it was. Number, place,
// offset and detail of the answer are told, and the octets written.
#[unsafe(no_mangle)]
pub extern "C" fn buttresk_publish(file: &[u8], dest: &mut [u8]) -> StoreAnswer
    ensures answer { result ≡ five_of (copy_end
        (copy_of licensed file.now dest.old).answer) }
    ensures dest { dest.new
        ≡ (copy_of licensed file.now dest.old).dest }
{
    StoreAnswer::from(copy_end(publish(file, dest)))
}

// Writes the message of a plan, lent as rows of three numbers; a refusal leaves the destination as
// it was. Number, place, offset and detail of the answer are told, and the octets written.
#[unsafe(no_mangle)]
pub extern "C" fn buttresk_write(
    discipline: u8,
    reserved_1: u8,
    reserved_2: u8,
    plan: &[u64],
    store: &[u8],
    dest: &mut [u8],
) -> StoreAnswer
    ensures answer { result ≡ five_of (write_end (write_of discipline reserved_1 reserved_2
        plan.now store.now dest.old).answer) }
    ensures dest { dest.new ≡ (write_of discipline reserved_1 reserved_2
        plan.now store.now dest.old).dest }
{
    StoreAnswer::from(write_end(write(discipline, reserved_1, reserved_2, plan, store, dest)))
}

// Writes the inventory of a file; a refusal leaves the buffer as it was. Number, place, offset and
// detail of the answer are told, and the octets written.
#[unsafe(no_mangle)]
pub extern "C" fn buttresk_inventory(file: &[u8], text: &mut [u8]) -> StoreAnswer
    ensures answer { result ≡ five_of (inventory_end
        (inventory_of file.now text.old).answer) }
    ensures text { text.new
        ≡ (inventory_of file.now text.old).text }
{
    StoreAnswer::from(inventory_end(inventory(file, text)))
}
