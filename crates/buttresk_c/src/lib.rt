// The C face as an archive: include/buttresk.h declares these functions, and each of them is the
// function of `buttresk` of its name. A library serves other crates or C, not both, so that they
// stand in a crate of their own, with the clauses that they have there.
#![tactic(auto)]

ghost use Rattle.std.specs.Prelude.{◌≡◌};
ghost use Rattle.walk_numbers.specs.Numbers.{walk_numbers};
ghost use Rattle.publish.specs.Values.{licensed};
ghost use Rattle.publish.specs.Copy.{copy_of};
ghost use Rattle.publish.specs.End.{copy_end};
ghost use Rattle.writer.specs.Write.{write_of};
ghost use Rattle.writer.specs.End.{write_end};
ghost use Rattle.inventory.specs.Inventory.{inventory_of};
ghost use Rattle.inventory.specs.End.{inventory_end};
ghost use Rattle.buttresk.specs.Stores.{five_of};
ghost use Rattle.lists.specs.Lists.{read_of};
ghost use Rattle.buttresk.specs.Lists.{read_answer_of};
ghost use Rattle.sections.specs.Indicator.{indicator_of};
ghost use Rattle.sections.specs.Identification.{identification_of};
ghost use Rattle.sections.specs.GridDefinition.{grid_definition_of};
ghost use Rattle.sections.specs.ReprDefinition.{repr_definition_of};
ghost use Rattle.sections.specs.BitMap.{bit_map_of};
ghost use Rattle.buttresk.specs.Fields.{bit_map_fields, grid_fields, identification_fields, indicator_fields, representation_fields};
ghost use Rattle.buttresk.specs.Product.{product_fields, when_where_fields};

use buttresk::{
    BitMapFields, GridFields, IdentificationFields, IndicatorFields, ProductFields, ReadAnswer,
    RepresentationFields, StoreAnswer, WhenWhereFields,
};
use walk_numbers::WalkAnswer;

// Walks a file. The tables are lent as numbers, three to a section's row and fifteen to a line; what
// is left over is no room. Lines that were stored before a refusal stand, and room beyond the
// counts is untouched.
#[unsafe(no_mangle)]
pub extern "C" fn buttresk_walk(file: &[u8], rows: &mut [u64], lines: &mut [u64]) -> WalkAnswer
    ensures answer { result
        ≡ (walk_numbers file.now rows.old lines.old).answer }
    ensures rows { rows.new
        ≡ (walk_numbers file.now rows.old lines.old).rows }
    ensures lines { lines.new
        ≡ (walk_numbers file.now rows.old lines.old).lines }
{
    buttresk::buttresk_walk(file, rows, lines)
}

// Writes the public copy of a file; a refusal leaves the destination as it was. Number, place,
// offset and detail of the answer are told, and the octets written.
#[unsafe(no_mangle)]
pub extern "C" fn buttresk_publish(file: &[u8], dest: &mut [u8]) -> StoreAnswer
    ensures answer { result ≡ five_of (copy_end
        (copy_of licensed file.now dest.old).answer) }
    ensures dest { dest.new
        ≡ (copy_of licensed file.now dest.old).dest }
{
    buttresk::buttresk_publish(file, dest)
}

// Writes the message of a plan, lent as rows of three numbers; a refusal leaves the destination as
// it was. Number, place, offset and detail of the answer are told, and the octets written.
#[unsafe(no_mangle)]
pub extern "C" fn buttresk_write(
    discipline: u8,
    reserved_1: u8,
    reserved_2: u8,
    plan: &[u64],
    store: &[u8],
    dest: &mut [u8],
) -> StoreAnswer
    ensures answer { result ≡ five_of (write_end (write_of discipline reserved_1 reserved_2
        plan.now store.now dest.old).answer) }
    ensures dest { dest.new ≡ (write_of discipline reserved_1 reserved_2
        plan.now store.now dest.old).dest }
{
    buttresk::buttresk_write(discipline, reserved_1, reserved_2, plan, store, dest)
}

// Writes the inventory of a file; a refusal leaves the buffer as it was. Number, place, offset and
// detail of the answer are told, and the octets written.
#[unsafe(no_mangle)]
pub extern "C" fn buttresk_inventory(file: &[u8], text: &mut [u8]) -> StoreAnswer
    ensures answer { result ≡ five_of (inventory_end
        (inventory_of file.now text.old).answer) }
    ensures text { text.new
        ≡ (inventory_of file.now text.old).text }
{
    buttresk::buttresk_inventory(file, text)
}

// Reads a list. The table is lent as numbers, thirteen to an entry; what is left over is no room.
// Entries that were stored before a refusal stand, and room beyond their count is untouched.
#[unsafe(no_mangle)]
pub extern "C" fn buttresk_read_list(text: &[u8], entries: &mut [u64]) -> ReadAnswer
    ensures answer { result
        ≡ read_answer_of (read_of text.now entries.old).answer }
    ensures entries { entries.new
        ≡ (read_of text.now entries.old).table }
{
    buttresk::buttresk_read_list(text, entries)
}

// Section 0's fields with `known` 1, or `known` 0: of the section's own octets.
#[unsafe(no_mangle)]
pub extern "C" fn buttresk_indicator(section: &[u8]) -> IndicatorFields
    ensures { result ≡ indicator_fields (indicator_of section.now) }
{
    buttresk::buttresk_indicator(section)
}

// Section 1's fields with `known` 1, or `known` 0: of its payload.
#[unsafe(no_mangle)]
pub extern "C" fn buttresk_identification(payload: &[u8]) -> IdentificationFields
    ensures { result ≡ identification_fields (identification_of payload.now) }
{
    buttresk::buttresk_identification(payload)
}

// Section 3's fields with `known` 1, or `known` 0: of its payload.
#[unsafe(no_mangle)]
pub extern "C" fn buttresk_grid_definition(payload: &[u8]) -> GridFields
    ensures { result ≡ grid_fields (grid_definition_of payload.now) }
{
    buttresk::buttresk_grid_definition(payload)
}

// Section 5's fields with `known` 1, or `known` 0: of its payload.
#[unsafe(no_mangle)]
pub extern "C" fn buttresk_representation(payload: &[u8]) -> RepresentationFields
    ensures { result ≡ representation_fields (repr_definition_of payload.now) }
{
    buttresk::buttresk_representation(payload)
}

// Section 6's field with `known` 1, or `known` 0: of its payload.
#[unsafe(no_mangle)]
pub extern "C" fn buttresk_bit_map(payload: &[u8]) -> BitMapFields
    ensures { result ≡ bit_map_fields (bit_map_of payload.now) }
{
    buttresk::buttresk_bit_map(payload)
}

// Section 4's fields with `known` 1, or `known` 0: of its payload, by a reading. Each product field
// has its own. By a number that names no reading every `known` is 0. The number has 64 bits, so
// that a wider one of the caller's is never cut down to one that names a reading.
#[unsafe(no_mangle)]
pub extern "C" fn buttresk_product_definition(reading: u64, payload: &[u8]) -> ProductFields
    ensures { result ≡ product_fields reading payload.now }
{
    buttresk::buttresk_product_definition(reading, payload)
}

// When and where a payload of section 4 says that its field is, by a reading: the time and the
// surfaces, each with its own `known`, as `buttresk_product_definition` has them. By a number that
// names no reading both are 0.
#[unsafe(no_mangle)]
pub extern "C" fn buttresk_when_and_where(reading: u64, payload: &[u8]) -> WhenWhereFields
    ensures { result ≡ when_where_fields reading payload.now }
{
    buttresk::buttresk_when_and_where(reading, payload)
}
