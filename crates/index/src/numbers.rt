// Document 01's numbers (its table "Refusal numbers"): the number and the detail of each refusal,
// the four numbers of a walk's end, and the five of a call that stores octets.
ghost use Rattle.std.specs.Prelude.{◌≡◌};
ghost use Rattle.index.specs.Numbers.{
  fault_number,
  fault_detail,
  refusal_number,
  refusal_detail,
  end_of,
  stored,
  unplaced,
};

use crate::refusal::{Outcome, Refusal, Refused};
use framing::Fault;

// How a walk ended, in numbers.
#[derive(Clone, Copy)]
pub struct End {
    pub outcome: u64,
    pub place: u64,
    pub offset: u64,
    pub detail: u64,
}

// How a call of the public copy or of the writer ended, and the octets written.
#[derive(Clone, Copy)]
pub struct StoreEnd {
    pub end: End,
    pub written: u64,
}

// The number of a section that can't be read: 2 to 9.
fn fault_number(fault: Fault) -> u64
    ensures { result ≡ fault_number fault }
{
    match fault {
        Fault::Cut(_) => 2,
        Fault::OtherEdition(_) => 3,
        Fault::TotalUnder16 => 4,
        Fault::NotEndMark => 5,
        Fault::LengthUnder5(_) => 6,
        Fault::UnknownNumber(_) => 7,
        Fault::PayloadUnderLeast(_) => 8,
        Fault::LongerThanRest(_) => 9,
    }
}

fn fault_detail(fault: Fault) -> u64
    ensures { result ≡ fault_detail fault }
{
    match fault {
        Fault::Cut(missing) => missing as u64,
        Fault::OtherEdition(edition) => edition,
        Fault::TotalUnder16 => 0,
        Fault::NotEndMark => 0,
        Fault::LengthUnder5(length) => length,
        Fault::UnknownNumber(number) => number,
        Fault::PayloadUnderLeast(size) => size,
        Fault::LongerThanRest(length) => length,
    }
}

// The number of a refusal: 1 to 14.
fn refusal_number(why: Refusal) -> u64
    ensures { result ≡ refusal_number why }
{
    match why {
        Refusal::FileTooLong => 1,
        Refusal::Unreadable(fault) => fault_number(fault),
        Refusal::InputOver => 10,
        Refusal::Misplaced(_) => 11,
        Refusal::NoGrid(_) => 12,
        Refusal::SectionTableFull => 13,
        Refusal::SubmessageTableFull => 14,
    }
}

fn refusal_detail(why: Refusal) -> u64
    ensures { result ≡ refusal_detail why }
{
    match why {
        Refusal::FileTooLong => 0,
        Refusal::Unreadable(fault) => fault_detail(fault),
        Refusal::InputOver => 0,
        Refusal::Misplaced(number) => number,
        Refusal::NoGrid(number) => number,
        Refusal::SectionTableFull => 0,
        Refusal::SubmessageTableFull => 0,
    }
}

// Outcome, place, offset and detail, by document 01's numbers; zeros at a clean end.
pub fn end_of(outcome: Outcome) -> End
    ensures { result ≡ end_of outcome }
{
    match outcome {
        Ok(()) => End {
            outcome: 0,
            place: 0,
            offset: 0,
            detail: 0,
        },
        Err(Refused { why, place, offset }) => End {
            outcome: refusal_number(why),
            place: place.0,
            offset: offset.0,
            detail: refusal_detail(why),
        },
    }
}

// All is written: zeros, and so many octets.
pub fn stored(octets: u64) -> StoreEnd
    ensures { result ≡ stored octets }
{
    StoreEnd {
        end: end_of(Ok(())),
        written: octets,
    }
}

// The number and detail of a refusal that has no place in a file, 1 and 15 to 20; nothing is
// written.
pub fn unplaced(outcome: u64, detail: u64) -> StoreEnd
    ensures { result ≡ unplaced outcome detail }
{
    StoreEnd {
        end: End {
            outcome,
            place: 0,
            offset: 0,
            detail,
        },
        written: 0,
    }
}
