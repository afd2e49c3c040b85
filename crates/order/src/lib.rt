// Which section may come next (document 01, "Order"; the crate's parser.rs, the validator). It
// knows section numbers only, no file.
#![tactic(auto)]

ghost use Rattle.std.specs.Prelude.{◌≡◌};
ghost use Rattle.order.specs.Order.{only, after_identification, at_submessage_start, judged};
ghost use Rattle.order.specs.Order.{judged_read, completes, is_between, order_of};

use sections::{
    BitMap, DataSection, EndSection, GridDefinition, Identification, Indicator, LocalUse,
    ProdDefinition, ReprDefinition,
};

// A section's place in the list of sections, counted from 0 over the whole file. Its octet offset
// is another quantity.
#[derive(Clone, Copy)]
pub struct Place(pub u64);

// What was read last.
#[derive(Clone, Copy)]
pub enum Order {
    BetweenMessages,
    AfterIndicator,
    AfterIdentification,
    AfterLocalUse,
    AfterGrid,
    AfterProduct,
    AfterRepresentation,
    AfterBitMap,
    AfterData,
    // A submessage is complete, and its message goes on.
    SubmessageStart,
}

// What a section is, by its number.
#[derive(Clone, Copy)]
pub enum Judged {
    // It may come next, and is then what was read last.
    Fits(Order),
    // It is the section 8 that closes the message.
    Closes,
    // It can't come next: refusal 11.
    Misplaced,
    // It is a section 4 with no grid definition in force: refusal 12.
    NoGrid,
}

// Why a whole list of numbers is out of order.
#[derive(Clone, Copy)]
pub enum Disorder {
    // The list ends inside a message: refusal 10.
    InputOver,
    // The first number that can't come next stands at this place: refusal 11 or 12.
    Misplaced(Place),
    NoGrid(Place),
}

fn only(number: u64, wanted: u64, then: Order) -> Judged
    ensures { result ≡ only number wanted then }
{
    if number == wanted {
        return Judged::Fits(then);
    }
    Judged::Misplaced
}

fn after_identification(number: u64) -> Judged
    ensures { result ≡ after_identification number }
{
    match number {
        LocalUse::NUMBER => Judged::Fits(Order::AfterLocalUse),
        GridDefinition::NUMBER => Judged::Fits(Order::AfterGrid),
        ProdDefinition::NUMBER => Judged::NoGrid,
        _ => Judged::Misplaced,
    }
}

fn at_submessage_start(number: u64) -> Judged
    ensures { result ≡ at_submessage_start number }
{
    match number {
        LocalUse::NUMBER => Judged::Fits(Order::AfterLocalUse),
        GridDefinition::NUMBER => Judged::Fits(Order::AfterGrid),
        ProdDefinition::NUMBER => Judged::Fits(Order::AfterProduct),
        _ => Judged::Misplaced,
    }
}

fn after_data(number: u64) -> Judged
    ensures { result ≡ judged Order.AfterData number }
{
    if number == EndSection::NUMBER {
        return Judged::Closes;
    }
    at_submessage_start(number)
}

// What a section of this number is that was read from a file, after what was read last. Where a
// message starts nothing but a section 0 can be read, so nothing is asked.
pub fn judge_read(order: Order, number: u64) -> Judged
    ensures { result ≡ judged_read order number }
{
    if between_messages(order) {
        return Judged::Fits(Order::AfterIndicator);
    }
    match order {
        Order::AfterIndicator => only(number, Identification::NUMBER, Order::AfterIdentification),
        Order::AfterIdentification => after_identification(number),
        Order::AfterLocalUse => only(number, GridDefinition::NUMBER, Order::AfterGrid),
        Order::AfterGrid => only(number, ProdDefinition::NUMBER, Order::AfterProduct),
        Order::AfterProduct => only(number, ReprDefinition::NUMBER, Order::AfterRepresentation),
        Order::AfterRepresentation => only(number, BitMap::NUMBER, Order::AfterBitMap),
        Order::AfterBitMap => only(number, DataSection::NUMBER, Order::AfterData),
        Order::AfterData => after_data(number),
        _ => at_submessage_start(number),
    }
}

// What a number of a bare list is, after what was read last: it fits, closes, is misplaced (11) or
// has no grid (12). Any number can stand where a message starts, and there only 0 fits.
pub fn judge(order: Order, number: u64) -> Judged
    ensures { result ≡ judged order number }
{
    if between_messages(order) {
        return only(number, Indicator::NUMBER, Order::AfterIndicator);
    }
    judge_read(order, number)
}

// Does a well-read section first complete the submessage before it, whose message goes on?
pub fn completing(order: Order, number: u64) -> bool
    ensures { result ≡ completes order number }
{
    match order {
        Order::AfterData => number != EndSection::NUMBER,
        _ => false,
    }
}

// Is no message open?
pub fn between_messages(order: Order) -> bool
    ensures { result ≡ is_between order }
{
    matches!(order, Order::BetweenMessages)
}

// A whole list of numbers: the first that can't come next, else whether the list ends between
// messages.
pub fn judge_all(numbers: &[u64]) -> Result<(), Disorder>
    ensures { result ≡ order_of numbers.now }
{
    let mut order = Order::BetweenMessages;
    for (i, number) in numbers.iter().enumerate() {
        let judged = judge(order, *number);
        match judged {
            Judged::Fits(next) => order = next,
            Judged::Closes => order = Order::BetweenMessages,
            Judged::Misplaced => return Err(Disorder::Misplaced(Place(i as u64))),
            Judged::NoGrid => return Err(Disorder::NoGrid(Place(i as u64))),
        }
    }
    if between_messages(order) {
        return Ok(());
    }
    Err(Disorder::InputOver)
}
