// What a line or a closed message changes of where the walk stands, and the line of the submessage
// in hand.
ghost use Rattle.std.specs.Prelude.{◌≡◌, ◌<◌};
ghost use Rattle.order.specs.Order.{completes};
ghost use Rattle.index.specs.Lines.{opened};
ghost use Rattle.walk_numbers.specs.Moves.{unbegun, line_in_hand};
ghost use Rattle.walk_numbers.specs.Moves.{told_line, closed_both};

use framing::{Offset, Section};
use index::{Force, KEPT, Line, Listed, Span, line_of, unlisted};
use order::{Order, Place, completing};
use reading::{Reading, start};
use standing::Standing;

// Where a message stands, before its section 0 says it.
pub(crate) fn unstated() -> Span
    ensures { result ≡ (opened 0).span }
{
    Span {
        offset: Offset(0),
        total: 0,
    }
}

// Before the first section.
pub(crate) fn unbegun() -> Standing
    ensures { result ≡ unbegun }
{
    Standing {
        reading: start(),
        sections: 0,
        lines: 0,
        message: 0,
        submessage: 0,
        last: unlisted(),
    }
}

// Does this section first complete the submessage in hand, with its message going on?
pub(crate) fn completes(at: Standing, section: Section) -> bool
    ensures { result ≡ completes at.reading.order section.number }
{
    let reading = at.reading;
    let order = reading.order;
    completing(order, section.number)
}

// The line of the submessage in hand, with what stands behind it: more of its message, or the
// section 8 that closes it.
pub(crate) fn line_in_hand(
    at: Standing,
    span: Span,
    local: Option<Place>,
    places: [Place; KEPT],
    end: Option<Place>,
) -> Line
    ensures { result ≡ line_in_hand at span local places end }
{
    let force = Force {
        message: at.message,
        submessage: at.submessage,
        span,
        local,
        places,
    };
    line_of(force, end)
}

// The line of the submessage in hand is told, and its message goes on.
pub(crate) fn told_line(at: Standing) -> Standing
    requires lines_bound { at.lines < 18446744073709551615 }
    requires submessage_bound { at.submessage < 18446744073709551615 }
    ensures { result ≡ told_line at }
{
    let reading = at.reading;
    let cursor = reading.cursor;
    let last = at.last;
    Standing {
        reading: Reading {
            cursor,
            order: Order::SubmessageStart,
        },
        sections: at.sections,
        lines: at.lines + 1,
        message: at.message,
        submessage: at.submessage + 1,
        last,
    }
}

// Section 8 closes the message: a row and a line.
pub(crate) fn closed_both(at: Standing, section: Section, next: Reading) -> Standing
    requires sections_bound { at.sections < 18446744073709551615 }
    requires lines_bound { at.lines < 18446744073709551615 }
    requires message_bound { at.message < 18446744073709551615 }
    ensures { result ≡ closed_both at section next }
{
    let place = Place(at.sections);
    Standing {
        reading: next,
        sections: at.sections + 1,
        lines: at.lines + 1,
        message: at.message + 1,
        submessage: 0,
        last: Listed { place, section },
    }
}
