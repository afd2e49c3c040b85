// What the loop makes of what is seen: the line that is then due, or the end.
ghost use Rattle.std.specs.Prelude.{◌≡◌};
ghost use Rattle.inventory.specs.Turn.{stray_at, stopped_by};

use framing::Section;
use index::{Listed, Outcome, Refusal, Refused};
use order::Place;
use reading::Seen;

// The line that a section makes due, by completing a submessage.
#[derive(Clone, Copy)]
pub(crate) enum Due {
    NoLine,
    // The message goes on.
    Line,
    // The section closes the message.
    LastLine,
}

fn refused(section: Section, place: u64) -> Outcome
    ensures { result ≡ stray_at section place }
{
    let offset = section.offset;
    Err(Refused {
        why: Refusal::Misplaced(section.number),
        place: Place(place),
        offset,
    })
}

// How a walk ends at what is seen, after so many sections and the last of them. A section that it
// ends at is refused; no walk ends at one that passes or closes.
pub(crate) fn stopped(seen: Seen, place: u64, last: Listed) -> Outcome
    ensures { result ≡ stopped_by seen place last }
{
    match seen {
        Seen::Passes(section, _) => refused(section, place),
        Seen::Closes(section, _) => refused(section, place),
        Seen::Misplaced(section) => refused(section, place),
        Seen::NoGrid(section) => {
            let offset = section.offset;
            Err(Refused {
                why: Refusal::NoGrid(section.number),
                place: Place(place),
                offset,
            })
        }
        Seen::Clean => Ok(()),
        Seen::InputOver => {
            let at = last.place;
            let section = last.section;
            let offset = section.offset;
            Err(Refused {
                why: Refusal::InputOver,
                place: at,
                offset,
            })
        }
        Seen::Unreadable(fault, offset) => Err(Refused {
            why: Refusal::Unreadable(fault),
            place: Place(place),
            offset,
        }),
    }
}
