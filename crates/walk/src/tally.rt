// A turn of the walk, by value: what is reached, and what is due for the lent tables.
ghost use Rattle.std.specs.Prelude.{◌≡◌, length};
ghost use Rattle.standing.specs.Standing.{IsOctets};
ghost use Rattle.walk.specs.Turns.{unstarted, begun_of, ended_of, refused_of};
ghost use Rattle.walk.specs.Turns.{standing_of, resumed_of, told_of, passed_of, fitted_of};
ghost use Rattle.walk.specs.Turns.{taken_of, closed_of, misplaced_of, by_seen};

use framing::{Offset, Section};
use index::{
    Force, KEPT, Line, Listed, MOST_OCTETS, Outcome, Refusal, Refused, Room, Span, in_force,
    line_of, opened, unlisted, with_span, with_submessage,
};
use order::{Place, completing};
use reading::{Reading, Seen, start};
use standing::{Standing, one_more, span_after};

#[derive(Clone, Copy)]
pub(crate) struct Tally {
    // Where the next section is looked for.
    pub reading: Reading,
    // So many sections and lines are told, and what is in force.
    pub sections: u64,
    pub lines: u64,
    pub force: Force,
    // The section passed last, which a refusal may name turns later, and whether this turn passed
    // it: its row is due. That is a flag, for an Option of the row would hold the section twice.
    pub last: Listed,
    pub passed: bool,
    // The line that is due, behind its place in the table.
    pub due: Option<(usize, Line)>,
    // How the walk ended; none while it goes on.
    pub ended: Option<Outcome>,
}

// Before the first section.
fn unstarted() -> Tally
    ensures { result ≡ unstarted }
{
    Tally {
        reading: start(),
        sections: 0,
        lines: 0,
        force: opened(0),
        last: unlisted(),
        passed: false,
        due: None,
        ended: None,
    }
}

// The walk ends.
fn ended(mut t: Tally, outcome: Outcome) -> Tally
    ensures { result ≡ ended_of t outcome }
{
    t.ended = Some(outcome);
    t
}

// .. with a refusal of the section in hand.
fn refused(t: Tally, why: Refusal, section: Section) -> Tally
    ensures { result ≡ refused_of t why section }
{
    let offset = section.offset;
    ended(
        t,
        Err(Refused {
            why,
            place: Place(t.sections),
            offset,
        }),
    )
}

// Before the first turn: a file over 2^40 octets is refused. That it is octets is said for the loop,
// which keeps it.
pub(crate) fn begin(file: &[u8]) -> Tally
    ensures tally { result ≡ begun_of (length file.now) }
    ensures octets { IsOctets file.now }
{
    if MOST_OCTETS < file.len() as u64 {
        return ended(
            unstarted(),
            Err(Refused {
                why: Refusal::FileTooLong,
                place: Place(0),
                offset: Offset(0),
            }),
        );
    }
    unstarted()
}

// Where a walk stands.
pub(crate) fn standing_of(t: Tally) -> Standing
    ensures { result ≡ standing_of t }
{
    let reading = t.reading;
    let force = t.force;
    let last = t.last;
    Standing {
        reading,
        sections: t.sections,
        lines: t.lines,
        message: force.message,
        submessage: force.submessage,
        last,
    }
}

// A turn begins where a walk stands that goes on, with this in force: nothing is due yet.
pub(crate) fn resumed(
    at: Standing,
    span: Span,
    local: Option<Place>,
    places: [Place; KEPT],
) -> Tally
    ensures { result ≡ resumed_of at span local places }
{
    let reading = at.reading;
    let last = at.last;
    Tally {
        reading,
        sections: at.sections,
        lines: at.lines,
        force: Force {
            message: at.message,
            submessage: at.submessage,
            span,
            local,
            places,
        },
        last,
        passed: false,
        due: None,
        ended: None,
    }
}

// The submessage in hand is complete, and its message goes on: its line is due.
fn told(mut t: Tally) -> Tally
    ensures { result ≡ told_of t }
{
    let force = t.force;
    t.force = with_submessage(force, one_more(force.submessage));
    t.due = Some((t.lines as usize, line_of(force, None)));
    t.lines = one_more(t.lines);
    t
}

// A section is passed.
fn passed(mut t: Tally, section: Section, next: Reading) -> Tally
    ensures { result ≡ passed_of t section next }
{
    let place = Place(t.sections);
    let force = t.force;
    let last = Listed { place, section };
    let span = span_after(force.span, section, next.cursor);
    t.reading = next;
    t.sections = one_more(t.sections);
    t.force = with_span(in_force(force, section.number, place), span);
    t.last = last;
    t.passed = true;
    t
}

// It fits: 13.
fn fitted(room: Room, t: Tally, section: Section, next: Reading) -> Tally
    ensures { result ≡ fitted_of room t section next }
{
    if room.rows <= t.sections {
        return refused(t, Refusal::SectionTableFull, section);
    }
    passed(t, section, next)
}

// It first completes a submessage that goes on (14), or does not.
fn taken(room: Room, t: Tally, section: Section, next: Reading) -> Tally
    ensures { result ≡ taken_of room t section next }
{
    let reading = t.reading;
    let order = reading.order;
    if completing(order, section.number) {
        if room.lines <= t.lines {
            return refused(t, Refusal::SubmessageTableFull, section);
        }
        return fitted(room, told(t), section, next);
    }
    fitted(room, t, section, next)
}

// It closes the message: 13, then 14, both lines or neither.
fn closed(room: Room, t: Tally, end: Section, next: Reading) -> Tally
    ensures { result ≡ closed_of room t end next }
{
    if room.rows <= t.sections {
        return refused(t, Refusal::SectionTableFull, end);
    }
    if room.lines <= t.lines {
        return refused(t, Refusal::SubmessageTableFull, end);
    }
    let place = Place(t.sections);
    let force = t.force;
    Tally {
        reading: next,
        sections: one_more(t.sections),
        lines: one_more(t.lines),
        force: opened(one_more(force.message)),
        last: Listed {
            place,
            section: end,
        },
        passed: true,
        due: Some((t.lines as usize, line_of(force, Some(place)))),
        ended: None,
    }
}

// It can't come next: 11, behind the submessage that it completes.
fn misplaced(room: Room, t: Tally, stray: Section) -> Tally
    ensures { result ≡ misplaced_of room t stray }
{
    let reading = t.reading;
    let order = reading.order;
    if completing(order, stray.number) {
        if room.lines <= t.lines {
            return refused(t, Refusal::SubmessageTableFull, stray);
        }
        return refused(told(t), Refusal::Misplaced(stray.number), stray);
    }
    refused(t, Refusal::Misplaced(stray.number), stray)
}

// One turn, by what is seen, with room for so many rows and lines.
pub(crate) fn turn(room: Room, t: Tally, seen: Seen) -> Tally
    ensures { result ≡ by_seen seen room t }
{
    match seen {
        Seen::Passes(section, next) => taken(room, t, section, next),
        Seen::Closes(section, next) => closed(room, t, section, next),
        Seen::Misplaced(section) => misplaced(room, t, section),
        Seen::NoGrid(section) => refused(t, Refusal::NoGrid(section.number), section),
        Seen::Clean => ended(t, Ok(())),
        Seen::InputOver => {
            let last = t.last;
            let section = last.section;
            let place = last.place;
            let offset = section.offset;
            ended(
                t,
                Err(Refused {
                    why: Refusal::InputOver,
                    place,
                    offset,
                }),
            )
        }
        Seen::Unreadable(fault, offset) => ended(
            t,
            Err(Refused {
                why: Refusal::Unreadable(fault),
                place: Place(t.sections),
                offset,
            }),
        ),
    }
}
