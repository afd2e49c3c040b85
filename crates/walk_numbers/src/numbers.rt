// The walk of a file, with both tables lent as numbers.
ghost use Rattle.std.specs.Prelude.{◌≡◌, ◌/◌, ◌≤◌, length};
ghost use Rattle.standing.specs.Tables.{room_of};
ghost use Rattle.walk_numbers.specs.Numbers.{walk_numbers};
ghost use Rattle.walk_numbers.specs.Moves.{ended_at, refused_here, over_at, unreadable_at};
ghost use Rattle.walk_numbers.specs.Moves.{long_answer, misplaced_answer, misplaced_lines};

use crate::columns::{LINE, put_line};
use crate::moves::{closed_both, completes, line_in_hand, told_line, unbegun, unstated};
use framing::{Fault, Offset, Section};
use index::{KEPT, Line, MOST_OCTETS, Outcome, Refusal, Refused, Room, end_of};
use order::Place;
use reading::{Seen, glance};
use sections::LocalUse;
use standing::{ROW, Standing, passed_row, put_row, span_after};

// How many lines stand in each table, how many messages were closed, and how the walk ended.
#[repr(C)]
#[derive(Clone, Copy)]
pub struct WalkAnswer {
    pub sections: u64,
    pub submessages: u64,
    pub messages: u64,
    pub outcome: u64,
    pub place: u64,
    pub offset: u64,
    pub detail: u64,
}

// Room for so many rows and lines; numbers left over are no room.
fn room_in(rows: usize, lines: usize) -> Room
    ensures { result ≡ room_of rows (lines / 15) }
{
    Room {
        rows: (rows / ROW) as u64,
        lines: (lines / LINE) as u64,
    }
}

// The answer of a walk that ends here, in document 01's numbers.
fn ended(at: Standing, outcome: Outcome) -> WalkAnswer
    ensures { result ≡ ended_at at outcome }
{
    let end = end_of(outcome);
    WalkAnswer {
        sections: at.sections,
        submessages: at.lines,
        messages: at.message,
        outcome: end.outcome,
        place: end.place,
        offset: end.offset,
        detail: end.detail,
    }
}

// .. at the section in hand, which is refused.
fn refused(at: Standing, why: Refusal, section: Section) -> WalkAnswer
    ensures { result ≡ refused_here at why section }
{
    let place = Place(at.sections);
    let offset = section.offset;
    ended(at, Err(Refused { why, place, offset }))
}

// 11, at a stray section, behind the line of the submessage that it completes: 14 goes before.
fn misplaced(lines: &mut [u64], at: Standing, line: Line, stray: Section) -> WalkAnswer
    requires { at.submessage ≤ at.lines }
    ensures answer { result ≡ misplaced_answer (length lines.old / 15) at stray }
    ensures lines { lines.new ≡ misplaced_lines at line stray lines.old }
{
    let why = Refusal::Misplaced(stray.number);
    if completes(at, stray) {
        let room = (lines.len() / LINE) as u64;
        if room <= at.lines {
            return refused(at, Refusal::SubmessageTableFull, stray);
        }
        put_line(lines, at.lines, line);
        return refused(told_line(at), why, stray);
    }
    refused(at, why, stray)
}

// 10, at the section passed last.
fn input_over(at: Standing) -> WalkAnswer
    ensures { result ≡ over_at at }
{
    let why = Refusal::InputOver;
    let last = at.last;
    let place = last.place;
    let section = last.section;
    let offset = section.offset;
    ended(at, Err(Refused { why, place, offset }))
}

// 2 to 9.
fn unreadable(at: Standing, fault: Fault, offset: Offset) -> WalkAnswer
    ensures { result ≡ unreadable_at at fault offset }
{
    let why = Refusal::Unreadable(fault);
    let place = Place(at.sections);
    ended(at, Err(Refused { why, place, offset }))
}

// 1.
fn too_long() -> WalkAnswer
    ensures { result ≡ long_answer }
{
    ended(
        unbegun(),
        Err(Refused {
            why: Refusal::FileTooLong,
            place: Place(0),
            offset: Offset(0),
        }),
    )
}

// Walks a file: the counts and the end of the walk in numbers, and in both tables the rows and the
// lines that it tells, then what was there before. The tables are lent as numbers, three to a
// section's row and fifteen to a line; what is left over is no room. Lines that were stored before
// a refusal stand, and room beyond the counts is untouched.
pub fn walk_numbers(file: &[u8], rows: &mut [u64], lines: &mut [u64]) -> WalkAnswer
    ensures answer { result
        ≡ (walk_numbers file.now rows.old lines.old).answer }
    ensures rows { rows.new
        ≡ (walk_numbers file.now rows.old lines.old).rows }
    ensures lines { lines.new
        ≡ (walk_numbers file.now rows.old lines.old).lines }
{
    if MOST_OCTETS < file.len() as u64 {
        return too_long();
    }
    let room = room_in(rows.len(), lines.len());
    let mut at = unbegun();
    let mut span = unstated();
    let mut local = None;
    let mut places = [Place(0); KEPT];
    loop {
        let seen = glance(file, at.reading);
        match seen {
            Seen::Passes(section, next) => {
                if completes(at, section) {
                    if room.lines <= at.lines {
                        return refused(at, Refusal::SubmessageTableFull, section);
                    }
                    put_line(lines, at.lines, line_in_hand(at, span, local, places, None));
                    at = told_line(at);
                }
                if room.rows <= at.sections {
                    return refused(at, Refusal::SectionTableFull, section);
                }
                put_row(rows, at.sections, section);
                let here = Place(at.sections);
                at = passed_row(at, section, next);
                // Of most sections the place is all; only those before section 2 are asked more.
                if LocalUse::NUMBER < section.number {
                    places[section.number as usize] = here;
                } else if section.number == LocalUse::NUMBER {
                    local = Some(here);
                } else {
                    span = span_after(span, section, next.cursor);
                    places[section.number as usize] = here;
                }
            }
            Seen::Closes(end, next) => {
                if room.rows <= at.sections {
                    return refused(at, Refusal::SectionTableFull, end);
                }
                if room.lines <= at.lines {
                    return refused(at, Refusal::SubmessageTableFull, end);
                }
                put_row(rows, at.sections, end);
                let here = Some(Place(at.sections));
                put_line(lines, at.lines, line_in_hand(at, span, local, places, here));
                at = closed_both(at, end, next);
                span = unstated();
                local = None;
                places = [Place(0); KEPT];
            }
            Seen::Misplaced(section) => {
                let line = line_in_hand(at, span, local, places, None);
                return misplaced(lines, at, line, section);
            }
            Seen::NoGrid(section) => {
                return refused(at, Refusal::NoGrid(section.number), section);
            }
            Seen::Clean => return ended(at, Ok(())),
            Seen::InputOver => return input_over(at),
            Seen::Unreadable(fault, offset) => return unreadable(at, fault, offset),
        }
    }
}
