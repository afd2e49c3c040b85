// The loop over the lent tables.
ghost use Rattle.std.specs.Prelude.{◌≡◌};
ghost use Rattle.reading.specs.Reading.{Settled};
ghost use Rattle.walk.specs.Tables.{walk_of};
ghost use Rattle.walk.specs.Turns.{rows_after, lines_after, row_only, step_of, concluded_of};

use crate::tally::{Tally, begin, resumed, standing_of, turn};
use framing::Section;
use index::{Line, Listed, Outcome, Room};
use order::{Place, completing};
use reading::{Reading, Seen, glance};
use sections::LocalUse;
use standing::{ROW, Standing, passed_row, put_row, span_after};

// How many lines stand in each table, how many messages were closed, and how the walk ended.
#[derive(Clone, Copy)]
pub struct Answer {
    pub sections: u64,
    pub submessages: u64,
    pub messages: u64,
    pub outcome: Outcome,
}

// Stores the row of a section, if it was passed.
fn put_passed(rows: &mut [u64], passed: bool, s: Listed)
    ensures { rows.new ≡ rows_after passed s rows.old }
{
    if passed {
        let place = s.place;
        let section = s.section;
        put_row(rows, place.0, section);
    }
}

// A row is all where there is room for it, and no submessage is completed.
fn row_only(room: Room, at: Standing, seen: Seen) -> Option<(Section, Reading)>
    ensures { result ≡ row_only room at seen }
{
    match seen {
        Seen::Passes(section, next) => {
            if room.rows <= at.sections {
                return None;
            }
            let reading = at.reading;
            let order = reading.order;
            if completing(order, section.number) {
                return None;
            }
            Some((section, next))
        }
        _ => None,
    }
}

// Turns up to one that may make a line due or end the walk, with the rows of the sections that they
// passed stored; the line that is due is left to the caller. What a section changes is kept in
// variables: to hand on the tally, some forty words, at each section would make the walk more than
// three times as dear.
fn step(file: &[u8], rows: &mut [u64], lines: usize, before: Tally) -> Tally
    requires { Settled before.reading }
    ensures tally { result
        ≡ (step_of file.now lines before rows.old).tally }
    ensures table { rows.new
        ≡ (step_of file.now lines before rows.old).rows }
{
    let room = Room {
        rows: rows.len() as u64 / ROW as u64,
        lines: lines as u64,
    };
    let force = before.force;
    let mut at = standing_of(before);
    let mut span = force.span;
    let mut local = force.local;
    let mut places = force.places;
    loop {
        let seen = glance(file, at.reading);
        let only = row_only(room, at, seen);
        match only {
            Some((section, next)) => {
                put_row(rows, at.sections, section);
                let here = Place(at.sections);
                at = passed_row(at, section, next);
                // Of most sections the place is all; only those before section 2 are asked more.
                if LocalUse::NUMBER < section.number {
                    places[section.number as usize] = here;
                } else if section.number == LocalUse::NUMBER {
                    local = Some(here);
                } else {
                    span = span_after(span, section, next.cursor);
                    places[section.number as usize] = here;
                }
            }
            None => {
                let next = turn(room, resumed(at, span, local, places), seen);
                let last = next.last;
                put_passed(rows, next.passed, last);
                return next;
            }
        }
    }
}

// The answer of a walk that has ended so.
fn conclude(t: Tally, outcome: Outcome) -> Answer
    ensures { result ≡ concluded_of t outcome }
{
    let force = t.force;
    Answer {
        sections: t.sections,
        submessages: t.lines,
        messages: force.message,
        outcome,
    }
}

// Stores a line, if one is due.
fn put_line(lines: &mut [Line], due: Option<(usize, Line)>)
    ensures { lines.new ≡ lines_after due lines.old }
{
    if let Some((slot, line)) = due {
        if slot < lines.len() {
            lines[slot] = line;
        }
    }
}

// Walks a file: the answer, and in both tables what was told, then what was there before. The
// section table is lent as numbers, three to a row; one or two left over are no room. Lines that
// were stored before a refusal stand, and room beyond the counts is untouched.
pub fn walk(file: &[u8], rows: &mut [u64], lines: &mut [Line]) -> Answer
    ensures answer { result
        ≡ (walk_of file.now rows.old lines.old).answer }
    ensures rows { rows.new
        ≡ (walk_of file.now rows.old lines.old).rows }
    ensures lines { lines.new
        ≡ (walk_of file.now rows.old lines.old).lines }
{
    let room = lines.len();
    let mut t = begin(file);
    loop {
        match t.ended {
            Some(outcome) => return conclude(t, outcome),
            None => {
                t = step(file, &mut *rows, room, t);
                put_line(&mut *lines, t.due);
            }
        }
    }
}
