// The public copy of a file (document 01, "Values octets and the public copy"): the file with every
// values octet and every octet outside a message set to zero, in a second lent buffer, and only if
// the whole file walks clean. Values octets are never read.
#![tactic(auto)]

ghost use Rattle.std.specs.Prelude.{◌≡◌, ◌++◌, true, false, ℕ, ◌≤◌, ◌<◌, leb, length, drop};
ghost use Rattle.std.specs.Prelude.{Ok, Err};
ghost use Rattle.index.specs.Bounds.{most_octets, unlimited};
ghost use Rattle.index.specs.Outcome.{refused_there};
ghost use Rattle.index.specs.Walk.{at_start, walked};
ghost use Rattle.publish.specs.Values.{licensed, in_stretch};
ghost use Rattle.publish.specs.Copy.{public_copy, copy_of};
ghost use Rattle.publish.specs.End.{copy_end};
ghost use Rattle.publish.specs.Runs.{WroteRun, zeros, file_octet, ToWrite, WroteSection};
ghost use Rattle.publish.specs.Passed.{passed_by};
ghost use Rattle.reading.specs.Reading.{seen};

use framing::{Offset, Section};
use index::{
    Listed, MOST_OCTETS, Outcome, Refusal, Refused, StoreEnd, end_of, stored, unlisted, unplaced,
};
use order::Place;
use reading::{Reading, Seen, look, start};
use sections::values_of;

// Why there is no copy.
#[derive(Clone, Copy)]
pub enum CopyRefusal {
    // 1: the file is over 2^40 octets.
    FileTooLong,
    // 19: the destination is shorter than the file.
    DestinationTooShort,
    // The walk's own refusal, with its place and offset.
    Walk(Refused),
}

// The section just read is refused.
fn refused(why: Refusal, place: u64, section: Section) -> Outcome
    ensures { result ≡ Err (refused_there why (record { 0 = place }) section.offset) }
{
    let offset = section.offset;
    Err(Refused {
        why,
        place: Place(place),
        offset,
    })
}

// How the walk of a file ends, with no table.
fn outcome_of(file: &[u8]) -> Outcome
    requires { length file.now ≤ most_octets }
    ensures { result ≡ (walked unlimited file.now).outcome }
{
    let mut reading = start();
    let mut place: u64 = 0;
    let mut last = unlisted();
    loop {
        let seen = look(file, reading);
        match seen {
            Seen::Passes(section, next) => {
                last = Listed {
                    place: Place(place),
                    section,
                };
                place += 1;
                reading = next;
            }
            Seen::Closes(section, next) => {
                last = Listed {
                    place: Place(place),
                    section,
                };
                place += 1;
                reading = next;
            }
            Seen::Misplaced(section) => return refused(
                Refusal::Misplaced(section.number),
                place,
                section,
            ),
            Seen::NoGrid(section) => return refused(
                Refusal::NoGrid(section.number),
                place,
                section,
            ),
            Seen::Clean => return Ok(()),
            Seen::InputOver => {
                let at = last.place;
                let section = last.section;
                return refused(Refusal::InputOver, at.0, section);
            }
            Seen::Unreadable(fault, offset) => return Err(Refused {
                why: Refusal::Unreadable(fault),
                place: Place(place),
                offset,
            }),
        }
    }
}

// Sets octets to zero, from one index up to another.
fn blank(dest: &mut [u8], from: usize, to: usize)
    requires { (from ≤ to) × (to ≤ length dest.old) }
    ensures { WroteRun zeros from to dest.old dest.new }
{
    for i in from..to {
        dest[i] = 0;
    }
}

// Copies octets, from one index up to another.
fn keep(file: &[u8], dest: &mut [u8], from: usize, to: usize)
    requires { (from ≤ to) × (to ≤ length file.now) × (to ≤ length dest.old) }
    ensures { WroteRun (file_octet file.now) from to dest.old
        dest.new }
{
    for i in from..to {
        dest[i] = file[i];
    }
}

// Where the values of a section of so many octets begin, counted from 0 in the section: at its end,
// where it has none.
fn first_value(number: u64, octets: usize) -> usize
    ensures within { result ≤ octets }
    ensures from { (i : ℕ) → i < octets → in_stretch (licensed number) i ≡ leb result i }
{
    let values = values_of(number);
    match values {
        Some(first) => {
            if first <= octets {
                return first - 1;
            }
            octets
        }
        None => octets,
    }
}

// Writes the copy of a section, and zeros for the octets before it that belong to no message.
fn put_section(file: &[u8], dest: &mut [u8], done: usize, s: Section)
    requires { ToWrite done s (length file.now) (length dest.old) }
    ensures { WroteSection file.now done s dest.old
        dest.new }
{
    let offset = s.offset;
    let from = offset.0 as usize;
    let octets = s.length as usize;
    let values = from + first_value(s.number, octets);
    blank(dest, done, from);
    keep(file, dest, from, values);
    blank(dest, values, from + octets);
}

// The section that is passed next, and where to read on.
#[tactic(auto, unfolding(crate::specs::Passed::passed_by))]
fn passed_at(file: &[u8], reading: Reading) -> Option<(Section, Reading)>
    ensures { result ≡ passed_by (seen file.now reading) }
{
    let seen = look(file, reading);
    match seen {
        Seen::Passes(section, next) => Some((section, next)),
        Seen::Closes(section, next) => Some((section, next)),
        Seen::Misplaced(_) => None,
        Seen::NoGrid(_) => None,
        Seen::Clean => None,
        Seen::InputOver => None,
        Seen::Unreadable(_, _) => None,
    }
}

// Writes the public copy of a file that walks clean.
fn put_copy(file: &[u8], dest: &mut [u8])
    requires { (length file.now ≤ most_octets) × ((walked unlimited file.now).outcome ≡ Ok tt)
        × (length file.now ≤ length dest.old) }
    ensures { dest.new
        ≡ public_copy licensed file.now
        ++ drop (length file.now) dest.old }
{
    let mut reading = start();
    let mut done: usize = 0;
    loop {
        let passed = passed_at(file, reading);
        match passed {
            Some((section, next)) => {
                put_section(file, dest, done, section);
                let cursor = next.cursor;
                let at = cursor.at;
                done = at.0 as usize;
                reading = next;
            }
            None => {
                blank(dest, done, file.len());
                return;
            }
        }
    }
}

// The public copy: refusal 1, then 19, then the walk's own, with the destination untouched; else
// the copy in the destination's first octets, as many as the file has, which is the answer, with
// the rest of the destination untouched.
pub fn publish(file: &[u8], dest: &mut [u8]) -> Result<usize, CopyRefusal>
    ensures answer { result ≡ (copy_of licensed file.now dest.old).answer }
    ensures dest { dest.new
        ≡ (copy_of licensed file.now dest.old).dest }
{
    if MOST_OCTETS < file.len() as u64 {
        return Err(CopyRefusal::FileTooLong);
    }
    if dest.len() < file.len() {
        return Err(CopyRefusal::DestinationTooShort);
    }
    let outcome = outcome_of(file);
    match outcome {
        Err(stop) => Err(CopyRefusal::Walk(stop)),
        Ok(()) => {
            put_copy(file, dest);
            Ok(file.len())
        }
    }
}

// An answer in document 01's numbers, and the octets written.
#[tactic(auto, unfolding(crate::specs::End::copy_end))]
pub fn copy_end(answer: Result<usize, CopyRefusal>) -> StoreEnd
    ensures { result ≡ copy_end answer }
{
    match answer {
        Ok(octets) => stored(octets as u64),
        Err(CopyRefusal::FileTooLong) => unplaced(1, 0),
        Err(CopyRefusal::DestinationTooShort) => unplaced(19, 0),
        Err(CopyRefusal::Walk(stop)) => StoreEnd {
            end: end_of(Err(stop)),
            written: 0,
        },
    }
}
