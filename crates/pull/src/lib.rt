// The pull reader (document 01, "Order"; the crate's Grib2SectionStream): a struct that keeps the
// lent file and the place of its reading together, and hands out one passed section a call. `first`
// and `pull_at` are the same over plain parameters.
#![tactic(auto)]

ghost use Rattle.std.specs.Prelude.{◌≡◌, Some, Err};
ghost use Rattle.pull.specs.Calls.{first_of, further, handed_out, stopped, pull_at};
ghost use Rattle.index.specs.Outcome.{refused_there};

use framing::{Offset, Section};
use index::{Listed, MOST_OCTETS, Refusal, Refused, unlisted};
use order::Place;
use reading::{Reading, Seen, look, start};

// Where the reading stands: the place of the section that is read next, the section passed last,
// and whether the end was told.
#[derive(Clone, Copy)]
pub struct Progress {
    pub reading: Reading,
    pub place: Place,
    pub last: Listed,
    pub over: bool,
}

#[derive(Clone, Copy)]
pub struct Pull {
    pub answer: Option<Result<Listed, Refused>>,
    pub next: Progress,
}

// The lent file and where its reading stands, together.
#[derive(Drop)]
pub struct Reader<'a> {
    pub file: &'a [u8],
    pub progress: Progress,
}

// Before the first call: the file's start, no end told.
pub fn first(file: &[u8]) -> Progress
    ensures { result ≡ first_of file.now }
{
    Progress {
        reading: start(),
        place: Place(0),
        last: unlisted(),
        over: false,
    }
}

// The place behind this one.
fn further(place: Place) -> Place
    ensures { result ≡ further place }
{
    if place.0 < u64::MAX {
        return Place(place.0 + 1);
    }
    place
}

// A section is handed out, and the next is read behind it.
fn hand_out(place: Place, section: Section, reading: Reading) -> Pull
    ensures { result ≡ handed_out place section reading }
{
    let last = Listed { place, section };
    Pull {
        answer: Some(Ok(last)),
        next: Progress {
            reading,
            place: further(place),
            last,
            over: false,
        },
    }
}

// The end is told, once.
fn stop(progress: Progress, answer: Option<Result<Listed, Refused>>) -> Pull
    ensures { result ≡ stopped progress answer }
{
    let reading = progress.reading;
    let place = progress.place;
    let last = progress.last;
    Pull {
        answer,
        next: Progress {
            reading,
            place,
            last,
            over: true,
        },
    }
}

// It is the refusal of a section.
fn refuse(progress: Progress, why: Refusal, at: Listed) -> Pull
    ensures { result ≡ stopped progress (Some (Err (refused_there why at.place at.section.offset))) }
{
    let place = at.place;
    let section = at.section;
    let offset = section.offset;
    stop(progress, Some(Err(Refused { why, place, offset })))
}

// One call at a progress, over plain parameters: the section passed, the refusal once, then that
// the reading has ended; and the next progress.
pub fn pull_at(file: &[u8], progress: Progress) -> Pull
    ensures { result ≡ pull_at file.now progress }
{
    if progress.over {
        return Pull {
            answer: None,
            next: progress,
        };
    }
    if MOST_OCTETS < file.len() as u64 {
        return stop(
            progress,
            Some(Err(Refused {
                why: Refusal::FileTooLong,
                place: Place(0),
                offset: Offset(0),
            })),
        );
    }
    let reading = progress.reading;
    let place = progress.place;
    let last = progress.last;
    let seen = look(file, reading);
    match seen {
        Seen::Passes(section, next) => hand_out(place, section, next),
        Seen::Closes(section, next) => hand_out(place, section, next),
        Seen::Misplaced(section) => refuse(
            progress,
            Refusal::Misplaced(section.number),
            Listed { place, section },
        ),
        Seen::NoGrid(section) => refuse(
            progress,
            Refusal::NoGrid(section.number),
            Listed { place, section },
        ),
        Seen::Clean => stop(progress, None),
        Seen::InputOver => refuse(progress, Refusal::InputOver, last),
        Seen::Unreadable(fault, offset) => stop(
            progress,
            Some(Err(Refused {
                why: Refusal::Unreadable(fault),
                place,
                offset,
            })),
        ),
    }
}

// A reader of this file, before its first call.
pub fn new<'a>(file: &'a [u8]) -> Reader<'a>
    ensures { (result.file ≡ file.entry) × (result.progress ≡ first_of file.now) }
{
    let progress = first(file);
    Reader { file, progress }
}

impl<'a> Reader<'a> {
    // The next section, the refusal, or that the reading has ended: what `pull_at` answers where
    // the reader stands. The reader keeps its file and moves to the next progress.
    pub fn next(&mut self) -> Option<Result<Listed, Refused>>
        ensures { (result ≡ (pull_at self.old.file.now self.old.progress).answer)
            × ((self.new.file ≡ self.old.file)
            × (self.new.progress
            ≡ (pull_at self.old.file.now self.old.progress).next)) }
    {
        let p = pull_at(self.file, self.progress);
        self.progress = p.next;
        p.answer
    }
}
