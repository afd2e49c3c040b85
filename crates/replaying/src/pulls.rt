// The answers of a pull reader, a line for each call (docs/REPLAY.md, kind `P`). It is asked by
// `pull_at`, which the reader's own `next` is proved equal to (the contract of `next`, in crate
// `pull`).
use crate::printing::{line_end, outcome, text};
use crate::walk_lines::section_line;
use index::{Listed, Refused};
use pull::{first, pull_at};
use std::io;

// Of a file of so many octets fewer sections are passed; then come a refusal at the most, and two
// ends. One call more is left over.
const FURTHER_CALLS: u64 = 4;

// Pulls until the second end: that it stays is shown by the call after the first.
pub(crate) fn answer_pull(out: &mut impl io::Write, file: &[u8]) -> io::Result<()> {
    let mut progress = first(file);
    let mut ended = false;
    for _ in 0..file.len() as u64 + FURTHER_CALLS {
        let pull = pull_at(file, progress);
        progress = pull.next;
        let answer = pull.answer;
        tell(out, answer)?;
        if answer.is_none() {
            if ended {
                break;
            }
            ended = true;
        }
    }
    Ok(())
}

// Prints what one call handed out.
fn tell(out: &mut impl io::Write, answer: Option<Result<Listed, Refused>>) -> io::Result<()> {
    match answer {
        Some(Ok(listed)) => passed(out, listed),
        Some(Err(stop)) => {
            text(out, b"refused")?;
            outcome(out, Err(stop))?;
            line_end(out)
        }
        None => text(out, b"ended\n"),
    }
}

fn passed(out: &mut impl io::Write, listed: Listed) -> io::Result<()> {
    let section = listed.section;
    section_line(
        out,
        b"passed",
        section.number,
        section.offset.0,
        section.length,
    )
}
