// `gribwalk`: the index of the file on standard input, as text (document 01, "Sample files").
use crate::answers::answer_long;
use crate::desk::{Desk, LINES, empty_table, walk_at_desk};
use crate::input::{MOST_WALKED, empty_room, read_full};
use crate::walk_lines::{counts, end, submessages};
use std::io;
use std::io::{BufWriter, Write};

// Walks standard input and prints the index. To its caller it answers nothing but an error of
// reading, of writing, or of memory for what is held to be written, so it has no `ensures`.
pub fn print_index(rt: &(impl Input + Print + Alloc)) -> io::Result<()> {
    let mut room = empty_room();
    let size = read_full(&mut rt.reader(), &mut room)?;
    let mut out = BufWriter::new(rt.alloc(), io::writer(rt))?;
    if MOST_WALKED < size {
        answer_long(&mut out)?;
        return out.flush();
    }
    let mut rows = empty_table();
    show(&mut out, walk_at_desk(&room[..size], &mut rows, LINES))?;
    out.flush()
}

fn show(out: &mut impl io::Write, desk: Desk) -> io::Result<()> {
    let answer = desk.answer;
    let lines = desk.lines;
    let how = answer.outcome;
    counts(out, answer)?;
    submessages(out, b"", lines, answer.submessages)?;
    end(out, how)
}
