// Answers the requests of standard input (docs/REPLAY.md). Its stored list: signed numbers, the
// sections of sample A, fields at the edges of what a section may hold, sections that eccodes
// decoded, and public copies.
#![tactic(auto)]

use std::io;

fn main(rt: HostRuntime) -> io::Result<()> {
    replaying::answer_requests(&rt)
}
