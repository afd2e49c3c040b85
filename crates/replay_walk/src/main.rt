// `replay` over the stored list of walks, of walks whose tables fill, and of pulls; the end of
// the input cuts the last request.
#![tactic(auto)]

use std::io;

fn main(rt: HostRuntime) -> io::Result<()> {
    replaying::answer_requests(&rt)
}
