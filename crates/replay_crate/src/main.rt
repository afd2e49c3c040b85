// `replay` over the stored list of the crate's own answers (tests/oracle), and last a request of
// no known kind.
#![tactic(auto)]

use std::io;

fn main(rt: HostRuntime) -> io::Result<()> {
    replaying::answer_requests(&rt)
}
