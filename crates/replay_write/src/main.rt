// `replay` over the stored list of written messages.
#![tactic(auto)]

use std::io;

fn main(rt: HostRuntime) -> io::Result<()> {
    replaying::answer_requests(&rt)
}
