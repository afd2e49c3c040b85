// `replay` over the stored list of the templates' offsets.
#![tactic(auto)]

use std::io;

fn main(rt: HostRuntime) -> io::Result<()> {
    replaying::answer_requests(&rt)
}
