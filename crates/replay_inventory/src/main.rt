// `replay` over the stored list of inventories and of lists read.
#![tactic(auto)]

use std::io;

fn main(rt: HostRuntime) -> io::Result<()> {
    replaying::answer_requests(&rt)
}
