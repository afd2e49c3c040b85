// As gribwalk. Its stored input: one octet over the limit.
#![tactic(auto)]

use std::io;

fn main(rt: HostRuntime) -> io::Result<()> {
    replaying::print_index(&rt)
}
