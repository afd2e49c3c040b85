// As gribwalk. Its stored input: as many octets as are walked, and more sections than its table
// has rows.
#![tactic(auto)]

use std::io;

fn main(rt: HostRuntime) -> io::Result<()> {
    replaying::print_index(&rt)
}
