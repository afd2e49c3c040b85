// As gribwalk. Its stored input: sample A, and a message that ends in a refusal.
#![tactic(auto)]

use std::io;

fn main(rt: HostRuntime) -> io::Result<()> {
    replaying::print_index(&rt)
}
