// The index of the file on standard input (document 01, "Sample files"). Its stored input: sample
// A.
#![tactic(auto)]

use std::io;

fn main(rt: HostRuntime) -> io::Result<()> {
    replaying::print_index(&rt)
}
