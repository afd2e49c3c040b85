// Writing a message as the Rust crate grib 0.20.2 does it, function by function, and that Buttresk
// writes the same octets (specs/, proofs/). No code.

#![tactic(auto)]
