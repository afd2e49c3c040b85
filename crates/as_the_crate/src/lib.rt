// Reading as the Rust crate grib 0.20.2 does it, function by function, and that Buttresk's reading
// is the same (specs/, proofs/). No code.

#![tactic(auto)]
