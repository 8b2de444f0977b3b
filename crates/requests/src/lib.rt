// The parts of a request to the test driver and of its answer, read from standard input and written to standard output.
#![tactic(auto)]

pub mod input;
pub mod output;
