// Requests to the test driver for sheets, tables and lines: each reads its arguments, makes the call, writes the answer, and says whether
// the request was whole.
#![tactic(auto)]

pub mod sheet;
pub mod table;
pub mod written;
