// A program's streams: its input read to the end, its output printed whole or taken back, the line on standard error that says what failed,
// and the line by which it tells how it went; and whether it has an argument.
#![tactic(auto)]

pub mod arguments;
pub mod failure;
pub mod input;
pub mod output;
