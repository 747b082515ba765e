// The day program's input in blocks, and its lines of output.
#![tactic(auto)]

pub mod answers;
pub mod input;
pub mod output;
