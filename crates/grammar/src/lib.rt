// Elements of a file by a grammar: functions that read its pieces. The grammar, its meaning and the reader are in specs/.
#![tactic(auto)]

pub mod attributes;
pub mod bytes;
pub mod tags;
