// Limit lines and the questions about them, over the ledger's positions.
#![tactic(auto)]

pub mod answer;
pub mod lines;
pub mod questions;
pub mod within;
