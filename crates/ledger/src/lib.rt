// The ledger: orders, what remains of them, how they are found and stored, units; and the definitions and laws of positions and fillings.
// It knows no limit.
#![tactic(auto)]

pub mod detail;
pub mod find;
pub mod order;
pub mod records;
pub mod roster;
pub mod units;
