// Where a desk stands in its lent memory: the store and the reader of each field, its order records, and the writer of a desk that has
// just begun. No crate above knows a place.
#![tactic(auto)]

pub mod account;
pub mod memory;
pub mod opening;
pub mod orders;
pub mod readable;
pub mod readers;
pub mod roster;
pub mod search;
pub mod stores;
pub mod table;
