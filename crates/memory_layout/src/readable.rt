// A memory that can be read as a desk, sound or not: the sizes of its roster are within their limits.
#![tactic(auto)]

ghost use Rattle.std.specs.Prelude.{◌≡◌, List, ℕ};
ghost use Rattle.ledger.specs.Roster.{Numbered};
ghost use Rattle.memory_layout.specs.View.{roster_of};
ghost use Rattle.memory_layout.specs.Readable.{Readable};

use crate::account::DeskAccount;
use crate::memory::Memory;
use std::marker::Model;

#[derive(Drop)]
pub struct ReadableDesk<'a> {
    pub memory: Memory<'a>,
}

// A clause sees the memory.
impl<'a> Model for ReadableDesk<'a> {
    ghost Value = { List ℕ };

    ghost view = { λ desk. desk.memory };

    ghost invariant = { λ desk. Readable desk.memory };
}

impl<'a> ReadableDesk<'a> {
    // An account of the roster.
    pub fn account(&self, number: usize) -> DeskAccount<'a>
        requires { Numbered (roster_of self.now).accounts number }
        ensures { (result.memory ≡ self.now) × (result.number ≡ number) }
    {
        DeskAccount {
            memory: self.memory.again(),
            number,
        }
    }
}
