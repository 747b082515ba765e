// A memory that holds a desk, sound or not: its roster can be read, and its order records are in place. Question 5 makes one behind its
// first tests.
#![tactic(auto)]

ghost use Rattle.std.specs.Prelude.{◌≡◌, ◌≤◌, List, ℕ, length};
ghost use Rattle.ledger.specs.Roster.{Numbered};
ghost use Rattle.ledger.specs.Records.{orders_of};
ghost use Rattle.memory_layout.specs.View.{roster_of, open_orders};
ghost use Rattle.memory_layout.specs.Readable.{Readable};
ghost use Rattle.memory_layout.specs.Stores.{Records};

use ledger::records::Record;
use memory_layout::account::DeskAccount;
use memory_layout::memory::Memory;
use memory_layout::orders::OrderRecords;
use memory_layout::readable::ReadableDesk;
use std::marker::Model;

#[derive(Drop)]
pub struct HeldDesk<'a> {
    pub memory: Memory<'a>,
}

// A clause sees the memory.
impl<'a> Model for HeldDesk<'a> {
    ghost Value = { List ℕ };

    ghost view = { λ desk. desk.memory };

    ghost invariant = { λ desk. Readable desk.memory × Records desk.memory };
}

// What it lends; `SoundDesk` lends the same, and says that it is sound.
impl<'a> HeldDesk<'a> {
    // The desk as one that can be read.
    pub fn readable(&self) -> ReadableDesk<'a>
        ensures { result ≡ self.now }
    {
        ReadableDesk {
            memory: self.memory.again(),
        }
    }

    // Its order records.
    pub fn orders(&self) -> OrderRecords<'a>
        ensures { result ≡ self.now }
    {
        OrderRecords {
            memory: self.memory.again(),
        }
    }

    // The records of its open orders.
    pub fn records(&self) -> &'a [Record]
        ensures orders { orders_of result.now ≡ open_orders self.now }
        ensures few { length result.now ≤ 256 }
    {
        self.orders().records()
    }

    // An account of its roster.
    pub fn account(&self, number: usize) -> DeskAccount<'a>
        requires { Numbered (roster_of self.now).accounts number }
        ensures { (result.memory ≡ self.now) × (result.number ≡ number) }
    {
        self.readable().account(number)
    }
}
