// A sound desk, lent to be read: its memory, and B and V of all accounts beside it where a run keeps them, else no cells. They are a
// slice that may be empty, not an option: of a `&mut` in an option (the step writes them) a clause sees what is left as a sum by the
// option's cases, which each clause would take apart.
#![tactic(auto, using(crate::proofs::SoundDesk::sound_records, crate::proofs::Bounded::sound_readable))]

ghost use Rattle.std.specs.Prelude.{◌≡◌, List, ℕ};
ghost use Rattle.ledger.specs.Roster.{Numbered};
ghost use Rattle.memory_layout.specs.View.{roster_of, open_orders};
ghost use Rattle.memory_soundness.specs.Cells.{Sums};
ghost use Rattle.memory_soundness.specs.SoundMemory.{SoundMemory};

use memory_layout::account::DeskAccount;
use memory_layout::memory::Memory;
use memory_layout::orders::OrderRecords;
use memory_layout::readable::ReadableDesk;
use memory_layout::search::RankedRecords;
use std::marker::Model;

#[derive(Drop)]
pub struct SoundDesk<'a> {
    pub memory: Memory<'a>,
    pub cells: &'a [u64],
}

// A clause sees the memory.
impl<'a> Model for SoundDesk<'a> {
    ghost Value = { List ℕ };

    ghost view = { λ desk. desk.memory };

    ghost invariant = { λ desk. SoundMemory desk.memory × Sums desk.cells.now (open_orders desk.memory) };
}

impl<'a> SoundDesk<'a> {
    // The desk in a memory that passes question 5, with no cells.
    pub fn of(bytes: &'a [u8]) -> SoundDesk<'a>
        requires { SoundMemory bytes.now }
        ensures { result ≡ bytes.now }
    {
        SoundDesk {
            memory: Memory { bytes },
            cells: &[],
        }
    }

    // The desk as one that can be read, sound or not.
    pub fn readable(&self) -> ReadableDesk<'a>
        ensures same { result ≡ self.now }
        ensures sound { SoundMemory result }
    {
        ReadableDesk {
            memory: self.memory.again(),
        }
    }

    // Its order records.
    pub fn orders(&self) -> OrderRecords<'a>
        ensures same { result ≡ self.now }
        ensures sound { SoundMemory result }
    {
        OrderRecords {
            memory: self.memory.again(),
        }
    }

    // They again, whose ids ascend.
    #[tactic(auto, using(crate::proofs::SoundDesk::sound_ids))]
    pub fn ranked(&self) -> RankedRecords<'a>
        ensures { result ≡ self.now }
    {
        RankedRecords {
            orders: self.orders(),
        }
    }

    // An account of the roster.
    pub fn account(&self, number: usize) -> DeskAccount<'a>
        requires { Numbered (roster_of self.now).accounts number }
        ensures { (result.memory ≡ self.now) × (result.number ≡ number) }
    {
        self.readable().account(number)
    }
}
