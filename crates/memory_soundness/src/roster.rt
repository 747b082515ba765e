// The roster that a memory holds: would it be accepted? The numbers of a table are asked at once, and where that does not tell, one by one.
ghost use Rattle.std.specs.Prelude.{◌≡◌, ◌↔◌, ℕ, ◌/◌, ◌<◌, ◌≤◌, length, true, unsigned_abs, IsTrue};
ghost use Rattle.words.specs.Words.{word_at, signed_at};
ghost use Rattle.ledger.specs.Roster.{Numbered};
ghost use Rattle.memory_layout.specs.Rosters.{sizes_fit, names_fit};
ghost use Rattle.memory_layout.specs.View.{roster_of};
ghost use Rattle.memory_soundness.specs.Soundness.{roster_sound};

use crate::bits::{all_numbered, all_small};
use crate::ranges::is_weight;
use memory_layout::memory::Memory;
use memory_layout::roster::between;
use words::part;

// Are the sizes within their limits?
#[tactic(auto, unfolding(memory_layout::specs::Rosters::sizes_fit))]
fn sizes_fit(m: &Memory) -> bool
    ensures { result ≡ sizes_fit (roster_of m.now) }
{
    between(1, 16, m.accounts())
        && between(1, 4, m.groups())
        && between(1, 8, m.contracts())
        && between(1, 32, m.instruments())
}

// Is each word of a table a number from 1 to `most`?
fn all_named(table: &[u8], most: u64) -> bool
    ensures { IsTrue result ↔ ((p : ℕ) → p < length table.now / 8 → Numbered most (word_at table.now p)) }
{
    all_numbered(table, most)
        || table
            .as_chunks::<8>()
            .0
            .iter()
            .all(|number| between(1, most, u64::from_le_bytes(*number)))
}

// Is each weight of a table in range?
fn weights_fit(table: &[u8]) -> bool
    ensures { IsTrue result ↔ ((p : ℕ) → p < length table.now / 8 → unsigned_abs (signed_at table.now p) ≤ 1000000) }
{
    all_small(table, 524288)
        || table
            .as_chunks::<8>()
            .0
            .iter()
            .all(|weight| is_weight(i64::from_le_bytes(*weight)))
}

// Does every contract name a group of the roster, and every instrument a contract?
#[tactic(auto, using(crate::proofs::RosterLaws::sizes_numbered))]
fn names_fit(m: &Memory) -> bool
    requires { sizes_fit (roster_of m.now) ≡ true }
    ensures { result ≡ names_fit (roster_of m.now) }
{
    let roster = m.roster();
    all_named(
        part(roster.group_table(), 1, m.contracts() as usize),
        m.groups(),
    ) && all_named(
        part(roster.contract_table(), 1, m.instruments() as usize),
        m.contracts(),
    )
}

// Would the roster be accepted?
#[tactic(auto, using(crate::proofs::RosterLaws::sizes_numbered), unfolding(crate::specs::Soundness::roster_sound))]
pub fn roster_is_sound(m: &Memory) -> bool
    ensures { result ≡ roster_sound m.now }
{
    sizes_fit(m)
        && names_fit(m)
        && weights_fit(part(m.roster().weight_table(), 1, m.instruments() as usize))
}
