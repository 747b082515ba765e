// Question 5: is the lent memory long enough, and does it hold a sound desk?
#![tactic(auto)]

pub mod balances;
pub mod bits;
pub mod held_desk;
pub mod lines;
pub mod orders;
pub mod ranges;
pub mod roster;
pub mod sound_desk;
pub mod sums;

ghost use Rattle.std.specs.Prelude.{◌≡◌, ◌&&◌, true, length, is_some, IfSome};
ghost use Rattle.memory_layout.specs.Rosters.{long_enough};
ghost use Rattle.memory_layout.specs.View.{open_orders};
ghost use Rattle.memory_soundness.specs.Soundness.{holds, roster_sound, lines_sound, ids_sound, orders_sound, positions_sound, sound_desk};
ghost use Rattle.memory_soundness.specs.Cells.{Empty, SmallSums};

use crate::held_desk::HeldDesk;
use memory_layout::memory::Memory;
use memory_layout::orders::OrderRecords;

// Does the memory hold a sound desk? One pass over each region, and more where the quick tests do not tell.
#[tactic(auto, unfolding(crate::specs::Soundness::sound_desk, crate::specs::Soundness::sound))]
pub fn is_sound(m: &[u8]) -> bool
    ensures { result ≡ sound_desk m.now }
{
    held(m).is_some_and(|desk| parts_are_sound(&desk))
}

// The layout's own conditions: the kind of desk, the count of orders, their first record.
#[tactic(auto, using(memory_layout::proofs::Lengths::length_open), unfolding(crate::specs::Soundness::holds))]
fn holds(m: &Memory) -> bool
    ensures { result ≡ holds m.now }
{
    m.kind() == 1 && m.count() <= 256 && m.first_record() <= 256
}

// The memory as one that holds a desk: where it is long enough, those conditions hold, and its roster would be accepted.
#[tactic(auto, using(crate::proofs::Whole::held, crate::proofs::Whole::readable))]
fn held<'a>(m: &'a [u8]) -> Option<HeldDesk<'a>>
    ensures some { is_some result ≡ (long_enough m.now && holds m.now && roster_sound m.now) }
    ensures desk { IfSome result (λ desk. desk ≡ m.now) }
{
    let memory = Memory::of(m)?;
    if holds(&memory) && roster::roster_is_sound(&memory) {
        Some(HeldDesk { memory })
    } else {
        None
    }
}

// Each part of a desk behind its roster.
#[tactic(auto, using(crate::proofs::Whole::orders_alone))]
fn parts_are_sound(desk: &HeldDesk) -> bool
    ensures { result ≡ (lines_sound desk.now && (ids_sound desk.now && orders_sound desk.now) && positions_sound desk.now) }
{
    lines::lines_are_sound(&desk.readable())
        && orders::orders_are_sound(desk)
        && balances::positions_are_sound(desk)
}

// Question 5, and where it is answered yes, B and V of all accounts and instruments in the cells. They are lent, not handed on with the
// yes: 8.7 KB are written in place.
#[tactic(auto, using(crate::proofs::Questions::each_out, crate::proofs::Whole::held_readable))]
pub fn is_sound_with_sums(m: &[u8], cells: &mut [u64; 1089]) -> bool
    requires { Empty cells.old }
    ensures sound { result ≡ sound_desk m.now }
    ensures cells { (length cells.new ≡ 1089)
        × (result ≡ true → SmallSums cells.new (open_orders m.now)) }
{
    if !is_sound(m) {
        return false;
    }
    let memory = Memory { bytes: m };
    sums::gather_sums(&OrderRecords { memory }, cells);
    true
}
