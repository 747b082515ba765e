// The opening of a desk from the bytes of a roster.
#![tactic(auto)]

pub mod questions;
pub mod roster;
pub mod writing;

ghost use Rattle.std.specs.Prelude.{◌≡◌};
ghost use Rattle.limits.specs.Answers.{number_of};
ghost use Rattle.memory_opening.specs.Questions.{opening_answer};
ghost use Rattle.memory_opening.specs.Opening.{after_opening};

use crate::questions::{names_fit, weights_fit};
use crate::roster::SizedRoster;
use crate::writing::put_roster;
use limits::answer::{Answer, Refusal};
use memory_layout::memory::is_long_enough;
use memory_layout::opening::{clear, set_kind};

// Opens a desk in `m` from the roster's bytes. A refusal leaves `m` as it was.
#[tactic(auto, unfolding(crate::proofs::Answers::opening_parts))]
pub fn open_desk(m: &mut [u8], roster: &[u8]) -> Answer
    ensures answer { number_of result ≡ opening_answer m.old roster.now }
    ensures memory { m.new ≡ after_opening m.old roster.now }
{
    if !is_long_enough(m) {
        return Err(Refusal::MemoryTooShort);
    }
    let roster = SizedRoster::of(roster).ok_or(Refusal::WrongSizes)?;
    if !names_fit(&roster) {
        return Err(Refusal::UnknownName);
    }
    if !weights_fit(&roster) {
        return Err(Refusal::WeightOutOfRange);
    }
    clear(m);
    set_kind(m);
    put_roster(m, &roster);
    Ok(())
}
