// A desk's memory, lent to be read: at least the 65,536 bytes of a desk. What writes takes the bytes, `m: &mut [u8]`: tried with a struct,
// and the proof did not close, since the lender does not learn what was written behind a `&mut` field.
#![tactic(auto, using(crate::proofs::FieldsRead::long_out), unfolding(crate::specs::Rosters::long_enough))]

ghost use Rattle.std.specs.Prelude.{◌≡◌, List, ℕ, ◌≤◌, length, OnSome, IfSome, is_some};
ghost use Rattle.memory_layout.specs.Layout.{memory_bytes};
ghost use Rattle.memory_layout.specs.Rosters.{long_enough};

use crate::table::MEMORY_BYTES;
use std::marker::Model;

#[derive(Drop)]
pub struct Memory<'a> {
    pub bytes: &'a [u8],
}

// A clause sees the bytes, which are enough.
impl<'a> Model for Memory<'a> {
    ghost Value = { List ℕ };

    ghost view = { λ m. m.bytes.now };

    ghost invariant = { λ m. memory_bytes ≤ length m.bytes.now };
}

// 1: is the lent memory long enough?
pub fn is_long_enough(m: &[u8]) -> bool
    ensures { result ≡ long_enough m.now }
{
    MEMORY_BYTES <= m.len()
}

impl<'a> Memory<'a> {
    // The memory, where it is long enough.
    pub fn of(bytes: &'a [u8]) -> Option<Memory<'a>>
        ensures long_enough { is_some result ≡ long_enough bytes.now }
        ensures bytes { IfSome result (λ m. m ≡ bytes.now) }
    {
        if is_long_enough(bytes) {
            Some(Memory { bytes })
        } else {
            None
        }
    }

    // The same memory, lent once more: a type with a Model and a lifetime cannot be `Copy`.
    pub fn again(&self) -> Memory<'a>
        ensures { result ≡ self.now }
    {
        Memory { bytes: self.bytes }
    }
}
