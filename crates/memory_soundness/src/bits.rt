// Bounds of many numbers at once: one number with the bits of all of them, made with no test, so that the compiler takes several at a
// time. A row is gone over as chunks of one number each; what is left behind the last of them says nothing.
ghost use Rattle.std.specs.Prelude.{◌≡◌, ℕ, ◌*◌, ◌/◌, ◌<◌, ◌≤◌, true, length, unsigned_abs};
ghost use Rattle.words.specs.Fields.{u32_at};
ghost use Rattle.words.specs.Words.{word_at, signed_at};
ghost use Rattle.ledger.specs.Roster.{Numbered};
ghost use Rattle.limits.specs.InBytes.{group_line_at};
ghost use Rattle.book.specs.Sound.{GroupLineFits};
ghost use Rattle.memory_soundness.specs.Cells.{offset_word};

// At least each of the numbers of 32 bits in a row. Number j is the field at byte 4 j.
fn bits_of_all(row: &[u8]) -> u32
    ensures { (p : ℕ) → p < length row.now / 4 → u32_at row.now (p * 4) ≤ result }
{
    row.as_chunks::<4>()
        .0
        .iter()
        .fold(0, |all, figure| all | u32::from_le_bytes(*figure))
}

// Is each of the two figures of every word of a row at most `largest`, as far as the bits of all tell?
pub fn all_in_range(row: &[u8], largest: u64) -> bool
    ensures { result ≡ true → (j : ℕ) → j < length row.now / 8 → GroupLineFits largest (group_line_at row.now j) }
{
    bits_of_all(row) as u64 <= largest
}

// At least each word of a row with `offset` added.
fn bits_of_all_offset(row: &[u8], offset: u64) -> u64
    ensures { (p : ℕ) → p < length row.now / 8 → offset_word offset (word_at row.now p) ≤ result }
{
    row.as_chunks::<8>().0.iter().fold(0, |all, number| {
        all | u64::from_le_bytes(*number).wrapping_add(offset)
    })
}

// Is each signed word of a row at most `half` either way, as far as the bits of all tell? With `half` added each is then below twice that;
// `half` itself is not, and is told one by one.
#[tactic(auto, using(crate::proofs::Joining::offset_small, words::proofs::Memory::word_below), unfolding(words::specs::Words::signed_at))]
pub fn all_small(row: &[u8], half: u64) -> bool
    requires { half ≤ 1000000000 }
    ensures { result ≡ true → (p : ℕ) → p < length row.now / 8 → unsigned_abs (signed_at row.now p) ≤ half }
{
    bits_of_all_offset(row, half) < half * 2
}

// Is each word of a row a number from 1 to `most`, as far as the bits of all tell? 1 is taken off each, which makes 0 the largest word.
#[tactic(auto, using(crate::proofs::Joining::numbered_less, words::proofs::Memory::word_below))]
pub fn all_numbered(row: &[u8], most: u64) -> bool
    ensures { result ≡ true → (p : ℕ) → p < length row.now / 8 → Numbered most (word_at row.now p) }
{
    bits_of_all_offset(row, 18446744073709551615) < most
}
