// Little-endian words of 64 bits in lent bytes, fields at any byte, and bytes copied. A word is named by the bytes and its number,
// which are two parameters: a struct of both would be made for each word that is read.
#![tactic(auto)]

pub mod copies;
pub mod fields;

ghost use Rattle.std.specs.Prelude.{◌≡◌, ◌+◌, ◌*◌, ◌≤◌, length};
ghost use Rattle.words.specs.Words.{word_at, put_word, halves, signed_at, put_signed, words_at, put_words, part_of};

use crate::fields::Field;

// Word `k` of `m`.
#[tactic(auto, unfolding(crate::specs::Words::word_at, crate::specs::Fields::u64_at))]
pub fn word(m: &[u8], k: usize) -> u64
    requires { k * 8 + 8 ≤ length m.now }
    ensures { result ≡ word_at m.now k }
{
    u64::at(m, k * 8)
}

// Makes `v` word `k` of `m`.
pub fn set_word(m: &mut [u8], k: usize, v: u64)
    requires { k * 8 + 8 ≤ length m.old }
    ensures { m.new ≡ put_word m.old k v }
{
    m[k * 8..k * 8 + 8].copy_from_slice(&v.to_le_bytes());
}

// The word whose lower half is `x` and whose upper half is `y`.
pub fn halves(x: u32, y: u32) -> u64
    ensures { result ≡ halves x y }
{
    u64::from(x) + (u64::from(y) << 32)
}

// Word `k` of `m` as a signed number.
#[tactic(auto, using(crate::proofs::Complement::cast64), unfolding(crate::specs::Words::signed_at))]
pub fn signed_word(m: &[u8], k: usize) -> i64
    requires { k * 8 + 8 ≤ length m.now }
    ensures { result ≡ signed_at m.now k }
{
    word(m, k).cast_signed()
}

// Makes the signed number `z` word `k` of `m`.
#[tactic(auto, using(crate::proofs::Complement::bits64), unfolding(crate::specs::Words::put_signed))]
pub fn set_signed_word(m: &mut [u8], k: usize, z: i64)
    requires { k * 8 + 8 ≤ length m.old }
    ensures { m.new ≡ put_signed m.old k z }
{
    set_word(m, k, z.cast_unsigned())
}

// The bytes of the `n` words of `m` from word `k` on.
#[tactic(auto, unfolding(crate::specs::Words::part_of))]
pub fn part(m: &[u8], k: usize, n: usize) -> &[u8]
    requires { (k + n) * 8 ≤ length m.now }
    ensures { result.now ≡ part_of m.now k n }
{
    &m[k * 8..(k + n) * 8]
}

// Copies the `n` words from word `from` on to word `to` and after it.
#[tactic(auto, using(crate::proofs::Moved::copied_words))]
fn words_moved(m: &mut [u8], from: usize, to: usize, n: usize)
    requires { ((from + n) * 8 ≤ length m.old) × ((to + n) * 8 ≤ length m.old) }
    ensures { m.new ≡ put_words m.old to (words_at m.old from n) }
{
    m.copy_within(from * 8..(from + n) * 8, to * 8);
}

// Copies the `n` words from word `from` on to word `to` and after it, which are lower.
pub fn words_copied(m: &mut [u8], from: usize, to: usize, n: usize)
    requires { (to ≤ from) × ((from + n) * 8 ≤ length m.old) }
    ensures { m.new ≡ put_words m.old to (words_at m.old from n) }
{
    words_moved(m, from, to, n);
}

// Moves the `n` words from word `k` on to word `k + by` and after it. Up, down and copied have each one distance wherever they are
// called: up and down then compile to one memmove.
pub fn words_up(m: &mut [u8], k: usize, by: usize, n: usize)
    requires { (k + by + n) * 8 ≤ length m.old }
    ensures { m.new ≡ put_words m.old (k + by) (words_at m.old k n) }
{
    words_moved(m, k, k + by, n);
}

// Moves the `n` words from word `k + by` on to word `k` and after it.
pub fn words_down(m: &mut [u8], k: usize, by: usize, n: usize)
    requires { (k + by + n) * 8 ≤ length m.old }
    ensures { m.new ≡ put_words m.old k (words_at m.old (k + by) n) }
{
    words_moved(m, k + by, k, n);
}
