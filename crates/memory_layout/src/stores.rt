// Single fields of a desk: a balance, a mark, a block, a line. Accounts and numbers count from 1. The stores of flags, and the two places
// of lines, differ in the field's place alone, a line each: one function over all would be a match over the same names. Each asks that
// the memory is long enough (memory.rt says why that is no type) and that its numbers have a place, which a caller knows by the roster.
#![tactic(auto, unfolding(words::specs::Words::put_words))]

ghost use Rattle.std.specs.Prelude.{◌≡◌, ◌+◌, ◌*◌, ◌≤◌, length, IfSome};
ghost use Rattle.words.specs.Words.{put_word};
ghost use Rattle.memory_layout.specs.Layout.{memory_bytes, own_set_row, default_set_row, own_row, default_row};
ghost use Rattle.memory_layout.specs.FieldStores.{bit, store_balance, store_mark, block_account, block_instrument, block_group};
ghost use Rattle.memory_layout.specs.FieldStores.{store_line, store_of_group};

use crate::table::{
    ACCOUNT_BLOCKS, BALANCES, DEFAULT_LINES, DEFAULT_SET, GROUP_BLOCKS, GROUP_LINES, GROUP_SET,
    INSTRUMENT_BLOCKS, MARKS, OWN_LINES, OWN_SET,
};
use limits::lines::{GroupLine, Line};
use words::{halves, set_signed_word, set_word};

// S of an account and instrument becomes `z`.
pub fn set_balance(m: &mut [u8], a: usize, i: usize, z: i64)
    requires { (memory_bytes ≤ length m.old) × (a ≤ 16) × (i ≤ 32) }
    ensures { m.new ≡ store_balance m.old a i z }
{
    set_signed_word(m, BALANCES + a * 32 + i, z);
}

// The account is marked as trading.
pub fn set_mark(m: &mut [u8], a: usize)
    requires { (memory_bytes ≤ length m.old) × (a ≤ 16) }
    ensures { m.new ≡ store_mark m.old a }
{
    set_word(m, MARKS + a, 1);
}

// Word `k` says yes or no.
fn set_bit(m: &mut [u8], k: usize, on: bool)
    requires { k * 8 + 8 ≤ length m.old }
    ensures { m.new ≡ put_word m.old k (bit on) }
{
    set_word(m, k, u64::from(on));
}

// Blocks an account, or lifts its block.
pub fn block_account(m: &mut [u8], a: usize, on: bool)
    requires { (memory_bytes ≤ length m.old) × (a ≤ 16) }
    ensures { m.new ≡ block_account m.old a on }
{
    set_bit(m, ACCOUNT_BLOCKS + a, on);
}

// Blocks an instrument for all, or lifts its block.
pub fn block_instrument(m: &mut [u8], i: usize, on: bool)
    requires { (memory_bytes ≤ length m.old) × (i ≤ 32) }
    ensures { m.new ≡ block_instrument m.old i on }
{
    set_bit(m, INSTRUMENT_BLOCKS + i, on);
}

// Blocks a group for an account, or lifts its block.
pub fn block_group(m: &mut [u8], a: usize, g: usize, on: bool)
    requires { (memory_bytes ≤ length m.old) × (a ≤ 16) × (g ≤ 4) }
    ensures { m.new ≡ block_group m.old a g on }
{
    set_bit(m, GROUP_BLOCKS + a * 4 + g, on);
}

// The words of a line: the one that says whether it is set, and the first of the two words of its figures.
#[derive(Clone, Copy)]
pub struct LineWords {
    pub set: usize,
    pub figures: usize,
}

// Those of an instrument's own line.
pub fn own_line(a: usize, i: usize) -> LineWords
    requires { (a ≤ 16) × (i ≤ 32) }
    ensures { (result.set ≡ own_set_row a + i) × (result.figures ≡ own_row a + i * 2) }
{
    LineWords {
        set: OWN_SET + a * 32 + i,
        figures: OWN_LINES + a * 84 + i * 2,
    }
}

// Those of a contract's default line.
pub fn default_line(a: usize, c: usize) -> LineWords
    requires { (a ≤ 16) × (c ≤ 8) }
    ensures { (result.set ≡ default_set_row a + c) × (result.figures ≡ default_row a + c * 2) }
{
    LineWords {
        set: DEFAULT_SET + a * 8 + c,
        figures: DEFAULT_LINES + a * 84 + c * 2,
    }
}

// Sets a line, or no more.
pub fn set_line(m: &mut [u8], at: LineWords, line: Option<Line>)
    requires { (at.set * 8 + 8 ≤ length m.old) × IfSome line (λ _. at.figures * 8 + 16 ≤ length m.old) }
    ensures { m.new ≡ store_line m.old at.set at.figures line }
{
    if let Some(line) = line {
        set_word(m, at.figures, halves(line.tci, line.tvi));
        set_word(m, at.figures + 1, halves(line.lci, line.lvi));
    }
    set_bit(m, at.set, line.is_some());
}

// Sets a group's line, or no more.
pub fn set_of_group(m: &mut [u8], a: usize, g: usize, line: Option<GroupLine>)
    requires { (memory_bytes ≤ length m.old) × (a ≤ 16) × (g ≤ 4) }
    ensures { m.new ≡ store_of_group m.old a g line }
{
    if let Some(line) = line {
        set_word(m, GROUP_LINES + a * 84 + g, halves(line.lcc, line.lvc));
    }
    set_bit(m, GROUP_SET + a * 4 + g, line.is_some());
}
