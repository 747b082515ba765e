// Limit lines in lent bytes: two words for a line, one for a group's, two figures to a word.
#![tactic(auto, using(crate::proofs::LinesRead::lines_read), unfolding(crate::specs::InBytes::line_part))]

ghost use Rattle.std.specs.Prelude.{◌≡◌, List, ℕ, ◌+◌, ◌*◌, ◌^◌, ◌<◌, ◌≤◌, length, pos, nat_abs};
ghost use Rattle.words.specs.Words.{word_at};
ghost use Rattle.ledger.specs.Positions.{way_of};
ghost use Rattle.limits.specs.Lines.{largest_order, largest_position, largest_of_group};
ghost use Rattle.limits.specs.InBytes.{line_at, group_line_at, half_of, side_byte, line_part};

use ledger::order::Side;
use ledger::units::Contracts;
use std::marker::Model;
use words::fields::Field;
use words::part;

// An instrument's line, or a contract's default line.
#[derive(Clone, Copy)]
pub struct Line {
    pub tci: u32,
    pub tvi: u32,
    pub lci: u32,
    pub lvi: u32,
}

// A group's line.
#[derive(Clone, Copy)]
pub struct GroupLine {
    pub lcc: u32,
    pub lvc: u32,
}

// The bytes of an instrument's or a contract's line. They and a group's are two types: a line has figures that a group's has not, and the
// reader of one takes no bytes of the other.
#[derive(Drop)]
pub struct LineBytes<'a> {
    pub bytes: &'a [u8],
}

// A clause sees the bytes, which are there.
impl<'a> Model for LineBytes<'a> {
    ghost Value = { List ℕ };

    ghost view = { λ line. line.bytes.now };

    ghost invariant = { λ line. 16 ≤ length line.bytes.now };
}

// The bytes of a group's line.
#[derive(Drop)]
pub struct GroupLineBytes<'a> {
    pub bytes: &'a [u8],
}

impl<'a> Model for GroupLineBytes<'a> {
    ghost Value = { List ℕ };

    ghost view = { λ line. line.bytes.now };

    ghost invariant = { λ line. 8 ≤ length line.bytes.now };
}

// The four figures of the line in force: a part of the own lines where the own line is set, else of the default lines.
#[tactic(auto, using(words::proofs::Parts::length_part), unfolding(crate::specs::InBytes::line_part))]
pub fn line_in_force<'a>(
    own: &'a [u8],
    default: &'a [u8],
    own_is_set: bool,
    instrument: usize,
    contract: usize,
) -> &'a [u8]
    requires { (instrument * 16 + 16 ≤ length own.now) × (contract * 16 + 16 ≤ length default.now) }
    ensures figures { result.now ≡ line_part own.now default.now own_is_set instrument contract }
    ensures long { 16 ≤ length result.now }
{
    if own_is_set {
        part(own, instrument * 2, 2)
    } else {
        part(default, contract * 2, 2)
    }
}

// The first byte in a word of a side's figure.
fn side_byte(side: Side) -> usize
    ensures { result ≡ side_byte side }
{
    match side {
        Side::Buy => 0,
        Side::Sell => 4,
    }
}

// A side's figure in word `k`.
fn side_figure(line: &[u8], k: usize, side: Side) -> Contracts
    requires { k * 8 + 8 ≤ length line.now }
    ensures figure { result.0 ≡ pos (half_of side (word_at line.now k)) }
    ensures small { nat_abs result.0 < 2 ^ 32 }
{
    Contracts::of(u32::at(line, k * 8 + side_byte(side)) as u64)
}

// The figures of a line, each by its name and of one line: they differ in the word and in the definition that the clause names.
impl<'a> LineBytes<'a> {
    // TCI for Buy, TVI for Sell.
    pub fn largest_order(&self, side: Side) -> Contracts
        ensures { result.0 ≡ pos (largest_order side (line_at self.now 0)) }
    {
        side_figure(self.bytes, 0, side)
    }

    // LCI for Buy, LVI for Sell.
    pub fn largest_position(&self, side: Side) -> Contracts
        ensures { result.0 ≡ pos (largest_position (way_of side) (line_at self.now 0)) }
    {
        side_figure(self.bytes, 1, side)
    }
}

impl<'a> GroupLineBytes<'a> {
    // LCC for Buy, LVC for Sell.
    pub fn largest_position(&self, side: Side) -> Contracts
        ensures figure { result.0 ≡ pos (largest_of_group (way_of side) (group_line_at self.now 0)) }
        ensures small { nat_abs result.0 < 2 ^ 32 }
    {
        side_figure(self.bytes, 0, side)
    }
}
