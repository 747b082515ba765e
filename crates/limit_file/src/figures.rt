// The limits of an element: all of them are there, or none.
ghost use Rattle.std.specs.Prelude.{◌≡◌};
ghost use Rattle.grammar.specs.Reader.{numbers_at};
ghost use Rattle.grammar.specs.Found.{found};
ghost use Rattle.limit_file.specs.Layout.{two, four};

use grammar::bytes::Cursor;
use std::marker::Model;

// The limits of a group, in the file's order. No figure has more than ten digits.
#[derive(Clone, Copy)]
pub struct GroupLimits {
    pub long: u64,
    pub short: u64,
}

// The limits of a contract or an instrument, likewise.
#[derive(Clone, Copy)]
pub struct Limits {
    pub long: u64,
    pub short: u64,
    pub bid: u64,
    pub offer: u64,
}

// A clause sees the numbers as the file has them.
impl Model for GroupLimits {
    ghost use Rattle.std.specs.Prelude.{ℕ, ◌≤◌};

    ghost Value = { ℕ × (ℕ × Unit {0}) };

    ghost view = { λ l. (l.long, (l.short, tt)) };

    ghost inverse = { λ n. record { long = n.0; short = n.1.0 } };

    ghost invariant = { λ l. (l.long ≤ 9999999999) × (l.short ≤ 9999999999) };
}

impl Model for Limits {
    ghost use Rattle.std.specs.Prelude.{ℕ, ◌≤◌};

    ghost Value = { ℕ × (ℕ × (ℕ × (ℕ × Unit {0}))) };

    ghost view = { λ l. (l.long, (l.short, (l.bid, (l.offer, tt)))) };

    ghost inverse = { λ n. record { long = n.0; short = n.1.0; bid = n.1.1.0; offer = n.1.1.1.0 } };

    ghost invariant = { λ l. (l.long ≤ 9999999999) × (l.short ≤ 9999999999) × (l.bid ≤ 9999999999) × (l.offer ≤ 9999999999) };
}

impl GroupLimits {
    // The limits of a group at `at`.
    #[tactic(auto, unfolding(grammar::specs::Reader::numbers_at))]
    #[inline(always)]
    pub fn read<'a>(at: &Cursor<'a>) -> Option<(GroupLimits, Cursor<'a>)>
        ensures { result ≡ found at.now.bytes (numbers_at at.now.bytes two at.now.at) }
    {
        let (long, at) = at.number(b"LongLmt=\"")?;
        let (short, at) = at.number(b"ShortLmt=\"")?;
        Some((GroupLimits { long, short }, at))
    }
}

impl Limits {
    // The limits of a contract or an instrument at `at`: those that a group has, and two more. A function of its own in the program too:
    // in the code of a whole load its loops would be short of registers.
    #[tactic(auto, unfolding(grammar::specs::Reader::numbers_at))]
    #[inline(never)]
    pub fn read<'a>(at: &Cursor<'a>) -> Option<(Limits, Cursor<'a>)>
        ensures { result ≡ found at.now.bytes (numbers_at at.now.bytes four at.now.at) }
    {
        let (GroupLimits { long, short }, at) = GroupLimits::read(at)?;
        let (bid, at) = at.number(b"MaxBidQty=\"")?;
        let (offer, at) = at.number(b"MaxOfrQty=\"")?;
        Some((
            Limits {
                long,
                short,
                bid,
                offer,
            },
            at,
        ))
    }
}
