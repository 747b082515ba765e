// The potential positions of an account on a derivatives desk, by instrument and by group. They know no limit: `limits` stands above.
#![tactic(auto)]

ghost use Rattle.std.specs.Prelude.{◌≡◌, ℕ, ◌+◌, ◌≤◌, ◌<◌, pos, neg_ℤ, nat_abs, ◌+ℤ◌, ◌≤ℤ◌, length, get_or};
ghost use Rattle.ledger.specs.Roster.{Numbered};
ghost use Rattle.ledger.specs.Positions.{Way, toward, way_of, group_part};
ghost use Rattle.ledger.specs.Records.{packed_side, packed_instrument, orders_of, balances_in, roster_in};
ghost use Rattle.ledger.specs.Derivatives.{counted};
ghost use Rattle.positions.specs.Gathered.{on_way, cell, added, Gathered, by_cells, part_by_cells, sum_by_cells};
ghost use Rattle.positions.specs.Answers.{InGroup};
ghost use Rattle.positions.specs.Bounds.{GatherBounds, WeighBounds, GroupBounds};

use ledger::detail::Detail;
use ledger::order::{Order, Side};
use ledger::records::{Record, detail_of};
use ledger::roster::RosterBytes;
use ledger::units::{Contracts, Weighted};
use words::signed_word;

// The balance of an instrument and its potential positions.
#[derive(Clone, Copy)]
pub struct InstrumentPosition {
    pub balance: Contracts,
    pub long: Contracts,
    pub short: Contracts,
}

// The potential positions of a group.
#[derive(Clone, Copy)]
pub struct GroupPosition {
    pub long: Weighted,
    pub short: Weighted,
}

// What remains of the order where it stands on that side of the account and instrument, else 0.
pub fn counted(o: Order, side: Side, account: u64, instrument: u64) -> u64
    ensures { result ≡ counted o side account instrument }
{
    if o.account == account && o.instrument == instrument && o.side == side {
        o.remaining()
    } else {
        0
    }
}

// PCI = S + B for Buy, PVI = −S + V for Sell.
pub fn potential(side: Side, balance: Contracts, unfilled: Contracts) -> Contracts
    requires { nat_abs balance.0 + nat_abs unfilled.0 ≤ 9000000000000000000 }
    ensures { result.0 ≡ toward (way_of side) balance.0 +ℤ unfilled.0 }
{
    match side {
        Side::Buy => balance + unfilled,
        Side::Sell => -balance + unfilled,
    }
}

// The positions of an instrument by its balance, B and V.
pub fn position_by(balance: Contracts, buys: Contracts, sells: Contracts) -> InstrumentPosition
    requires { (nat_abs balance.0 + nat_abs buys.0 ≤ 9000000000000000000)
        × (nat_abs balance.0 + nat_abs sells.0 ≤ 9000000000000000000) }
    ensures { (result.balance.0 ≡ balance.0) × (result.long.0 ≡ balance.0 +ℤ buys.0) × (result.short.0 ≡ neg_ℤ balance.0 +ℤ sells.0) }
{
    InstrumentPosition {
        balance,
        long: potential(Side::Buy, balance, buys),
        short: potential(Side::Sell, balance, sells),
    }
}

// The position on a side. (`limits` has this of a group's: another unit, and a choice between two names.)
fn on_side(side: Side, long: Contracts, short: Contracts) -> Contracts
    ensures { result.0 ≡ on_way (way_of side) long.0 short.0 }
{
    match side {
        Side::Buy => long,
        Side::Sell => short,
    }
}

// An instrument's part in its group's position on a side: by the sign of its weight, of the same side or of the other.
fn group_part(side: Side, weight: i64, long: Contracts, short: Contracts) -> Weighted
    requires { (nat_abs weight ≤ 1000000) × (nat_abs long.0 ≤ 200000000000) × (nat_abs short.0 ≤ 200000000000) }
    ensures { result.0 ≡ group_part (way_of side) weight (λ w. on_way w long.0 short.0) }
{
    if weight < 0 {
        on_side(side.opposite(), long, short) * -weight
    } else {
        on_side(side, long, short) * weight
    }
}

// The cell of an account's B or V, from its first cell on.
pub fn cell(side: Side, instrument: u64) -> usize
    requires { instrument ≤ 32 }
    ensures { result ≡ cell side instrument }
{
    match side {
        Side::Buy => instrument as usize,
        Side::Sell => 32 + instrument as usize,
    }
}

// Adds contracts to a cell.
pub fn add_to(cells: &mut [u64], j: usize, n: Contracts)
    requires { (j < length cells.old) × (pos 0 ≤ℤ n.0) × (get_or cells.old j 0 + nat_abs n.0 ≤ 9000000000000000000) }
    ensures { cells.new ≡ added cells.old j (nat_abs n.0) }
{
    cells[j] = (Contracts::of(cells[j]) + n).number();
}

// The cell of the order that a detail says, from its account's first cell on.
fn cell_of(w: Detail) -> usize
    ensures { result ≡ cell (packed_side w.0) (packed_instrument w.0) }
{
    (w.0 % 64 + 1) as usize
}

// Gathers B and V of the account and each instrument, in one pass over the orders. It has no branch that could be mispredicted: an order
// of another account adds 0.
pub fn gather(orders: &[Record], account: u64, cells: &mut [u64; 65])
    requires { GatherBounds (orders_of orders.now) account × (length cells.old ≡ 65) × ((j : ℕ) → get_or cells.old j 0 ≡ 0) }
    ensures { (length cells.new ≡ 65)
        × Gathered cells.new 0 (orders_of orders.now) account }
{
    for order in orders {
        let w = detail_of(order);
        add_to(cells, cell_of(w), Contracts::of(w.remaining_for(account)));
    }
}

// What the positions of an account are computed from: its B and V in cells, its balances, and the roster.
#[derive(Clone, Copy)]
pub struct Account<'a> {
    pub cells: &'a [u64],
    pub balances: &'a [u8],
    pub roster: &'a RosterBytes<'a>,
    ghost bounds: { WeighBounds cells.now balances.now roster.now },
}

impl<'a> Account<'a> {
    // The positions of instrument `i` by the cells.
    pub fn instrument(&self, i: usize) -> InstrumentPosition
        requires { Numbered (roster_in self.now.roster.now).instruments i }
        ensures { (w : Way) → on_way w result.long.0 result.short.0
            ≡ by_cells self.now.cells.now (balances_in self.now.balances.now) i w }
    {
        let balance = Contracts(signed_word(self.balances, i));
        let buys = Contracts::of(self.cells[i]);
        let sells = Contracts::of(self.cells[32 + i]);
        position_by(balance, buys, sells)
    }

    // A group's positions with the part of instrument `i` added, where it is of the group.
    fn with_part(&self, sum: GroupPosition, group: u64, i: usize) -> GroupPosition
        requires { Numbered (roster_in self.now.roster.now).instruments i
            × ((w : Way) → nat_abs (on_way w sum.long.0 sum.short.0) ≤ 8000000000000000000) }
        ensures { (w : Way) → on_way w result.long.0 result.short.0 ≡ on_way w sum.long.0 sum.short.0 +ℤ part_by_cells
            self.now.cells.now (balances_in self.now.balances.now) (roster_in self.now.roster.now) group i w }
    {
        if self.roster.group_of_instrument(i) != group {
            return sum;
        }
        let weight = self.roster.weight_of(i);
        let at = self.instrument(i);
        GroupPosition {
            long: sum.long + group_part(Side::Buy, weight, at.long, at.short),
            short: sum.short + group_part(Side::Sell, weight, at.long, at.short),
        }
    }

    // The sums of the parts of the group's instruments, in one pass over the roster.
    pub fn group(&self, group: u64) -> GroupPosition
        ensures { (w : Way) → on_way w result.long.0 result.short.0 ≡ sum_by_cells self.now.cells.now (balances_in self.now.balances.now)
            (roster_in self.now.roster.now) group (roster_in self.now.roster.now).instruments w }
    {
        let mut sum = GroupPosition {
            long: Weighted::none(),
            short: Weighted::none(),
        };
        for i in 1..=self.roster.instruments() as usize {
            sum = self.with_part(sum, group, i);
        }
        sum
    }
}

// The positions of the account in a group: one pass over the orders, one over the roster's instruments.
pub fn group_position(
    orders: &[Record],
    balances: &[u8],
    roster: &RosterBytes,
    account: u64,
    group: u64,
) -> GroupPosition
    requires { GroupBounds (orders_of orders.now) balances.now roster.now account }
    ensures { InGroup (orders_of orders.now) balances.now roster.now account group result }
{
    let mut cells = [0u64; 65];
    gather(orders, account, &mut cells);
    Account {
        cells: &cells,
        balances,
        roster,
    }
    .group(group)
}
