// Questions 21 to 24: are the positions with the event applied within their limits.
// A side of a position is named by the orders that move an instrument there: Buy long, Sell short.
ghost use Rattle.std.specs.Prelude.{◌≡◌, List, ℕ, ◌≤◌, pos, nat_abs, ◌+ℤ◌, ◌*ℤ◌};
ghost use Rattle.ledger.specs.declared.order.Order.{Order};
ghost use Rattle.ledger.specs.Roster.{Numbered, group_of_instrument};
ghost use Rattle.ledger.specs.Positions.{way_of, way_by};
ghost use Rattle.ledger.specs.Records.{balances_in, roster_in};
ghost use Rattle.ledger.specs.Derivatives.{one};
ghost use Rattle.positions.specs.Gathered.{on_way, Gathered, by_cells, sum_by_cells};
ghost use Rattle.limits.specs.Lines.{Lines};
ghost use Rattle.limits.specs.Questions.{first_no};
ghost use Rattle.limits.specs.Asked.{position_questions};
ghost use Rattle.limits.specs.Raised.{Raised};
ghost use Rattle.limits.specs.Answers.{number_of, refusal_number};
ghost use Rattle.limits.specs.Numbers.{instrument_number, group_number};
ghost use Rattle.limits.specs.Bounds.{InForce, OfGroup};

use crate::answer::{Answer, Refusal};
use crate::lines::{GroupLineBytes, LineBytes};
use ledger::order::{Order, Side};
use ledger::units::{Contracts, Weighted};
use positions::{Account, GroupPosition, cell, potential};
use words::signed_word;

// 21 or 22, as in questions.rt.
fn instrument_refusal(side: Side) -> Refusal
    ensures { refusal_number result ≡ instrument_number (way_of side) }
{
    match side {
        Side::Buy => Refusal::InstrumentTooLong,
        Side::Sell => Refusal::InstrumentTooShort,
    }
}

// 23 or 24, likewise.
fn group_refusal(side: Side) -> Refusal
    ensures { refusal_number result ≡ group_number (way_of side) }
{
    match side {
        Side::Buy => Refusal::GroupTooLong,
        Side::Sell => Refusal::GroupTooShort,
    }
}

// The side to which an order on `side` moves its group, by the sign of K.
fn group_side(side: Side, weight: i64) -> Side
    ensures { way_of result ≡ way_by weight (way_of side) }
{
    if weight < 0 { side.opposite() } else { side }
}

fn on_side(side: Side, at: GroupPosition) -> Weighted
    ensures { result.0 ≡ on_way (way_of side) at.long.0 at.short.0 }
{
    match side {
        Side::Buy => at.long,
        Side::Sell => at.short,
    }
}

// PCI for Buy, PVI for Sell, of the order's account and instrument, with `added` more contracts of the order open. (Its bound stands in
// three clauses: a type for it would be made for these calls alone.)
fn instrument_with(account: &Account, o: Order, added: Contracts) -> Contracts
    requires { Numbered (roster_in account.now.roster.now).instruments o.instrument × (nat_abs added.0 ≤ 1000000000) }
    ensures { result.0 ≡ by_cells account.now.cells.now (balances_in account.now.balances.now) o.instrument (way_of o.side) +ℤ added.0 }
{
    let balance = Contracts(signed_word(account.balances, o.instrument as usize));
    let before = Contracts::of(account.cells[cell(o.side, o.instrument)]);
    potential(o.side, balance, before + added)
}

// PCC for `to` Buy, PVC for Sell, of an account and group, with `added` more contracts of weight K on that side.
fn group_with(account: &Account, group: u64, added: Contracts, weight: i64, to: Side) -> Weighted
    requires { (nat_abs added.0 ≤ 1000000000) × (nat_abs weight ≤ 1000000) }
    ensures { let desk = roster_in account.now.roster.now in
        result.0
        ≡ sum_by_cells account.now.cells.now (balances_in account.now.balances.now) desk group desk.instruments (way_of to)
        +ℤ pos (nat_abs weight) *ℤ added.0 }
{
    let before = account.group(group);
    on_side(to, before) + added * weight.abs()
}

// 21 to 24, of the order as the event enters it or raises it to: with `added` more contracts of it open, is PCI or PVI at most
// the line in force's limit, and PCC or PVC at most the group line's times 10,000? The cells hold B and V of its account, and `group`
// is the number of its group.
pub fn positions_within(
    account: &Account,
    line: &LineBytes,
    group_line: &GroupLineBytes,
    o: Order,
    added: Contracts,
    group: u64,
) -> Answer
    requires { Numbered (roster_in account.now.roster.now).instruments o.instrument
        × (nat_abs added.0 ≤ 1000000000)
        × (group ≡ group_of_instrument (roster_in account.now.roster.now) o.instrument) }
    ensures { let r = roster_in account.now.roster.now in
        (ls : Lines) (n : ℕ) (before after : List Order) →
        added.0 ≡ pos n →
        Gathered account.now.cells.now 0 before o.account →
        InForce r ls o line.now →
        OfGroup r ls o group_line.now →
        Raised n o before after →
        number_of result ≡ first_no (position_questions one r ls after (balances_in account.now.balances.now) o) }
{
    if instrument_with(account, o, added) > line.largest_position(o.side) {
        return Err(instrument_refusal(o.side));
    }
    let weight = account.roster.weight_of(o.instrument as usize);
    if weight == 0 {
        return Ok(());
    }
    let to = group_side(o.side, weight);
    if group_with(account, group, added, weight, to) > group_line.largest_position(to) * 10000 {
        return Err(group_refusal(to));
    }
    Ok(())
}
