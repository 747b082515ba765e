// The judge of REPLACE, CANCEL and FILL.
ghost use Rattle.std.specs.Prelude.{◌≡◌, cond, ℕ, leb, pos, IfOk};
ghost use Rattle.ledger.specs.Orders.{remaining};
ghost use Rattle.ledger.specs.Records.{order_of};
ghost use Rattle.limits.specs.Questions.{first_no};
ghost use Rattle.limits.specs.Answers.{number_of};
ghost use Rattle.book.specs.declared.OrderChange.TheVariants.{Replace};
ghost use Rattle.book.specs.declared.Event.TheVariants.{Change};
ghost use Rattle.book.specs.Table.{change_in_range};
ghost use Rattle.memory_layout.specs.Judged.{judged, NamedAt};
ghost use Rattle.memory_judging.specs.QuestionsLeft.{left_after};
ghost use Rattle.memory_judging.specs.Entries.{Changeable};

use crate::entries::{Entering, Entry};
use crate::ranges::is_quantity;
use book::OrderChange;
use ledger::detail::Detail;
use ledger::order::Order;
use limits::answer::{Answer, Refusal};
use memory_layout::orders::Named;
use memory_soundness::sound_desk::SoundDesk;

// 9: is the figure of a change in range?
fn change_in_range(change: OrderChange) -> bool
    ensures { result ≡ change_in_range change }
{
    match change {
        OrderChange::Replace { total } => is_quantity(total),
        OrderChange::Cancel => true,
        OrderChange::Fill { quantity } => is_quantity(quantity),
    }
}

// 12 to 24 of a REPLACE of order `o`.
#[tactic(auto, using(crate::proofs::ByKind::changes_left))]
fn replaced(desk: &SoundDesk, o: Order, total: u64) -> Answer
    requires { Changeable desk.now o (Replace (pos total)) }
    ensures { number_of result ≡ first_no (left_after 11 desk.now (Change o.id (Replace (pos total)))) }
{
    if total <= o.filled {
        return Err(Refusal::QuantityOutOfRange);
    }
    Entering {
        desk,
        order: o.replaced_total(total),
        how: Entry::Replaces { former: o.total },
    }
    .answer()
}

// 12 of a FILL of the order of a detail.
fn filled(w: Detail, quantity: u64) -> Answer
    ensures { (id : ℕ) → number_of result ≡ cond (leb quantity (remaining (order_of id w.0))) 0 12 }
{
    if quantity <= w.remaining() {
        Ok(())
    } else {
        Err(Refusal::QuantityOutOfRange)
    }
}

// 12 to 24 of a change of the order of that id and detail.
#[tactic(auto, using(crate::proofs::ByKind::changes_left))]
fn change_answer(desk: &SoundDesk, id: u64, w: Detail, change: OrderChange) -> Answer
    requires { Changeable desk.now (order_of id w.0) change }
    ensures { number_of result ≡ first_no (left_after 11 desk.now (Change id change)) }
{
    match change {
        OrderChange::Replace { total } => replaced(desk, w.order(id), total as u64),
        OrderChange::Cancel => Ok(()),
        OrderChange::Fill { quantity } => filled(w, quantity as u64),
    }
}

// REPLACE, CANCEL and FILL: questions 9, 11, 12 and, of a REPLACE that raises, 14 to 24. The order is found and its detail loaded once.
#[tactic(auto, using(crate::proofs::ByKind::change_judged, crate::proofs::Places::finding), unfolding(ledger::specs::Records::order_of))]
pub fn judge_change(desk: &SoundDesk, id: u64, change: OrderChange) -> Result<Named, Refusal>
    ensures answer { number_of result ≡ judged desk.now (Change id change) }
    ensures named { IfOk result (λ named. NamedAt desk.now (Change id change) named.place named.detail.0) }
{
    if !change_in_range(change) {
        return Err(Refusal::FigureOutOfRange);
    }
    let place = desk.ranked().find_order(id).ok_or(Refusal::OrderNotFound)?;
    let detail = desk.orders().detail_at(place);
    change_answer(desk, id, detail, change)?;
    Ok(Named { place, detail })
}
