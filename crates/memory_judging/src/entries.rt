// The judge of NEW, and of what a NEW and a REPLACE make of an order.
ghost use Rattle.std.specs.Prelude.{◌≡◌, IfOk};
ghost use Rattle.limits.specs.Lines.{is_set};
ghost use Rattle.limits.specs.Questions.{first_no};
ghost use Rattle.book.specs.declared.Event.TheVariants.{New};
ghost use Rattle.limits.specs.Answers.{number_of};
ghost use Rattle.book.specs.OpenOrders.{find};
ghost use Rattle.book.specs.Table.{id_free, place_free};
ghost use Rattle.memory_layout.specs.View.{open_orders, book_of};
ghost use Rattle.memory_layout.specs.Stores.{rank};
ghost use Rattle.memory_layout.specs.Judged.{judged, NamedAt};
ghost use Rattle.memory_judging.specs.QuestionsLeft.{left_after};
ghost use Rattle.memory_judging.specs.Entries.{entry_event, former_total, Enters};

use crate::order_checks::OrderAtDesk;
use crate::ranges::is_quantity;
use book::Item;
use ledger::detail::Detail;
use ledger::order::{Order, Side};
use limits::answer::{Answer, Refusal};
use memory_layout::orders::Named;
use memory_soundness::sound_desk::SoundDesk;

// How an order comes to be as it is: a NEW's joins the open orders at a place; a REPLACE's is open, with a total that stood before.
#[derive(Clone, Copy)]
pub enum Entry {
    Joins { place: usize },
    Replaces { former: u64 },
}

impl Entry {
    // The total that the order had.
    fn former_total(self) -> u64
        ensures { result ≡ former_total self }
    {
        match self {
            Entry::Joins { .. } => 0,
            Entry::Replaces { former } => former,
        }
    }
}

// Whether an order with that id is open, `p` being the place of the first larger id. Ids ascend, so that it stands just before `p`: one
// comparison, and no search.
#[tactic(auto, using(crate::proofs::Places::placing))]
fn is_open(desk: &SoundDesk, p: usize, id: u64) -> bool
    requires { p ≡ rank id (open_orders desk.now) }
    ensures { result ≡ is_set (find id (open_orders desk.now)) }
{
    let orders = desk.orders();
    0 < p && orders.id_at(p - 1) == id
}

// An order as a NEW enters it or a REPLACE makes it, asked about at a sound desk.
#[derive(Drop)]
pub struct Entering<'a> {
    pub desk: &'a SoundDesk<'a>,
    pub order: Order,
    pub how: Entry,
    ghost enters: { ∥ Enters desk.now order how ∥₁ },
}

impl<'a> Entering<'a> {
    // 13: is the id of a new order not open?
    #[tactic(auto, using(crate::proofs::Rises::of_new_alone))]
    fn id_is_free(&self) -> bool
        ensures { result ≡ id_free (book_of self.now.desk.now) (entry_event self.now.how self.now.order) }
    {
        match self.how {
            Entry::Joins { place } => !is_open(self.desk, place, self.order.id),
            Entry::Replaces { .. } => true,
        }
    }

    // 18: are fewer than 256 orders open, where one would join?
    #[tactic(auto, using(crate::proofs::Rises::of_new_alone))]
    fn place_is_free(&self) -> bool
        ensures { result ≡ place_free (book_of self.now.desk.now) (entry_event self.now.how self.now.order) }
    {
        let desk = self.desk;
        match self.how {
            Entry::Joins { .. } => desk.memory.count() < 256,
            Entry::Replaces { .. } => true,
        }
    }

    // 13 to 24. Where its total does not rise, no more than 13 is asked.
    #[tactic(auto, using(crate::proofs::Rises::entering))]
    pub fn answer(&self) -> Answer
        ensures { number_of result ≡ first_no (left_after 12 self.now.desk.now (entry_event self.now.how self.now.order)) }
    {
        if !self.id_is_free() {
            return Err(Refusal::DuplicateOrder);
        }
        let former = self.how.former_total();
        if self.order.total <= former {
            return Ok(());
        }
        let order = OrderAtDesk::of(self.desk, &self.order);
        order.admitted()?;
        if !self.place_is_free() {
            return Err(Refusal::NoPlaceFree);
        }
        order.within_limits(self.order.total - former)
    }
}

// NEW: questions 7 to 9 and 13 to 24.
#[tactic(auto, using(crate::proofs::Rises::joining), unfolding(crate::specs::Entries::entry_event, book::specs::Books::new_order))]
pub fn judge_new(
    desk: &SoundDesk,
    side: Side,
    account: u64,
    instrument: u64,
    id: u64,
    quantity: i64,
) -> Result<Named, Refusal>
    ensures answer { number_of result ≡ judged desk.now (New side account instrument id quantity) }
    ensures named { IfOk result
        (λ named. NamedAt desk.now (New side account instrument id quantity) named.place named.detail.0) }
{
    if !desk.memory.account_known(account) {
        return Err(Refusal::UnknownAccount);
    }
    if !desk.memory.item_known(Item::Instrument(instrument)) {
        return Err(Refusal::UnknownItem);
    }
    if !is_quantity(quantity) {
        return Err(Refusal::FigureOutOfRange);
    }
    let o = Order {
        id,
        account,
        instrument,
        side,
        total: quantity as u64,
        filled: 0,
    };
    let place = desk.ranked().place(id);
    Entering {
        desk,
        order: o,
        how: Entry::Joins { place },
    }
    .answer()?;
    Ok(Named {
        place,
        detail: Detail::of(o),
    })
}
