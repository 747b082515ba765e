// Questions 14 to 17 and 19 to 24 at a sound desk, of the order that a NEW enters or a REPLACE raises. 18 stands between them and is
// the caller's.
ghost use Rattle.std.specs.Prelude.{◌≡◌, List, ◌≤◌, length};
ghost use Rattle.ledger.specs.declared.order.Order.{Order};
ghost use Rattle.limits.specs.Lines.{line_in_force};
ghost use Rattle.limits.specs.Raised.{Raised};
ghost use Rattle.limits.specs.Questions.{first_no};
ghost use Rattle.limits.specs.Numbers.{existence_questions};
ghost use Rattle.limits.specs.Answers.{number_of};
ghost use Rattle.positions.specs.Gathered.{Gathered};
ghost use Rattle.memory_layout.specs.View.{roster_of, lines_of, open_orders};
ghost use Rattle.memory_layout.specs.Readable.{HoldsLine};
ghost use Rattle.memory_judging.specs.OrderQuestions.{admission, within_limits, PositionsAnswered, OnRoster, Sizable};
ghost use Rattle.memory_judging.specs.OrderFields.{AskedAt, cells_of};

use ledger::order::Order;
use ledger::units::Contracts;
use limits::answer::{Answer, Refusal};
use limits::lines::LineBytes;
use limits::questions::{limits_exist, order_size};
use limits::within::positions_within;
use memory_soundness::sound_desk::SoundDesk;
use positions::{Account, gather};

// B and V of an account.
#[tactic(auto, unfolding(crate::specs::OrderFields::cells_of))]
fn cells_of<'a>(cells: &'a [u64], account: usize) -> &'a [u64]
    requires { (length cells.now ≡ 1089) × (account ≤ 16) }
    ensures { result.now ≡ cells_of cells.now account }
{
    &cells[account * 64..account * 64 + 65]
}

// An order of the roster, asked about at a sound desk, with the contract and the group of its instrument.
#[derive(Drop)]
pub struct OrderAtDesk<'a> {
    desk: &'a SoundDesk<'a>,
    order: &'a Order,
    contract: usize,
    group: usize,
    ghost asked: { AskedAt desk.now order.now contract group },
}

impl<'a> OrderAtDesk<'a> {
    // Contract and group are looked up once for an event.
    #[tactic(auto, using(crate::proofs::OrderAnswers::asked_of))]
    pub fn of(desk: &'a SoundDesk<'a>, order: &'a Order) -> OrderAtDesk<'a>
        requires { OnRoster desk.now order.now }
        ensures { (result.desk.now ≡ desk.now) × (result.order.now ≡ order.now) }
    {
        let readable = desk.readable();
        let contract = readable.contract_of(order.instrument as usize);
        let group = readable.group_of(contract);
        OrderAtDesk {
            desk,
            order,
            contract,
            group,
        }
    }

    // 17.
    fn configured(&self) -> Answer
        ensures { number_of result ≡ first_no (existence_questions (roster_of self.now.desk.now)
            (lines_of self.now.desk.now self.now.order.now.account) self.now.order.now) }
    {
        let account = self.desk.account(self.order.account as usize);
        limits_exist(
            account.own_is_set(self.order.instrument as usize),
            account.default_is_set(self.contract),
            account.group_is_set(self.group),
        )
    }

    // 14 to 17: are account, instrument and group unblocked, and are the limits set?
    #[tactic(auto, using(crate::proofs::OrderAnswers::admission_answer))]
    pub fn admitted(&self) -> Answer
        ensures { number_of result ≡ first_no (admission self.now.desk.now self.now.order.now) }
    {
        let desk = self.desk;
        let account = desk.account(self.order.account as usize);
        let instrument = self.order.instrument as usize;
        if account.is_blocked() {
            return Err(Refusal::AccountBlocked);
        }
        if desk.readable().instrument_is_blocked(instrument) {
            return Err(Refusal::InstrumentBlocked);
        }
        if account.group_is_blocked(self.group) {
            return Err(Refusal::GroupBlocked);
        }
        self.configured()
    }

    // 21 to 24, by B and V of the order's account.
    #[tactic(auto, using(crate::proofs::OrderAnswers::parts))]
    fn positions_by(&self, own: &[u64], added: u64, line: &LineBytes) -> Answer
        requires { Sizable self.now.desk.now self.now.order.now added
            × HoldsLine line.now (line_in_force (roster_of self.now.desk.now)
            (lines_of self.now.desk.now self.now.order.now.account) self.now.order.now.instrument)
            × (length own.now ≡ 65)
            × Gathered own.now 0 (open_orders self.now.desk.now) self.now.order.now.account }
        ensures { PositionsAnswered self.now.desk.now self.now.order.now added (number_of result) }
    {
        let desk = self.desk;
        let roster = desk.memory.roster();
        let at_desk = desk.account(self.order.account as usize);
        let account = Account {
            cells: own,
            balances: at_desk.memory.balances(at_desk.number),
            roster: &roster,
        };
        let group_line = at_desk.group_line(self.group);
        positions_within(
            &account,
            line,
            &group_line,
            *self.order,
            Contracts::of(added),
            self.group as u64,
        )
    }

    // 19 to 24, of the order as the event enters it or raises it to, `added` contracts more of it then being open. Where no cells are
    // kept, the row of its account is gathered.
    #[tactic(auto, using(crate::proofs::OrderAnswers::within, crate::proofs::Cells::rows))]
    pub fn within_limits(&self, added: u64) -> Answer
        requires { Sizable self.now.desk.now self.now.order.now added }
        ensures { (after : List Order) →
            Raised added self.now.order.now (open_orders self.now.desk.now) after →
            number_of result ≡ first_no (within_limits self.now.desk.now after self.now.order.now) }
    {
        let desk = self.desk;
        let o = self.order;
        let line = desk
            .account(o.account as usize)
            .line_in_force(o.instrument as usize, self.contract);
        order_size(&line, o.side, Contracts::of(o.total))?;
        if desk.cells.is_empty() {
            let mut own = [0u64; 65];
            gather(desk.orders().records(), o.account, &mut own);
            return self.positions_by(&own, added, &line);
        }
        self.positions_by(cells_of(desk.cells, o.account as usize), added, &line)
    }
}
