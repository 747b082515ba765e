// Reading positions from a desk's memory, which changes nothing in it.
#![tactic(auto)]

ghost use Rattle.std.specs.Prelude.{◌≡◌, OnOk, IfOk};
ghost use Rattle.ledger.specs.Roster.{Numbered};
ghost use Rattle.limits.specs.Answers.{number_of};
ghost use Rattle.memory_layout.specs.View.{roster_of};
ghost use Rattle.book.specs.Table.{is_listed};
ghost use Rattle.memory_reading.specs.Reading.{item_answer};
ghost use Rattle.memory_reading.specs.Reading.{instrument_answer, group_answer, instrument_report, group_report, reported};

use book::Item;
use limits::answer::{Answer, Refusal};
use memory_soundness::is_sound;
use memory_soundness::sound_desk::SoundDesk;
use order_list::listed_position;
use positions::group_position;

// S, PCI and PVI.
fn instrument_report(desk: &SoundDesk, account: u64, instrument: u64) -> [i64; 3]
    requires { Numbered (roster_of desk.now).accounts account × Numbered (roster_of desk.now).instruments instrument }
    ensures { result ≡ instrument_report desk.now account instrument }
{
    let at = listed_position(
        desk.orders().records(),
        desk.memory.balances(account as usize),
        account,
        instrument,
    );
    [at.balance.0, at.long.0, at.short.0]
}

// PCC and PVC.
fn group_report(desk: &SoundDesk, account: u64, group: u64) -> [i64; 2]
    requires { Numbered (roster_of desk.now).accounts account }
    ensures { result ≡ group_report desk.now account group }
{
    let at = group_position(
        desk.orders().records(),
        desk.memory.balances(account as usize),
        &desk.memory.roster(),
        account,
        group,
    );
    [at.long.0, at.short.0]
}

// The desk, where 5, 7 and 8 of an account and an item are answered yes, in that order.
#[tactic(auto, using(crate::proofs::Reports::held), unfolding(crate::specs::Reading::item_answer, limits::specs::Questions::first_no))]
fn asked<'a>(m: &'a [u8], account: u64, item: Item) -> Result<SoundDesk<'a>, Refusal>
    ensures answer { number_of result ≡ item_answer m.now account item }
    ensures desk { IfOk result (λ desk. desk ≡ m.now) }
{
    if !is_sound(m) {
        return Err(Refusal::NoSoundDesk);
    }
    let desk = SoundDesk::of(m);
    if !desk.memory.account_known(account) {
        return Err(Refusal::UnknownAccount);
    }
    if !desk.memory.item_known(item) {
        return Err(Refusal::UnknownItem);
    }
    Ok(desk)
}

// S, PCI and PVI of an account and instrument to `report`. The report is lent, as the exported
// functions have it. What both readers share is `asked`; the rest is a report of its own length.
#[tactic(auto, using(crate::proofs::Reports::of_instrument, crate::proofs::Reports::accepts))]
pub fn read_instrument(m: &[u8], account: u64, instrument: u64, report: &mut [i64; 3]) -> Answer
    ensures answer { number_of result ≡ instrument_answer m.now account instrument }
    ensures report { report.new
        ≡ reported (instrument_answer m.now account instrument)
        (instrument_report m.now account instrument) report.old }
{
    let desk = asked(m, account, Item::Instrument(instrument))?;
    *report = instrument_report(&desk, account, instrument);
    Ok(())
}

// PCC and PVC of an account and group, in ten-thousandths, to `report`.
#[tactic(auto, using(crate::proofs::Reports::of_group, crate::proofs::Reports::accepts))]
pub fn read_group(m: &[u8], account: u64, group: u64, report: &mut [i64; 2]) -> Answer
    ensures answer { number_of result ≡ group_answer m.now account group }
    ensures report { report.new
        ≡ reported (group_answer m.now account group)
        (group_report m.now account group) report.old }
{
    let desk = asked(m, account, Item::Group(group))?;
    *report = group_report(&desk, account, group);
    Ok(())
}
