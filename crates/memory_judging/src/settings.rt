// The judge of settings: LIMIT, BALANCE and BLOCK. Each asks 7 to 9 in the same order, of fields that the other two have not: one function
// of all three would take what each names and its range as options, and no test would be less.
ghost use Rattle.std.specs.Prelude.{◌≡◌};
ghost use Rattle.book.specs.declared.Setting.TheVariants.{Limit, Balance, Block};
ghost use Rattle.book.specs.declared.Event.TheVariants.{Set};
ghost use Rattle.limits.specs.Answers.{number_of};
ghost use Rattle.memory_layout.specs.Judged.{judged};

use crate::known::{blocked_account_known, blocked_item_known, line_known};
use crate::ranges::{is_balance, is_switch, limit_fits};
use book::{Blocked, Item, LimitLine, Setting};
use limits::answer::{Answer, Refusal};
use memory_soundness::sound_desk::SoundDesk;

// LIMIT: questions 7 to 9.
#[tactic(auto, using(crate::proofs::ByKind::limit_judged))]
pub fn judge_limit(desk: &SoundDesk, account: u64, line: LimitLine) -> Answer
    ensures { number_of result ≡ judged desk.now (Set (Limit account line)) }
{
    if !desk.memory.account_known(account) {
        return Err(Refusal::UnknownAccount);
    }
    if !line_known(&desk.memory, line) {
        return Err(Refusal::UnknownItem);
    }
    if !limit_fits(desk.memory.market().largest, line) {
        return Err(Refusal::FigureOutOfRange);
    }
    Ok(())
}

// BALANCE: questions 7 to 10.
#[tactic(auto, using(crate::proofs::ByKind::balance_judged))]
pub fn judge_balance(desk: &SoundDesk, account: u64, instrument: u64, balance: i64) -> Answer
    ensures { number_of result ≡ judged desk.now (Set (Balance account instrument balance)) }
{
    if !desk.memory.account_known(account) {
        return Err(Refusal::UnknownAccount);
    }
    if !desk.memory.item_known(Item::Instrument(instrument)) {
        return Err(Refusal::UnknownItem);
    }
    if !is_balance(desk.memory.market().largest, balance) {
        return Err(Refusal::FigureOutOfRange);
    }
    if desk.account(account as usize).is_trading() {
        return Err(Refusal::AlreadyTrading);
    }
    Ok(())
}

// BLOCK: questions 7 to 9.
#[tactic(auto, using(crate::proofs::ByKind::block_judged))]
pub fn judge_block(desk: &SoundDesk, what: Blocked, on: i64) -> Answer
    ensures { number_of result ≡ judged desk.now (Set (Block what on)) }
{
    if !blocked_account_known(&desk.memory, what) {
        return Err(Refusal::UnknownAccount);
    }
    if !blocked_item_known(&desk.memory, what) {
        return Err(Refusal::UnknownItem);
    }
    if !is_switch(on) {
        return Err(Refusal::FigureOutOfRange);
    }
    Ok(())
}

// The answer to any setting.
pub fn judge_setting(desk: &SoundDesk, setting: Setting) -> Answer
    ensures { number_of result ≡ judged desk.now (Set setting) }
{
    match setting {
        Setting::Limit { account, line } => judge_limit(desk, account, line),
        Setting::Balance {
            account,
            instrument,
            balance,
        } => judge_balance(desk, account, instrument, balance),
        Setting::Block { what, on } => judge_block(desk, what, on),
    }
}
