// What a load has found so far, and how an entry of the file moves it on.
// The memory is written as the file is read: it is lent as bytes, of which `SoundMemory` is asked, since a `SoundDesk` is read only.
ghost use Rattle.std.specs.Prelude.{◌≡◌, true, ◌&&◌, cond, ◌∷◌, [], eqb};
ghost use Rattle.book.specs.declared.Setting.TheVariants.{Limit};
ghost use Rattle.book.specs.declared.Event.TheVariants.{Set};
ghost use Rattle.book.specs.Decoding.{between};
ghost use Rattle.limits.specs.Answers.{number_of};
ghost use Rattle.memory_layout.specs.View.{roster_of};
ghost use Rattle.memory_layout.specs.Judged.{judged};
ghost use Rattle.memory_soundness.specs.SoundMemory.{SoundMemory};
ghost use Rattle.memory_working.specs.Working.{worked};
ghost use Rattle.memory_loading.specs.Entries.{account_entry, group_entry, contract_entry, instrument_entry};
ghost use Rattle.memory_loading.specs.Loading.{contract_in_place, instrument_in_place};
ghost use Rattle.memory_loading.specs.Passing.{first_of, figures_or, group_line_or, with_count, Passed};

use book::{Figures, Item, LimitLine};
use limit_file::figures::{GroupLimits, Limits};
use limit_file::{AccountTag, ContractTag, GroupTag, InstrumentTag};
use limits::answer::{Answer, Refusal};
use memory_judging::settings::judge_limit;
use memory_soundness::sound_desk::SoundDesk;
use memory_working::settings::work_limit;

// Whether every count and place is right, and the first no to 7, 8 and 9: two findings, since the first of them speaks of the whole file.
#[derive(Clone, Copy)]
pub struct Progress {
    pub right: bool,
    pub first: Answer,
}

impl Progress {
    // And whether a count or a place is right besides.
    pub fn and(self, right: bool) -> Progress
        ensures { result ≡ with_count self right }
    {
        Progress {
            right: self.right && right,
            ..self
        }
    }
}

// The figures of a contract's or an instrument's line in an event's order; −1 throughout where it has no limits.
fn figures_of(limits: Option<Limits>) -> Figures
    ensures { result ≡ figures_or limits }
{
    match limits {
        Some(l) => Figures {
            tci: l.bid.cast_signed(),
            tvi: l.offer.cast_signed(),
            lci: l.long.cast_signed(),
            lvi: l.short.cast_signed(),
        },
        None => Figures {
            tci: -1,
            tvi: -1,
            lci: -1,
            lvi: -1,
        },
    }
}

// The line of a group, likewise.
fn group_line(group: u64, limits: Option<GroupLimits>) -> LimitLine
    ensures { result ≡ group_line_or group limits }
{
    match limits {
        Some(l) => LimitLine::OfGroup {
            group,
            lcc: l.long.cast_signed(),
            lvc: l.short.cast_signed(),
        },
        None => LimitLine::OfGroup {
            group,
            lcc: -1,
            lvc: -1,
        },
    }
}

// Asks 7 of an account.
fn judge_account(desk: &SoundDesk, account: u64) -> Answer
    ensures { number_of result ≡ cond (between 1 (roster_of desk.now).accounts account) 0 7 }
{
    if desk.memory.account_known(account) {
        Ok(())
    } else {
        Err(Refusal::UnknownAccount)
    }
}

// Asks 7, 8 and 9 of a line where all was accepted so far, and works it where it is to be set: an entry without limits is judged as a
// line of −1 throughout, which passes 9, and not worked.
fn step(m: &mut [u8], account: u64, line: LimitLine, sets: bool, first: Answer) -> Answer
    requires { SoundMemory m.old }
    ensures answer { number_of result ≡ first_of (number_of first) (judged m.old (Set (Limit account line))) }
    ensures memory { m.new ≡
        cond (eqb (number_of result) 0 && sets) (worked m.old (Set (Limit account line))) m.old }
{
    first?;
    judge_limit(&SoundDesk::of(m), account, line)?;
    if sets {
        work_limit(m, account, line);
    }
    Ok(())
}

// The accounts of a request.
#[derive(Clone, Copy)]
pub struct Accounts;

// The groups of an account.
#[derive(Clone, Copy)]
pub struct Groups {
    pub account: u64,
}

// The contracts of an account's group.
#[derive(Clone, Copy)]
pub struct Contracts {
    pub account: u64,
    pub group: u64,
}

// The instruments of an account's contract.
#[derive(Clone, Copy)]
pub struct Instruments {
    pub account: u64,
    pub contract: u64,
}

impl Accounts {
    // AcctLmt.
    pub fn enter(&self, m: &[u8], tag: &AccountTag, before: Progress) -> Progress
        requires { SoundMemory m.now }
        ensures { Passed m.now (account_entry tag.now.account ∷ []) true before m.now result }
    {
        let first = before
            .first
            .and(judge_account(&SoundDesk::of(m), tag.account));
        Progress { first, ..before }
    }
}

impl Groups {
    // EqvIxmLmt.
    pub fn enter(&self, m: &mut [u8], tag: &GroupTag, before: Progress) -> Progress
        requires { SoundMemory m.old }
        ensures { Passed m.old (group_entry self.now.account tag.now.group tag.now.limits ∷ []) true before m.new result }
    {
        let line = group_line(tag.group, tag.limits);
        let first = step(m, self.account, line, tag.limits.is_some(), before.first);
        Progress { first, ..before }
    }
}

// A contract is looked up by its group and sets a default line, an instrument by its contract and sets a line of its own: another
// field of the roster and another line, so that `in_place` and `enter` stand for each.
impl Contracts {
    // Does a contract of the roster stand under its own group?
    fn in_place(&self, desk: &SoundDesk, contract: u64) -> bool
        ensures { result ≡ contract_in_place (roster_of desk.now) self.now.group contract }
    {
        !desk.memory.item_known(Item::Contract(contract))
            || desk.readable().group_of(contract as usize) as u64 == self.group
    }

    // ContrtLmt.
    pub fn enter(&self, m: &mut [u8], tag: &ContractTag, before: Progress) -> Progress
        requires { SoundMemory m.old }
        ensures { Passed m.old (contract_entry self.now.account self.now.group tag.now.contract tag.now.limits ∷ []) true before m.new
            result }
    {
        let placed = before.and(self.in_place(&SoundDesk::of(m), tag.contract));
        let line = LimitLine::Default {
            contract: tag.contract,
            figures: figures_of(tag.limits),
        };
        let first = step(m, self.account, line, tag.limits.is_some(), placed.first);
        Progress { first, ..placed }
    }
}

impl Instruments {
    // Does an instrument of the roster stand under its own contract?
    fn in_place(&self, desk: &SoundDesk, instrument: u64) -> bool
        ensures { result ≡ instrument_in_place (roster_of desk.now) self.now.contract instrument }
    {
        !desk.memory.item_known(Item::Instrument(instrument))
            || desk.readable().contract_of(instrument as usize) as u64 == self.contract
    }

    // IxmLmt.
    pub fn enter(&self, m: &mut [u8], tag: &InstrumentTag, before: Progress) -> Progress
        requires { SoundMemory m.old }
        ensures { Passed m.old (instrument_entry self.now.account self.now.contract tag.now.instrument tag.now.limits ∷ []) true before
            m.new result }
    {
        let placed = before.and(self.in_place(&SoundDesk::of(m), tag.instrument));
        let line = LimitLine::Own {
            instrument: tag.instrument,
            figures: figures_of(tag.limits),
        };
        let first = step(m, self.account, line, tag.limits.is_some(), placed.first);
        Progress { first, ..placed }
    }
}
