// Working a setting, LIMIT, BALANCE or BLOCK: the figures become that line, S or block.
ghost use Rattle.std.specs.Prelude.{◌≡◌};
ghost use Rattle.book.specs.declared.Setting.TheVariants.{Limit, Balance, Block};
ghost use Rattle.book.specs.declared.Event.TheVariants.{Set};
ghost use Rattle.book.specs.Books.{line_of, group_line_of};
ghost use Rattle.memory_working.specs.Working.{AcceptedEvent, LineStorable, GroupLineStorable, worked};

use book::{Blocked, Figures, LimitLine, Setting, is_minus_one};
use limits::lines::{GroupLine, Line};
use memory_layout::stores::{
    block_account, block_group, block_instrument, default_line, own_line, set_balance, set_line,
    set_of_group,
};

// The line that four figures set: −1 throughout and it is set no more.
fn line_of(figures: Figures) -> Option<Line>
    requires { LineStorable figures }
    ensures { result ≡ line_of figures }
{
    if figures.unsets() {
        return None;
    }
    Some(Line {
        tci: figures.tci as u32,
        tvi: figures.tvi as u32,
        lci: figures.lci as u32,
        lvi: figures.lvi as u32,
    })
}

// A group's line: an accepted LCC of −1 stands beside an LVC of −1, and the line is set no more.
fn group_line_of(lcc: i64, lvc: i64) -> Option<GroupLine>
    requires { GroupLineStorable lcc lvc }
    ensures { result ≡ group_line_of lcc lvc }
{
    if is_minus_one(lcc) {
        return None;
    }
    Some(GroupLine {
        lcc: lcc as u32,
        lvc: lvc as u32,
    })
}

// LIMIT: the line of each level.
pub fn work_limit(m: &mut [u8], account: u64, line: LimitLine)
    requires { AcceptedEvent m.old (Set (Limit account line)) }
    ensures { m.new ≡ worked m.old (Set (Limit account line)) }
{
    let a = account as usize;
    match line {
        LimitLine::Own {
            instrument,
            figures,
        } => set_line(m, own_line(a, instrument as usize), line_of(figures)),
        LimitLine::Default { contract, figures } => set_line(
            m,
            default_line(a, contract as usize),
            line_of(figures),
        ),
        LimitLine::OfGroup { group, lcc, lvc } => set_of_group(
            m,
            a,
            group as usize,
            group_line_of(lcc, lvc),
        ),
    }
}

// BALANCE: sets S.
pub fn work_balance(m: &mut [u8], account: u64, instrument: u64, balance: i64)
    requires { AcceptedEvent m.old (Set (Balance account instrument balance)) }
    ensures { m.new ≡ worked m.old (Set (Balance account instrument balance)) }
{
    set_balance(m, account as usize, instrument as usize, balance);
}

// BLOCK: 1 to block, 0 to lift.
pub fn work_block(m: &mut [u8], what: Blocked, on: i64)
    requires { AcceptedEvent m.old (Set (Block what on)) }
    ensures { m.new ≡ worked m.old (Set (Block what on)) }
{
    let blocks = on != 0;
    match what {
        Blocked::Account { account } => block_account(m, account as usize, blocks),
        Blocked::Instrument { instrument } => block_instrument(m, instrument as usize, blocks),
        Blocked::GroupFor { account, group } => block_group(
            m,
            account as usize,
            group as usize,
            blocks,
        ),
    }
}

// Any setting.
pub fn work_setting(m: &mut [u8], setting: Setting)
    requires { AcceptedEvent m.old (Set setting) }
    ensures { m.new ≡ worked m.old (Set setting) }
{
    match setting {
        Setting::Limit { account, line } => work_limit(m, account, line),
        Setting::Balance {
            account,
            instrument,
            balance,
        } => work_balance(m, account, instrument, balance),
        Setting::Block { what, on } => work_block(m, what, on),
    }
}
