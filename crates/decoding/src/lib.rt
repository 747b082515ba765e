// 48 bytes to an event, by value: question 6. Any other bytes are junk.
#![tactic(auto)]

ghost use Rattle.std.specs.Prelude.{◌≡◌, false, not, ◌||◌, cond, ◌<◌, eqb, MatchResult};
ghost use Rattle.limits.specs.Asked.{is_zero};
ghost use Rattle.book.specs.Decoding.{kind_of, side_field, account_field, item_field, level_field, zero_field, id_field, figure_field};
ghost use Rattle.book.specs.Decoding.{between, figures_of, is_kind, named, fields_fit, line_field, blocked_field, event_of, decode};
ghost use Rattle.decoding.specs.Kinds.{kind_number};

use book::{Blocked, Event, Figures, LimitLine, NamedFields, OrderChange, Setting};
use ledger::order::Side;
use words::fields::Field;

// The kinds of event.
#[derive(Clone, Copy)]
enum Kind {
    Limit,
    Balance,
    Block,
    New,
    Replace,
    Cancel,
    Fill,
}

// A byte that is no kind.
#[derive(Clone, Copy)]
struct NoKind;

impl TryFrom<u8> for Kind {
    type Error = NoKind;

    ghost try_from_gives = { λ n r. MatchResult r (λ kind. kind_number kind ≡ n) (λ _. is_kind n ≡ false) };

    fn try_from(n: u8) -> Result<Kind, NoKind> {
        match n {
            1 => Ok(Kind::Limit),
            2 => Ok(Kind::Balance),
            3 => Ok(Kind::Block),
            4 => Ok(Kind::New),
            5 => Ok(Kind::Replace),
            6 => Ok(Kind::Cancel),
            7 => Ok(Kind::Fill),
            _ => Err(NoKind),
        }
    }
}

// The fields of an event, by the names of their definitions: each is one line over `Field`, which is what they share.
fn side(e: &[u8; 48]) -> u8
    ensures { result ≡ side_field e.now }
{
    u8::at(e, 1)
}

fn account(e: &[u8; 48]) -> u64
    ensures { result ≡ account_field e.now }
{
    u64::from(u16::at(e, 2))
}

// An instrument, a contract or a group.
fn item(e: &[u8; 48]) -> u64
    ensures { result ≡ item_field e.now }
{
    u64::from(u16::at(e, 4))
}

fn level(e: &[u8; 48]) -> u8
    ensures { result ≡ level_field e.now }
{
    u8::at(e, 6)
}

fn id(e: &[u8; 48]) -> u64
    ensures { result ≡ id_field e.now }
{
    u64::at(e, 8)
}

// Figure one is `figure(e, 0)`.
fn figure(e: &[u8; 48], j: usize) -> i64
    requires { j < 4 }
    ensures { result ≡ figure_field e.now j }
{
    i64::at(e, 16 + j * 8)
}

fn figures(e: &[u8; 48]) -> Figures
    ensures { result ≡ figures_of e.now }
{
    Figures {
        tci: figure(e, 0),
        tvi: figure(e, 1),
        lci: figure(e, 2),
        lvi: figure(e, 3),
    }
}

const NOTHING: NamedFields = NamedFields {
    side: false,
    account: false,
    item: false,
    level: false,
    id: false,
    figures: 0,
};

// The table: what a kind and level names. The level is the byte as it stands: where a kind names none it is 0, which is asked of it after.
#[tactic(auto, unfolding(book::specs::Decoding::named))]
fn named(kind: Kind, level: u8) -> NamedFields
    ensures { result ≡ named (kind_number kind) level }
{
    match kind {
        Kind::Limit => NamedFields {
            account: true,
            item: true,
            level: true,
            figures: match level {
                1 | 2 => 4,
                _ => 2,
            },
            ..NOTHING
        },
        Kind::Balance => NamedFields {
            account: true,
            item: true,
            figures: 1,
            ..NOTHING
        },
        Kind::Block => NamedFields {
            account: level != 2,
            item: level != 1,
            level: true,
            figures: 1,
            ..NOTHING
        },
        Kind::New => NamedFields {
            side: true,
            account: true,
            item: true,
            id: true,
            figures: 1,
            ..NOTHING
        },
        Kind::Replace | Kind::Fill => NamedFields {
            id: true,
            figures: 1,
            ..NOTHING
        },
        Kind::Cancel => NamedFields {
            id: true,
            ..NOTHING
        },
    }
}

// A named side or level is one of the listed values, an unnamed one zero.
fn listed(named: bool, most: u8, n: u8) -> bool
    ensures { result ≡ cond named (between 1 most n) (eqb n 0) }
{
    if named {
        (1 <= n) & (n <= most)
    } else {
        n == 0
    }
}

// A named id is not zero, an unnamed one is.
fn given(named: bool, id: u64) -> bool
    ensures { result ≡ cond named (not (eqb id 0)) (eqb id 0) }
{
    named == (id != 0)
}

// Does each field fit what is named? All are tested and the answers joined, so that no test waits for the one before.
#[tactic(auto, unfolding(book::specs::Decoding::fields_fit))]
fn fields_fit(n: NamedFields, e: &[u8; 48]) -> bool
    ensures { result ≡ fields_fit n e.now }
{
    listed(n.side, 2, side(e))
        & (n.account | (account(e) == 0))
        & (n.item | (item(e) == 0))
        & listed(n.level, 3, level(e))
        & (u8::at(e, 7) == 0)
        & given(n.id, id(e))
        & ((0 < n.figures) | (figure(e, 0) == 0))
        & ((1 < n.figures) | (figure(e, 1) == 0))
        & ((2 < n.figures) | (figure(e, 2) == 0))
        & ((3 < n.figures) | (figure(e, 3) == 0))
}

// What a LIMIT sets.
fn line(e: &[u8; 48]) -> LimitLine
    ensures { result ≡ line_field e.now }
{
    match level(e) {
        1 => LimitLine::Own {
            instrument: item(e),
            figures: figures(e),
        },
        2 => LimitLine::Default {
            contract: item(e),
            figures: figures(e),
        },
        _ => LimitLine::OfGroup {
            group: item(e),
            lcc: figure(e, 0),
            lvc: figure(e, 1),
        },
    }
}

// What a BLOCK blocks.
fn blocked(e: &[u8; 48]) -> Blocked
    ensures { result ≡ blocked_field e.now }
{
    match level(e) {
        1 => Blocked::Account {
            account: account(e),
        },
        2 => Blocked::Instrument {
            instrument: item(e),
        },
        _ => Blocked::GroupFor {
            account: account(e),
            group: item(e),
        },
    }
}

// The event of bytes whose fields fit.
#[tactic(auto, unfolding(book::specs::Decoding::event_of))]
fn event_of(kind: Kind, e: &[u8; 48]) -> Event
    requires { kind_of e.now ≡ kind_number kind }
    ensures { result ≡ event_of e.now }
{
    match kind {
        Kind::Limit => Event::Set {
            setting: Setting::Limit {
                account: account(e),
                line: line(e),
            },
        },
        Kind::Balance => Event::Set {
            setting: Setting::Balance {
                account: account(e),
                instrument: item(e),
                balance: figure(e, 0),
            },
        },
        Kind::Block => Event::Set {
            setting: Setting::Block {
                what: blocked(e),
                on: figure(e, 0),
            },
        },
        Kind::New => Event::New {
            side: Side::from(side(e)),
            account: account(e),
            instrument: item(e),
            id: id(e),
            quantity: figure(e, 0),
        },
        Kind::Replace => Event::Change {
            id: id(e),
            change: OrderChange::Replace {
                total: figure(e, 0),
            },
        },
        Kind::Cancel => Event::Change {
            id: id(e),
            change: OrderChange::Cancel,
        },
        Kind::Fill => Event::Change {
            id: id(e),
            change: OrderChange::Fill {
                quantity: figure(e, 0),
            },
        },
    }
}

// The event of bytes of a kind, or junk.
#[tactic(auto, unfolding(book::specs::Decoding::well_formed, book::specs::Decoding::decode))]
fn of_kind(kind: Kind, e: &[u8; 48]) -> Event
    requires { kind_of e.now ≡ kind_number kind }
    ensures { result ≡ decode e.now }
{
    if fields_fit(named(kind, level(e)), e) {
        event_of(kind, e)
    } else {
        Event::Junk
    }
}

// The event that the bytes are, or that they are none. Each kind stands here as a constant, for which its line of the table and its
// event are compiled by themselves.
#[tactic(auto, unfolding(book::specs::Decoding::well_formed, book::specs::Decoding::decode))]
pub fn decode(e: &[u8]) -> Event
    ensures { result ≡ decode e.now }
{
    let Some(e) = e.as_array::<48>() else {
        return Event::Junk;
    };
    let Ok(kind) = Kind::try_from(u8::at(e, 0)) else {
        return Event::Junk;
    };
    match kind {
        Kind::Limit => of_kind(Kind::Limit, e),
        Kind::Balance => of_kind(Kind::Balance, e),
        Kind::Block => of_kind(Kind::Block, e),
        Kind::New => of_kind(Kind::New, e),
        Kind::Replace => of_kind(Kind::Replace, e),
        Kind::Cancel => of_kind(Kind::Cancel, e),
        Kind::Fill => of_kind(Kind::Fill, e),
    }
}
