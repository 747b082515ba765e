// Events as plain data. The crate's definitions and laws are in specs/ and proofs/.
#![tactic(auto)]

pub mod market;

ghost use Rattle.std.specs.Prelude.{◌≡◌};
ghost use Rattle.book.specs.Books.{is_minus_one, unsets};
ghost use Rattle.book.specs.Settings.{limited_item, blocked_account, blocked_item};

use ledger::order::Side;

// The four figures of an instrument's or a contract's line, as an event names them.
#[derive(Clone, Copy)]
pub struct Figures {
    pub tci: i64,
    pub tvi: i64,
    pub lci: i64,
    pub lvi: i64,
}

// −1: part of a line that is to be set no more. An event has its figures as they stand in its bytes, since question 9 asks each of them.
pub fn is_minus_one(z: i64) -> bool
    ensures { result ≡ is_minus_one z }
{
    z == -1
}

impl Figures {
    // −1 throughout: the line is to be set no more.
    #[tactic(auto, unfolding(crate::specs::Books::unsets))]
    pub fn unsets(self) -> bool
        ensures { result ≡ unsets self }
    {
        is_minus_one(self.tci)
            && is_minus_one(self.tvi)
            && is_minus_one(self.lci)
            && is_minus_one(self.lvi)
    }
}

// An item, by its number.
#[derive(Clone, Copy)]
pub enum Item {
    Instrument(u64),
    Contract(u64),
    Group(u64),
}

// The line that a LIMIT sets, with its figures: levels 1, 2 and 3.
#[derive(Clone, Copy)]
pub enum LimitLine {
    Own { instrument: u64, figures: Figures },
    Default { contract: u64, figures: Figures },
    OfGroup { group: u64, lcc: i64, lvc: i64 },
}

impl LimitLine {
    // The item that it names.
    pub fn item(self) -> Item
        ensures { result ≡ limited_item self }
    {
        match self {
            LimitLine::Own {
                instrument,
                figures,
            } => Item::Instrument(instrument),
            LimitLine::Default { contract, figures } => Item::Contract(contract),
            LimitLine::OfGroup { group, lcc, lvc } => Item::Group(group),
        }
    }
}

// What a BLOCK blocks: levels 1, 2 and 3.
#[derive(Clone, Copy)]
pub enum Blocked {
    Account { account: u64 },
    Instrument { instrument: u64 },
    GroupFor { account: u64, group: u64 },
}

impl Blocked {
    // The account and the item that it names.
    pub fn account(self) -> Option<u64>
        ensures { result ≡ blocked_account self }
    {
        match self {
            Blocked::Account { account } => Some(account),
            Blocked::Instrument { instrument } => None,
            Blocked::GroupFor { account, group } => Some(account),
        }
    }

    pub fn item(self) -> Option<Item>
        ensures { result ≡ blocked_item self }
    {
        match self {
            Blocked::Account { account } => None,
            Blocked::Instrument { instrument } => Some(Item::Instrument(instrument)),
            Blocked::GroupFor { account, group } => Some(Item::Group(group)),
        }
    }
}

// The fields that a kind and level names, and how many figures: a row of the table of fields.
#[derive(Clone, Copy)]
pub struct NamedFields {
    pub side: bool,
    pub account: bool,
    pub item: bool,
    pub level: bool,
    pub id: bool,
    pub figures: u8,
}

// What changes an open order.
#[derive(Clone, Copy)]
pub enum OrderChange {
    Replace { total: i64 },
    Cancel,
    Fill { quantity: i64 },
}

// What sets something of a desk: a line, a balance, a block. Whether a BLOCK blocks is the figure as it stands: question 9 asks that it
// is 0 or 1.
#[derive(Clone, Copy)]
pub enum Setting {
    Limit {
        account: u64,
        line: LimitLine,
    },
    Balance {
        account: u64,
        instrument: u64,
        balance: i64,
    },
    Block {
        what: Blocked,
        on: i64,
    },
}

// An event of each kind, or bytes that are none; LIMIT, BALANCE and BLOCK are one case, what is set; REPLACE, CANCEL and FILL are one, an
// open order's id and the change. Bytes that are none are an event as well, which question 6 refuses.
#[derive(Clone, Copy)]
pub enum Event {
    Set {
        setting: Setting,
    },
    New {
        side: Side,
        account: u64,
        instrument: u64,
        id: u64,
        quantity: i64,
    },
    Change {
        id: u64,
        change: OrderChange,
    },
    Junk,
}
