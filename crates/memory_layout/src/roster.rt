// The roster in a desk's memory: the part that holds it, its sizes, who is on it, and what hangs on what.
#![tactic(auto, using(crate::proofs::RosterRead::roster_read), unfolding(crate::specs::View::roster_of, crate::specs::Rosters::listed))]

ghost use Rattle.std.specs.Prelude.{◌≡◌};
ghost use Rattle.ledger.specs.Roster.{Numbered};
ghost use Rattle.book.specs.Decoding.{between};
ghost use Rattle.book.specs.Table.{is_listed};
ghost use Rattle.memory_layout.specs.View.{roster_part, roster_of};

use crate::memory::Memory;
use crate::readable::ReadableDesk;
use crate::table::ROSTER;
use book::Item;
use ledger::roster::RosterBytes;
use words::part;

// Is the number from `low` to `high`?
pub fn between(low: u64, high: u64, n: u64) -> bool
    ensures { result ≡ between low high n }
{
    low <= n && n <= high
}

impl<'a> Memory<'a> {
    // The part with the roster, as `ledger` reads it.
    pub fn roster(&self) -> RosterBytes<'a>
        ensures { result ≡ roster_part self.now }
    {
        RosterBytes {
            bytes: part(self.bytes, ROSTER, 76),
        }
    }

    // How many accounts, groups, contracts and instruments the roster has: `ledger`'s readers, of which each has a name.
    pub fn accounts(&self) -> u64
        ensures { result ≡ (roster_of self.now).accounts }
    {
        self.roster().accounts()
    }

    pub fn groups(&self) -> u64
        ensures { result ≡ (roster_of self.now).groups }
    {
        self.roster().groups()
    }

    pub fn contracts(&self) -> u64
        ensures { result ≡ (roster_of self.now).contracts }
    {
        self.roster().contracts()
    }

    pub fn instruments(&self) -> u64
        ensures { result ≡ (roster_of self.now).instruments }
    {
        self.roster().instruments()
    }

    // Is the account on the roster?
    pub fn account_known(&self, account: u64) -> bool
        ensures { result ≡ between 1 (roster_of self.now).accounts account }
    {
        between(1, self.accounts(), account)
    }

    // Is the item?
    pub fn item_known(&self, item: Item) -> bool
        ensures { result ≡ is_listed (roster_of self.now) item }
    {
        match item {
            Item::Instrument(instrument) => between(1, self.instruments(), instrument),
            Item::Contract(contract) => between(1, self.contracts(), contract),
            Item::Group(group) => between(1, self.groups(), group),
        }
    }
}

impl<'a> ReadableDesk<'a> {
    // The contract of an instrument.
    pub fn contract_of(&self, instrument: usize) -> usize
        requires { Numbered (roster_of self.now).instruments instrument }
        ensures { result ≡ (roster_of self.now).contract_of instrument }
    {
        self.memory.roster().contract_of(instrument) as usize
    }

    // The group of a contract.
    pub fn group_of(&self, contract: usize) -> usize
        requires { Numbered (roster_of self.now).contracts contract }
        ensures { result ≡ (roster_of self.now).group_of contract }
    {
        self.memory.roster().group_of(contract) as usize
    }
}
