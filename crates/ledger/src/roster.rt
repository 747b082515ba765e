// A roster in lent bytes, of 76 words: its sizes, and each number's entry in its tables. Its writer, `memory_layout`'s table, has the
// same places.
ghost use Rattle.std.specs.Prelude.{◌≡◌, List, ℕ, ◌≤◌, length};
ghost use Rattle.ledger.specs.Roster.{group_of_instrument};
ghost use Rattle.ledger.specs.Records.{roster_in, roster_bytes, group_table, contract_table, weight_table};

use std::marker::Model;
use words::{part, signed_word, word};

#[derive(Drop)]
pub struct RosterBytes<'a> {
    pub bytes: &'a [u8],
}

// A clause sees the bytes, all of which are there.
impl<'a> Model for RosterBytes<'a> {
    ghost Value = { List ℕ };

    ghost view = { λ r. r.bytes.now };

    ghost invariant = { λ r. roster_bytes ≤ length r.bytes.now };
}

#[tactic(auto, using(words::proofs::Parts::length_part), unfolding(crate::specs::Records::roster_in))]
impl<'a> RosterBytes<'a> {
    // How many accounts, groups, contracts and instruments. Each field of the roster has a reader by its name, of one line: one over all
    // fields would take the name as a value, and match it to the same words.
    pub fn accounts(&self) -> u64
        ensures { result ≡ (roster_in self.now).accounts }
    {
        word(self.bytes, 0)
    }

    pub fn groups(&self) -> u64
        ensures { result ≡ (roster_in self.now).groups }
    {
        word(self.bytes, 1)
    }

    pub fn contracts(&self) -> u64
        ensures { result ≡ (roster_in self.now).contracts }
    {
        word(self.bytes, 2)
    }

    pub fn instruments(&self) -> u64
        ensures { result ≡ (roster_in self.now).instruments }
    {
        word(self.bytes, 3)
    }

    // The tables: the groups of contracts, the contracts of instruments and their weights. Word n of each is that of number n.
    pub fn group_table(&self) -> &'a [u8]
        ensures table { result.now ≡ group_table self.now }
        ensures long { length result.now ≡ 72 }
    {
        part(self.bytes, 3, 9)
    }

    pub fn contract_table(&self) -> &'a [u8]
        ensures table { result.now ≡ contract_table self.now }
        ensures long { length result.now ≡ 264 }
    {
        part(self.bytes, 11, 33)
    }

    pub fn weight_table(&self) -> &'a [u8]
        ensures table { result.now ≡ weight_table self.now }
        ensures long { length result.now ≡ 264 }
    {
        part(self.bytes, 43, 33)
    }

    // The group of a contract.
    pub fn group_of(&self, contract: usize) -> u64
        requires { contract ≤ 8 }
        ensures { result ≡ (roster_in self.now).group_of contract }
    {
        word(self.bytes, 3 + contract)
    }

    // The contract of an instrument. (That a number has a place in a table is asked by each of its readers: a type for such a
    // number would be made at each call, of the same fact.)
    pub fn contract_of(&self, instrument: usize) -> u64
        requires { instrument ≤ 32 }
        ensures { result ≡ (roster_in self.now).contract_of instrument }
    {
        word(self.bytes, 11 + instrument)
    }

    // The group of an instrument: that of its contract.
    #[tactic(auto, unfolding(crate::specs::Roster::group_of_instrument))]
    pub fn group_of_instrument(&self, instrument: usize) -> u64
        requires { (instrument ≤ 32) × ((roster_in self.now).contract_of instrument ≤ 8) }
        ensures { result ≡ group_of_instrument (roster_in self.now) instrument }
    {
        self.group_of(self.contract_of(instrument) as usize)
    }

    // The weight of an instrument.
    pub fn weight_of(&self, instrument: usize) -> i64
        requires { instrument ≤ 32 }
        ensures { result ≡ (roster_in self.now).weight instrument }
    {
        signed_word(self.bytes, 43 + instrument)
    }
}
