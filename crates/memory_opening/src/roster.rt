// The bytes of a roster whose sizes are within their limits and whose length is exact: those that pass question 2.
#![tactic(auto, using(crate::proofs::Tests::sizes), unfolding(crate::specs::Questions::roster_from, memory_layout::specs::Rosters::listed))]

ghost use Rattle.std.specs.Prelude.{◌≡◌, ◌≤◌, true, List, ℕ, IfSome, is_some};
ghost use Rattle.ledger.specs.Roster.{Numbered};
ghost use Rattle.memory_opening.specs.Questions.{roster_from, lengths_fit};

use crate::questions::lengths_fit;
use std::marker::Model;
use words::fields::Field;

#[derive(Drop)]
pub struct SizedRoster<'a> {
    bytes: &'a [u8],
}

// A clause sees the bytes.
impl<'a> Model for SizedRoster<'a> {
    ghost Value = { List ℕ };

    ghost view = { λ r. r.bytes.now };

    ghost invariant = { λ r. lengths_fit r.bytes.now ≡ true };
}

impl<'a> SizedRoster<'a> {
    // The roster of the bytes, where they pass question 2.
    pub fn of(bytes: &'a [u8]) -> Option<SizedRoster<'a>>
        ensures lengths_fit { is_some result ≡ lengths_fit bytes.now }
        ensures bytes { IfSome result (λ r. r ≡ bytes.now) }
    {
        if lengths_fit(bytes) {
            Some(SizedRoster { bytes })
        } else {
            None
        }
    }

    // How many accounts, groups, contracts and instruments: a line each, as in `ledger`.
    pub fn accounts(&self) -> u16
        ensures { result ≡ (roster_from self.now).accounts }
    {
        u16::at(self.bytes, 0)
    }

    pub fn groups(&self) -> u16
        ensures { result ≡ (roster_from self.now).groups }
    {
        u16::at(self.bytes, 2)
    }

    pub fn contracts(&self) -> u16
        ensures count { result ≡ (roster_from self.now).contracts }
        ensures few { result ≤ 8 }
    {
        u16::at(self.bytes, 4)
    }

    pub fn instruments(&self) -> u16
        ensures count { result ≡ (roster_from self.now).instruments }
        ensures few { result ≤ 32 }
    {
        u16::at(self.bytes, 6)
    }

    // The group of a contract.
    pub fn group_of(&self, contract: usize) -> u8
        requires { Numbered (roster_from self.now).contracts contract }
        ensures { result ≡ (roster_from self.now).group_of contract }
    {
        u8::at(self.bytes, 7 + contract)
    }

    // The contract of an instrument.
    pub fn contract_of(&self, instrument: usize) -> u8
        requires { Numbered (roster_from self.now).instruments instrument }
        ensures { result ≡ (roster_from self.now).contract_of instrument }
    {
        u8::at(self.bytes, 7 + usize::from(self.contracts()) + instrument)
    }

    // The weight of an instrument.
    pub fn weight_of(&self, instrument: usize) -> i32
        requires { Numbered (roster_from self.now).instruments instrument }
        ensures { result ≡ (roster_from self.now).weight instrument }
    {
        let tables = 4 + usize::from(self.contracts()) + usize::from(self.instruments());
        i32::at(self.bytes, tables + 4 * instrument)
    }
}
