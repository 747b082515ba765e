// An account of the roster, and what the memory says of it: its balances, mark, blocks and lines. `stores` has the store of each. Numbers
// count from 1.
#![tactic(auto, using(crate::proofs::FieldsRead::fields_read))]

ghost use Rattle.std.specs.Prelude.{◌≡◌};
ghost use Rattle.ledger.specs.Roster.{Numbered};
ghost use Rattle.limits.specs.Lines.{line_in_force, is_set};
ghost use Rattle.memory_layout.specs.View.{roster_of, balances_of, trading_of, blocks_of, lines_of};
ghost use Rattle.memory_layout.specs.Readable.{Readable, HoldsLine, HoldsGroupLine};

use crate::memory::Memory;
use crate::table::{ACCOUNT_BLOCKS, DEFAULT_SET, GROUP_BLOCKS, GROUP_SET, MARKS, OWN_SET};
use limits::lines::{GroupLineBytes, LineBytes, line_in_force};
use words::{part, signed_word};

// That another number is on the roster its readers ask: a fact about two values, which the caller knows where the number comes in.
#[derive(Drop)]
pub struct DeskAccount<'a> {
    pub memory: Memory<'a>,
    pub number: usize,
    pub ghost readable: { Readable memory },
    pub ghost on_roster: { Numbered (roster_of memory).accounts number },
}

// The flags differ in the field's place and the definition that the clause names, a line each over `says_yes`: one function over all would
// be a match over the same names.
impl<'a> DeskAccount<'a> {
    // S of an instrument.
    pub fn balance(&self, instrument: usize) -> i64
        requires { Numbered (roster_of self.now.memory).instruments instrument }
        ensures { result ≡ balances_of self.now.memory self.now.number instrument }
    {
        signed_word(self.memory.balances(self.number), instrument)
    }

    // Is it marked as trading?
    pub fn is_trading(&self) -> bool
        ensures { result ≡ trading_of self.now.memory self.now.number }
    {
        self.memory.says_yes(MARKS + self.number)
    }

    // Is it blocked?
    pub fn is_blocked(&self) -> bool
        ensures { result ≡ (blocks_of self.now.memory).account self.now.number }
    {
        self.memory.says_yes(ACCOUNT_BLOCKS + self.number)
    }

    // Is the group blocked for it?
    pub fn group_is_blocked(&self, group: usize) -> bool
        requires { Numbered (roster_of self.now.memory).groups group }
        ensures { result ≡ (blocks_of self.now.memory).group self.now.number group }
    {
        self.memory.says_yes(GROUP_BLOCKS + self.number * 4 + group)
    }

    // Is an instrument's own line set, a contract's default line, a group's line?
    pub fn own_is_set(&self, instrument: usize) -> bool
        requires { Numbered (roster_of self.now.memory).instruments instrument }
        ensures { result ≡ is_set ((lines_of self.now.memory self.now.number).own_of instrument) }
    {
        self.memory
            .says_yes(OWN_SET + self.number * 32 + instrument)
    }

    pub fn default_is_set(&self, contract: usize) -> bool
        requires { Numbered (roster_of self.now.memory).contracts contract }
        ensures { result ≡ is_set ((lines_of self.now.memory self.now.number).default_of contract) }
    {
        self.memory
            .says_yes(DEFAULT_SET + self.number * 8 + contract)
    }

    pub fn group_is_set(&self, group: usize) -> bool
        requires { Numbered (roster_of self.now.memory).groups group }
        ensures { result ≡ is_set ((lines_of self.now.memory self.now.number).line_of_group group) }
    {
        self.memory.says_yes(GROUP_SET + self.number * 4 + group)
    }

    // The line in force of an instrument of that contract.
    pub fn line_in_force(&self, instrument: usize, contract: usize) -> LineBytes<'a>
        requires { Numbered (roster_of self.now.memory).instruments instrument × Numbered (roster_of self.now.memory).contracts contract
            × (contract ≡ (roster_of self.now.memory).contract_of instrument) }
        ensures { HoldsLine result (line_in_force (roster_of self.now.memory) (lines_of self.now.memory self.now.number) instrument) }
    {
        LineBytes {
            bytes: line_in_force(
                self.memory.own_lines(self.number),
                self.memory.default_lines(self.number),
                self.own_is_set(instrument),
                instrument,
                contract,
            ),
        }
    }

    // A group's line.
    pub fn group_line(&self, group: usize) -> GroupLineBytes<'a>
        requires { Numbered (roster_of self.now.memory).groups group }
        ensures { HoldsGroupLine result ((lines_of self.now.memory self.now.number).line_of_group group) }
    {
        GroupLineBytes {
            bytes: part(self.memory.group_lines(self.number), group, 1),
        }
    }
}
