// Single fields of a memory, read: its kind and market, an instrument's block, the rows of an account, and the words that `account` reads
// one by.
#![tactic(auto, using(crate::proofs::FieldsRead::fields_read))]

ghost use Rattle.std.specs.Prelude.{◌≡◌, ◌+◌, ◌*◌, ◌≤◌, length};
ghost use Rattle.ledger.specs.Roster.{Numbered};
ghost use Rattle.memory_layout.specs.Layout.{kind_word};
ghost use Rattle.memory_layout.specs.View.{roster_of, flag, blocks_of, balances_part, lines_row, own_lines, default_lines, group_lines};
ghost use Rattle.memory_layout.specs.Readable.{MarketOf};
ghost use Rattle.words.specs.Words.{word_at, part_of};

use crate::memory::Memory;
use crate::readable::ReadableDesk;
use crate::table::{BALANCES, DEFAULT_LINES, GROUP_LINES, INSTRUMENT_BLOCKS, KIND, OWN_LINES};
use book::market::{Market, market_of_kind};
use words::{part, word};

impl<'a> Memory<'a> {
    // The kind of desk.
    pub fn kind(&self) -> u64
        ensures { result ≡ word_at self.now kind_word }
    {
        word(self.bytes, KIND)
    }

    // The market, by the kind of desk.
    pub fn market(&self) -> Market
        ensures { MarketOf self.now result }
    {
        market_of_kind(self.kind())
    }

    // Does word `k` say yes?
    pub(crate) fn says_yes(&self, k: usize) -> bool
        requires { k * 8 + 8 ≤ length self.now }
        ensures { result ≡ flag self.now k }
    {
        word(self.bytes, k) != 0
    }

    // The `n` words from word `k` on.
    pub(crate) fn words(&self, k: usize, n: usize) -> &'a [u8]
        requires { (k + n) * 8 ≤ length self.now }
        ensures { result.now ≡ part_of self.now k n }
    {
        part(self.bytes, k, n)
    }
}

// The rows of an account, as parts: they differ in the field's place and length alone, a line each over `part`.
impl<'a> Memory<'a> {
    // The part with its balances, as `positions` reads it.
    pub fn balances(&self, account: usize) -> &'a [u8]
        requires { account ≤ 16 }
        ensures { result.now ≡ balances_part self.now account }
    {
        part(self.bytes, BALANCES + account * 32, 33)
    }

    // Its lines, set or not: all of them, of which there are 168 figures; and from each kind's number 0 on, its own, default and group
    // lines.
    pub fn lines_row(&self, account: usize) -> &'a [u8]
        requires { account ≤ 16 }
        ensures { result.now ≡ lines_row self.now account }
    {
        part(self.bytes, OWN_LINES + account * 84 + 2, 84)
    }

    pub fn own_lines(&self, account: usize) -> &'a [u8]
        requires { account ≤ 16 }
        ensures { result.now ≡ own_lines self.now account }
    {
        part(self.bytes, OWN_LINES + account * 84, 66)
    }

    pub fn default_lines(&self, account: usize) -> &'a [u8]
        requires { account ≤ 16 }
        ensures { result.now ≡ default_lines self.now account }
    {
        part(self.bytes, DEFAULT_LINES + account * 84, 18)
    }

    pub fn group_lines(&self, account: usize) -> &'a [u8]
        requires { account ≤ 16 }
        ensures { result.now ≡ group_lines self.now account }
    {
        part(self.bytes, GROUP_LINES + account * 84, 5)
    }
}

impl<'a> ReadableDesk<'a> {
    // Is the instrument blocked for all?
    pub fn instrument_is_blocked(&self, instrument: usize) -> bool
        requires { Numbered (roster_of self.now).instruments instrument }
        ensures { result ≡ (blocks_of self.now).instrument instrument }
    {
        self.memory.says_yes(INSTRUMENT_BLOCKS + instrument)
    }
}
