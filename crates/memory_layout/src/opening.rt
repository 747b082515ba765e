// What an accepted opening writes: every word 0, then the kind of desk and the roster.
#![tactic(auto, unfolding(words::specs::Words::put_words, crate::specs::Opening::with_sizes))]

ghost use Rattle.std.specs.Prelude.{◌≡◌, ◌≤◌, length};
ghost use Rattle.memory_layout.specs.Layout.{memory_bytes, memory_words};
ghost use Rattle.memory_layout.specs.Opening.{cleared, store_kind, with_sizes, store_group_of, store_contract_of, store_weight_of};

use crate::table::{
    ACCOUNTS, CONTRACTS, CONTRACTS_OF, GROUPS, GROUPS_OF, INSTRUMENTS, KIND, MEMORY_BYTES, WEIGHTS,
};
use words::{set_signed_word, set_word};

// Makes every word of a desk 0.
pub fn clear(m: &mut [u8])
    requires { memory_bytes ≤ length m.old }
    ensures { m.new ≡ cleared m.old memory_words }
{
    m[..MEMORY_BYTES].fill(0);
}

// The kind of desk becomes 1: derivatives.
pub fn set_kind(m: &mut [u8])
    requires { memory_bytes ≤ length m.old }
    ensures { m.new ≡ store_kind m.old }
{
    set_word(m, KIND, 1);
}

// Writes the sizes of a roster.
pub fn put_sizes(m: &mut [u8], accounts: u64, groups: u64, contracts: u64, instruments: u64)
    requires { memory_bytes ≤ length m.old }
    ensures { m.new ≡ with_sizes m.old accounts groups contracts instruments }
{
    set_word(m, ACCOUNTS, accounts);
    set_word(m, GROUPS, groups);
    set_word(m, CONTRACTS, contracts);
    set_word(m, INSTRUMENTS, instruments);
}

// Writes the group of a contract, the contract of an instrument, the weight of an instrument: a line each, by the table that it writes to.
pub fn set_group_of(m: &mut [u8], contract: usize, group: u64)
    requires { (memory_bytes ≤ length m.old) × (contract ≤ 8) }
    ensures { m.new ≡ store_group_of m.old contract group }
{
    set_word(m, GROUPS_OF + contract, group);
}

pub fn set_contract_of(m: &mut [u8], instrument: usize, contract: u64)
    requires { (memory_bytes ≤ length m.old) × (instrument ≤ 32) }
    ensures { m.new ≡ store_contract_of m.old instrument contract }
{
    set_word(m, CONTRACTS_OF + instrument, contract);
}

pub fn set_weight_of(m: &mut [u8], instrument: usize, weight: i64)
    requires { (memory_bytes ≤ length m.old) × (instrument ≤ 32) }
    ensures { m.new ≡ store_weight_of m.old instrument weight }
{
    set_signed_word(m, WEIGHTS + instrument, weight);
}
