// Writes the roster of an accepted opening, field by field. The memory is written, so that it is lent as bytes, of which each function asks
// that they are enough.
ghost use Rattle.std.specs.Prelude.{◌≡◌, ◌≤◌, length};
ghost use Rattle.memory_layout.specs.Layout.{memory_bytes};
ghost use Rattle.memory_layout.specs.Opening.{groups_written, contracts_written, weights_written, with_roster};
ghost use Rattle.memory_opening.specs.Questions.{roster_from};

use crate::roster::SizedRoster;
use memory_layout::opening::{put_sizes, set_contract_of, set_group_of, set_weight_of};

// The tables, one loop each: over all three a loop would take the table's name, and match it to the same reader and store.
fn put_groups(m: &mut [u8], roster: &SizedRoster)
    requires { memory_bytes ≤ length m.old }
    ensures { m.new ≡ groups_written (roster_from roster.now).group_of m.old (roster_from roster.now).contracts }
{
    for c in 1..=usize::from(roster.contracts()) {
        set_group_of(m, c, u64::from(roster.group_of(c)));
    }
}

fn put_contracts(m: &mut [u8], roster: &SizedRoster)
    requires { memory_bytes ≤ length m.old }
    ensures { m.new ≡ contracts_written (roster_from roster.now).contract_of m.old (roster_from roster.now).instruments }
{
    for i in 1..=usize::from(roster.instruments()) {
        set_contract_of(m, i, u64::from(roster.contract_of(i)));
    }
}

fn put_weights(m: &mut [u8], roster: &SizedRoster)
    requires { memory_bytes ≤ length m.old }
    ensures { m.new ≡ weights_written (roster_from roster.now).weight m.old (roster_from roster.now).instruments }
{
    for i in 1..=usize::from(roster.instruments()) {
        set_weight_of(m, i, i64::from(roster.weight_of(i)));
    }
}

// Writes the roster: its sizes, then its tables.
#[tactic(auto, unfolding(memory_layout::specs::Opening::with_roster))]
pub fn put_roster(m: &mut [u8], roster: &SizedRoster)
    requires { memory_bytes ≤ length m.old }
    ensures { m.new ≡ with_roster m.old (roster_from roster.now) }
{
    put_sizes(
        m,
        u64::from(roster.accounts()),
        u64::from(roster.groups()),
        u64::from(roster.contracts()),
        u64::from(roster.instruments()),
    );
    put_groups(m, roster);
    put_contracts(m, roster);
    put_weights(m, roster);
}
