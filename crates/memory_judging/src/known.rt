// Questions 7 and 8: is the account, or the item, that an event names on the roster?
ghost use Rattle.std.specs.Prelude.{◌≡◌};
ghost use Rattle.book.specs.Decoding.{between};
ghost use Rattle.book.specs.Settings.{limited_item, blocked_account, blocked_item};
ghost use Rattle.book.specs.Table.{where_some, is_listed};
ghost use Rattle.memory_layout.specs.View.{roster_of};

use book::{Blocked, LimitLine};
use memory_layout::memory::Memory;

// The item of a LIMIT.
pub fn line_known(m: &Memory, line: LimitLine) -> bool
    ensures { result ≡ is_listed (roster_of m.now) (limited_item line) }
{
    m.item_known(line.item())
}

// The account of a BLOCK, where it names one. It stands beside the item's test below, alike but for the field: a number here and an `Item`
// there, each asked of another method of the memory. (`is_none_or` was tried: the goal `returns` stays open, for a number and for an item.)
pub fn blocked_account_known(m: &Memory, what: Blocked) -> bool
    ensures { result ≡ where_some (between 1 (roster_of m.now).accounts) (blocked_account what) }
{
    match what.account() {
        Some(account) => m.account_known(account),
        None => true,
    }
}

// The item of a BLOCK, where it names one. (As above.)
pub fn blocked_item_known(m: &Memory, what: Blocked) -> bool
    ensures { result ≡ where_some (is_listed (roster_of m.now)) (blocked_item what) }
{
    match what.item() {
        Some(item) => m.item_known(item),
        None => true,
    }
}
