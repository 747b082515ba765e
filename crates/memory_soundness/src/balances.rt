// The positions that a memory holds: S + B and −S + V of each account and instrument.
ghost use Rattle.std.specs.Prelude.{◌≡◌, ℕ, true};
ghost use Rattle.ledger.specs.Roster.{Numbered};
ghost use Rattle.memory_layout.specs.View.{market_of, roster_of, open_orders};
ghost use Rattle.memory_soundness.specs.Soundness.{orders_sound, instrument_sound, account_sound, positions_sound};
ghost use Rattle.memory_soundness.specs.Cells.{SmallBalances, SmallSums};

use crate::bits::all_small;
use crate::held_desk::HeldDesk;
use crate::sums::gather_sums;
use ledger::units::Contracts;
use memory_layout::account::DeskAccount;
use words::part;

// Of an account and instrument `i`. No sum with the balance, which may be any word, is computed.
#[tactic(auto, using(memory_layout::proofs::MarketRead::market_most))]
fn instrument_is_sound(account: &DeskAccount, cells: &[u64; 1089], i: usize) -> bool
    requires { SmallSums cells.now (open_orders account.now.memory) × Numbered (roster_of account.now.memory).instruments i }
    ensures { result ≡ instrument_sound account.now.memory account.now.number i }
{
    let s = Contracts(account.balance(i));
    let b = Contracts::of(cells[account.number * 64 + i]);
    let v = Contracts::of(cells[account.number * 64 + (32 + i)]);
    let most = Contracts::of(account.memory.market().largest);
    s <= most - b && v - most <= s
}

// Do all balances of an account lie so far within the market's largest figure that no order can bring a position past it? B and V are at
// most 256,000,000. The whole row is looked at, on the roster or not: the compiler then knows its length.
#[tactic(auto, using(memory_layout::proofs::FieldsRead::balances_long))]
fn balances_are_small(account: &DeskAccount) -> bool
    ensures { result ≡ true → SmallBalances account.now.memory (market_of account.now.memory).largest account.now.number }
{
    1000000000 <= account.memory.market().largest
        && all_small(
            part(account.memory.balances(account.number), 1, 32),
            536870912,
        )
}

// Of an account and each instrument: all balances at once, and where that does not tell, one by one.
#[tactic(auto, using(crate::proofs::PositionTests::small_account))]
fn account_is_sound(account: &DeskAccount, cells: &[u64; 1089]) -> bool
    requires { SmallSums cells.now (open_orders account.now.memory) }
    ensures { result ≡ account_sound account.now.memory account.now.number }
{
    let instruments = account.memory.instruments() as usize;
    balances_are_small(account) || (1..=instruments).all(|i| instrument_is_sound(account, cells, i))
}

// Of each account and instrument, by B and V.
fn positions_by_sums(desk: &HeldDesk) -> bool
    requires { orders_sound desk.now ≡ true }
    ensures { result ≡ positions_sound desk.now }
{
    let mut cells = [0u64; 1089];
    gather_sums(&desk.orders(), &mut cells);
    (1..=desk.memory.accounts() as usize).all(|a| account_is_sound(&desk.account(a), &cells))
}

// Of each account and instrument. Where all balances are small, B and V are not gathered.
pub fn positions_are_sound(desk: &HeldDesk) -> bool
    requires { orders_sound desk.now ≡ true }
    ensures { result ≡ positions_sound desk.now }
{
    (1..=desk.memory.accounts() as usize).all(|a| balances_are_small(&desk.account(a)))
        || positions_by_sums(desk)
}
