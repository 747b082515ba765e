// The lines that a memory holds: is every figure from 0 to the largest of the market, whether its line is set or not?
ghost use Rattle.std.specs.Prelude.{◌≡◌, ◌↔◌, ℕ, true, ◌+◌, ◌*◌, ◌/◌, ◌<◌, ◌≤◌, length, IsTrue};
ghost use Rattle.limits.specs.InBytes.{line_at, group_line_at};
ghost use Rattle.memory_soundness.specs.Soundness.{line_in_range, group_line_in_range, account_lines_sound, lines_sound};

use crate::bits::all_in_range;
use memory_layout::account::DeskAccount;
use memory_layout::readable::ReadableDesk;
use words::fields::Field;
use words::part;

// Both figures of word `k`, as numbers of 32 bits. Both are tested, and the two words of a line, with no branch between: the compiler then
// tests the four figures of a line at once.
#[tactic(auto, using(crate::proofs::LineFacts::word_of_fields))]
fn word_in_range(m: &[u8], k: usize, largest: u32) -> bool
    requires { (k + 1) * 8 ≤ length m.now }
    ensures { result ≡ group_line_in_range largest (group_line_at m.now k) }
{
    (u32::at(m, k * 8) <= largest) & (u32::at(m, k * 8 + 4) <= largest)
}

// The line in two words.
#[tactic(auto, using(crate::proofs::LineFacts::line_of_words))]
fn line_in_range(line: &[u8; 16], largest: u32) -> bool
    ensures { result ≡ line_in_range largest (line_at line.now 0) }
{
    word_in_range(line, 0, largest) & word_in_range(line, 1, largest)
}

// Each line of a row, two words each.
fn row_in_range(row: &[u8], largest: u32) -> bool
    ensures { IsTrue result ↔ ((p : ℕ) → p < length row.now / 16 → line_in_range largest (line_at row.now (p * 2)) ≡ true) }
{
    row.as_chunks::<16>()
        .0
        .iter()
        .all(|line| line_in_range(line, largest))
}

// Each group line of a row, a word each.
fn group_row_in_range(row: &[u8], largest: u32) -> bool
    ensures { IsTrue result ↔ ((p : ℕ) → p < length row.now / 8 → group_line_in_range largest (group_line_at row.now p) ≡ true) }
{
    row.as_chunks::<8>()
        .0
        .iter()
        .all(|line| word_in_range(line, 0, largest))
}

// The lines of an account: all 168 figures of its row at once, on the roster or not, so that the compiler knows their number; and where
// that does not tell, those on the roster line by line.
#[tactic(auto, using(crate::proofs::LineFacts::rows_read))]
fn account_lines_are_sound(account: &DeskAccount) -> bool
    ensures { result ≡ account_lines_sound account.now.memory account.now.number }
{
    let largest = account.memory.market().largest;
    let most = largest as u32;
    let instruments = account.memory.instruments() as usize;
    let contracts = account.memory.contracts() as usize;
    let groups = account.memory.groups() as usize;
    all_in_range(account.memory.lines_row(account.number), largest)
        || row_in_range(
            part(account.memory.own_lines(account.number), 2, instruments * 2),
            most,
        ) && row_in_range(
            part(
                account.memory.default_lines(account.number),
                2,
                contracts * 2,
            ),
            most,
        ) && group_row_in_range(
            part(account.memory.group_lines(account.number), 1, groups),
            most,
        )
}

// All lines of the roster.
pub fn lines_are_sound(desk: &ReadableDesk) -> bool
    ensures { result ≡ lines_sound desk.now }
{
    (1..=desk.memory.accounts() as usize).all(|a| account_lines_are_sound(&desk.account(a)))
}
