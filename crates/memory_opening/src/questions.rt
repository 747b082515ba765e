// Questions 2 to 4 of an opening.
ghost use Rattle.std.specs.Prelude.{◌≡◌, leb, nat_abs};
ghost use Rattle.book.specs.Decoding.{between};
ghost use Rattle.memory_layout.specs.Rosters.{names_fit, weights_fit};
ghost use Rattle.memory_opening.specs.Questions.{roster_from, lengths_fit};

use crate::roster::SizedRoster;
use words::fields::Field;

// Is `n` from 1 to `most`? This and the next are asked of a word in `memory_soundness`: of another width, by another definition.
fn numbered(n: usize, most: usize) -> bool
    ensures { result ≡ between 1 most n }
{
    (1..=most).contains(&n)
}

// Is a weight in range?
fn weighs(w: i32) -> bool
    ensures { result ≡ leb (nat_abs w) 1000000 }
{
    (-1000000..=1000000).contains(&w)
}

// 2: are the sizes within their limits and the length exact?
#[tactic(auto, unfolding(crate::proofs::Answers::lengths_parts))]
pub fn lengths_fit(s: &[u8]) -> bool
    ensures { result ≡ lengths_fit s.now }
{
    8 <= s.len()
        && numbered(usize::from(u16::at(s, 0)), 16)
        && numbered(usize::from(u16::at(s, 2)), 4)
        && numbered(usize::from(u16::at(s, 4)), 8)
        && numbered(usize::from(u16::at(s, 6)), 32)
        && s.len() == 8 + usize::from(u16::at(s, 4)) + 5 * usize::from(u16::at(s, 6))
}

// 3: does every contract name a group of the roster, and every instrument a contract?
pub fn names_fit(roster: &SizedRoster) -> bool
    ensures { result ≡ names_fit (roster_from roster.now) }
{
    let groups = usize::from(roster.groups());
    let contracts = usize::from(roster.contracts());
    (1..=contracts).all(|c| numbered(usize::from(roster.group_of(c)), groups))
        && (1..=usize::from(roster.instruments())).all(|i| numbered(
            usize::from(roster.contract_of(i)),
            contracts,
        ))
}

// 4: is every weight in range?
pub fn weights_fit(roster: &SizedRoster) -> bool
    ensures { result ≡ weights_fit (roster_from roster.now) }
{
    (1..=usize::from(roster.instruments())).all(|i| weighs(roster.weight_of(i)))
}
