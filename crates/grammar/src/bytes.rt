// The bytes of a file: classes, and a place in them with what stands there.
ghost use Rattle.std.specs.Prelude.{◌≡◌, ◌<◌, ◌≤◌, length, eqb};
ghost use Rattle.std.specs.List.{prefix_len};
ghost use Rattle.grammar.specs.Bytes.{is_blank, is_digit, is_plain};
ghost use Rattle.grammar.specs.Place.{place};
ghost use Rattle.grammar.specs.Reader.{literal_at, past_blanks};
ghost use Rattle.grammar.specs.Found.{past_literal};

use std::marker::Model;
use words::fields::Field;

// A class of bytes.
pub trait Class {
    ghost use Rattle.std.specs.Prelude.{ℕ, Bool};

    ghost test: { ℕ → Bool };

    // Is the byte of it?
    fn has(b: u8) -> bool
        ensures { result ≡ test b };
}

// A space, a tab, a carriage return or a line feed: `is_ascii_whitespace` takes a form feed too. Spelled out: the compiler then asks all
// four by one bit of a word, and with `matches!` by a branch for each, which is slower where blanks are of several kinds.
pub struct Blank;

// 0 to 9.
pub struct Digit;

// No quote, no ampersand and no angle bracket.
pub struct Plain;

impl Class for Blank {
    ghost test = { is_blank };

    #[tactic(auto, unfolding(crate::specs::Bytes::is_blank))]
    fn has(b: u8) -> bool {
        b == b' ' || b == b'\t' || b == b'\r' || b == b'\n'
    }
}

impl Class for Digit {
    ghost test = { is_digit };

    #[tactic(auto, unfolding(crate::specs::Bytes::is_digit))]
    fn has(b: u8) -> bool {
        b.is_ascii_digit()
    }
}

impl Class for Plain {
    ghost test = { is_plain };

    #[tactic(auto, unfolding(crate::specs::Bytes::is_plain))]
    fn has(b: u8) -> bool {
        !matches!(b, b'"' | b'&' | b'<' | b'>')
    }
}

// How many bytes of the class the bytes begin with.
pub fn prefix<C: Class>(s: &[u8]) -> usize
    ensures count { result ≡ prefix_len C.test s.now }
    ensures within { result ≤ length s.now }
{
    s.iter().take_while(|b| C::has(**b)).count()
}

// The place behind the blanks from `at` on. The loop runs on the place itself, not on a count: after counts the compiler takes each place
// for the sum of all that was counted before it, and keeps them all at hand.
#[tactic(auto, using(crate::proofs::Spans::blanks_passed))]
#[inline(always)]
fn behind_blanks(s: &[u8], at: usize) -> usize
    requires { at ≤ length s.now }
    ensures place { result ≡ past_blanks s.now at }
    ensures within { result ≤ length s.now }
{
    let mut p = at;
    while p < s.len() {
        if !Blank::has(s[p]) {
            return p;
        }
        p += 1;
    }
    p
}

// Do the bytes `l` stand at `at`? Eight at a time, then one by one: in the code of a caller that spells them out no loop is left.
// (So too the hints on the readers of a `Cursor`: they are read where the caller's bytes are known.)
#[tactic(auto, using(crate::proofs::Comparing::compared))]
#[inline(always)]
fn stands(s: &[u8], at: usize, l: &[u8]) -> bool
    requires { at ≤ length s.now }
    ensures { result ≡ literal_at s.now l.now at }
{
    if s.len() - at < l.len() {
        return false;
    }
    let mut i = 0;
    while 8 <= l.len() - i {
        if u64::at(s, at + i) != u64::at(l, i) {
            return false;
        }
        i += 8;
    }
    while i < l.len() {
        if s[at + i] != l[i] {
            return false;
        }
        i += 1;
    }
    true
}

// A place in the bytes of a file that is read.
#[derive(Clone, Drop)]
pub struct Cursor<'a> {
    pub(crate) bytes: &'a [u8],
    pub(crate) at: usize,
}

// A clause sees the bytes and the place, which is one of theirs or their end.
impl<'a> Model for Cursor<'a> {
    ghost use Rattle.std.specs.Prelude.{◌≤◌, length};
    ghost use Rattle.grammar.specs.Place.{Place, place};

    ghost Value = { Place };

    ghost view = { λ c. place c.bytes.now c.at };

    ghost invariant = { λ c. c.at ≤ length c.bytes.now };
}

impl<'a> Cursor<'a> {
    // Where the bytes begin.
    pub fn new(bytes: &'a [u8]) -> Cursor<'a>
        ensures { result ≡ place bytes.now 0 }
    {
        Cursor { bytes, at: 0 }
    }

    // A place in the bytes, or their end.
    pub fn at(bytes: &'a [u8], at: usize) -> Cursor<'a>
        requires { at ≤ length bytes.now }
        ensures { result ≡ place bytes.now at }
    {
        Cursor { bytes, at }
    }

    // The same place. (By hand, as `Memory::again`: a type with a Model and a lifetime cannot be `Copy`.)
    pub fn here(&self) -> Cursor<'a>
        ensures { result ≡ self.now }
    {
        Cursor {
            bytes: self.bytes,
            at: self.at,
        }
    }

    // The number of the place.
    pub fn place(&self) -> usize
        ensures { result ≡ self.now.at }
    {
        self.at
    }

    // Do the bytes end here?
    pub fn at_end(&self) -> bool
        ensures { result ≡ eqb self.now.at (length self.now.bytes) }
    {
        self.at == self.bytes.len()
    }

    // The place behind the blanks that stand here: a number of 64 bits, which bounds what a caller counts by places.
    #[inline(always)]
    pub fn past_blanks(&self) -> Cursor<'a>
        ensures place { result ≡ place self.now.bytes (past_blanks self.now.bytes self.now.at) }
        ensures small { result.at < 18446744073709551616 }
    {
        Cursor {
            bytes: self.bytes,
            at: behind_blanks(self.bytes, self.at),
        }
    }

    // The place behind the bytes `l`, where they stand here.
    #[tactic(auto, using(crate::proofs::Starts::literal_within))]
    #[inline(always)]
    pub fn literal(&self, l: &[u8]) -> Option<Cursor<'a>>
        ensures { result ≡ past_literal self.now.bytes l.now self.now.at }
    {
        if stands(self.bytes, self.at, l) {
            Some(Cursor {
                bytes: self.bytes,
                at: self.at + l.len(),
            })
        } else {
            None
        }
    }
}
