// An attribute: a blank or more, its name, and its value in quotes.
ghost use Rattle.std.specs.Prelude.{◌≡◌, ◌≤◌, length, take, IfSome};
ghost use Rattle.std.specs.List.{prefix_len};
ghost use Rattle.grammar.specs.Bytes.{is_digit, value_of};
ghost use Rattle.grammar.specs.Reader.{opening_at, digits_at, plain_at, number_at, text_at};
ghost use Rattle.grammar.specs.Found.{place_of, found, found_or_none};

use crate::bytes::{Class, Cursor, Digit, Plain, prefix};

// How many digits up to 10 bytes begin with, and the number that they say: counted and read in one pass.
#[tactic(auto, using(crate::proofs::Values::digit_by_digit), unfolding(crate::specs::Bytes::value_from))]
#[inline(always)]
fn leading(window: &[u8]) -> (usize, u64)
    requires { length window.now ≤ 10 }
    ensures count { result.0 ≡ prefix_len is_digit window.now }
    ensures value { result.1 ≡ value_of (take result.0 window.now) }
    ensures small { result.1 ≤ 9999999999 }
{
    let mut count = 0;
    let mut value: u64 = 0;
    for b in window {
        if !Digit::has(*b) {
            break;
        }
        value = value * 10 + (*b - b'0') as u64;
        count += 1;
    }
    (count, value)
}

// What may be missing at `at`, and the place behind it.
pub fn or_none<'a, T>(read: Option<(T, Cursor<'a>)>, at: &Cursor<'a>) -> (Option<T>, Cursor<'a>)
    ensures { result ≡ found_or_none at.now read.entry }
{
    match read {
        Some((value, next)) => (Some(value), next),
        None => (None, at.here()),
    }
}

impl<'a> Cursor<'a> {
    // The place behind a blank or more and then the bytes `l`: a name with what stands between it and its value.
    #[tactic(auto, using(crate::proofs::Openings::opening_named), unfolding(crate::specs::Reader::opening_at))]
    #[inline(always)]
    pub fn opening(&self, l: &[u8]) -> Option<Cursor<'a>>
        ensures { result ≡ place_of self.now.bytes (opening_at self.now.bytes l.now self.now.at) }
    {
        let name = self.past_blanks();
        if name.at == self.at {
            return None;
        }
        name.literal(l)
    }

    // The number of 1 to 10 digits that stand here, with a quote behind them.
    #[tactic(auto, using(crate::proofs::UpToQuote::number_read))]
    #[inline(always)]
    pub fn digits(&self) -> Option<(u64, Cursor<'a>)>
        ensures read { result ≡ found self.now.bytes (digits_at self.now.bytes self.now.at) }
        ensures small { IfSome result (λ n. n.0 ≤ 9999999999) }
    {
        let window = &self.bytes[self.at..self.bytes.len().min(self.at + 10)];
        let (count, value) = leading(window);
        if count == 0 {
            return None;
        }
        let quote = Cursor {
            bytes: self.bytes,
            at: self.at + count,
        };
        let next = quote.literal(b"\"")?;
        Some((value, next))
    }

    // The place behind a text of 0 to 100 bytes and a quote.
    #[tactic(auto, using(crate::proofs::UpToQuote::text_read))]
    #[inline(always)]
    pub fn plain(&self) -> Option<Cursor<'a>>
        ensures { result ≡ place_of self.now.bytes (plain_at self.now.bytes self.now.at) }
    {
        let window = &self.bytes[self.at..self.bytes.len().min(self.at + 100)];
        let quote = Cursor {
            bytes: self.bytes,
            at: self.at + prefix::<Plain>(window),
        };
        quote.literal(b"\"")
    }

    // A number behind its name; a text has no value to hand on, so that it has a line of its own.
    #[tactic(auto, unfolding(crate::specs::Reader::number_at))]
    #[inline(always)]
    pub fn number(&self, l: &[u8]) -> Option<(u64, Cursor<'a>)>
        ensures read { result ≡ found self.now.bytes (number_at self.now.bytes l.now self.now.at) }
        ensures small { IfSome result (λ n. n.0 ≤ 9999999999) }
    {
        self.opening(l)?.digits()
    }

    // A text behind its name.
    #[tactic(auto, unfolding(crate::specs::Reader::text_at))]
    #[inline(always)]
    pub fn text(&self, l: &[u8]) -> Option<Cursor<'a>>
        ensures { result ≡ place_of self.now.bytes (text_at self.now.bytes l.now self.now.at) }
    {
        self.opening(l)?.plain()
    }
}
