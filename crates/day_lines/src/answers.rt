// The lines of answers: `E` place answer. The places of ten lines share all digits but the last: these, the tens, are made once for the
// ten. Room is made line by line.
ghost use Rattle.std.specs.Prelude.{◌≡◌, ◌+◌, ◌/◌, ◌%◌, ◌^◌, ◌<◌, ◌≤◌, length, get_or, take, decimal};

use crate::output::Lines;
use itoa::Buffer;
use std::io;
use std::io::Write;

// The bytes of the longest line: `E`, two spaces, a place of 20 digits, an answer of 3, and the line's end.
const LINE: usize = 27;

// Puts the digits of a number in decimal at the start of `text`: how many they are. Once for ten lines,
// which share them.
pub fn put_digits(text: &mut [u8; 20], n: u64) -> usize
    ensures within { result ≤ 20 }
    ensures digits { take result text.new ≡ decimal n }
{
    let mut buffer = Buffer::new();
    let digits = buffer.format(n).as_bytes();
    text[..digits.len()].copy_from_slice(digits);
    digits.len()
}

// The tens of a place: their digits, and how many they are; none where the place has one digit.
#[derive(Clone, Copy)]
struct Tens {
    text: [u8; 20],
    count: usize,
    ghost few: { count ≤ 19 },
}

impl Tens {
    fn of(place: u64) -> Tens {
        let mut text = [0; 20];
        if place < 10 {
            return Tens { text, count: 0 };
        }
        let count = put_digits(&mut text, place / 10);
        Tens { text, count }
    }
}

// The digit of a number below ten.
fn digit(number: u8) -> u8
    requires { number < 10 }
    ensures { result ≡ 48 + number }
{
    b'0' + number
}

// Puts two digits: how many they are. An answer's are put by hand: it has one or two, and stands at a fixed place behind those of its line.
fn put_two(text: &mut [u8], number: u8) -> usize
    requires { (2 ≤ length text.old) × (number < 100) }
    ensures count { result ≡ 2 }
    ensures digits { (get_or text.new 0 0 ≡ 48 + number / 10) × (get_or text.new 1 0 ≡ 48 + number % 10) }
{
    text[0] = digit(number / 10);
    text[1] = digit(number % 10);
    2
}

// Puts an answer: how many digits it has.
fn put_answer(text: &mut [u8], answer: u8) -> usize
    requires { 3 ≤ length text.old }
    ensures { result ≤ 3 }
{
    if answer < 10 {
        text[0] = digit(answer);
        return 1;
    }
    if answer < 100 {
        return put_two(text, answer);
    }
    text[0] = digit(answer / 100);
    1 + put_two(&mut text[1..], answer % 100)
}

// Puts the line of a place, whose tens and last digit are given, and its answer: how many bytes it has. All 20 bytes of the tens are put,
// also those behind their digits. A copy of fixed length by a loop is two moves; `copy_from_slice` was slower: it compares the addresses.
fn put_line(line: &mut [u8], tens: &Tens, last: u8, answer: u8) -> usize
    requires { (27 ≤ length line.old) × (last < 10) }
    ensures { result ≤ 27 }
{
    line[0] = b'E';
    line[1] = b' ';
    for k in 0..20 {
        line[2 + k] = tens.text[k];
    }
    let at = 2 + tens.count;
    line[at] = digit(last);
    line[at + 1] = b' ';
    let end = at + 2 + put_answer(&mut line[at + 2..], answer);
    line[end] = b'\n';
    end + 1
}

impl<W: Write> Lines<W> {
    // Adds the lines of answers whose places have the same tens; `place` is the first.
    fn add_ten(&mut self, answers: &[u8], place: u64) -> io::Result<()>
        requires { place % 10 + length answers.now ≤ 10 }
    {
        let tens = Tens::of(place);
        let first = (place % 10) as u8;
        for (k, answer) in answers.iter().enumerate() {
            if !self.has_room(LINE) {
                self.write_waiting()?;
            }
            self.used += put_line(
                &mut self.buffer[self.used..],
                &tens,
                first + k as u8,
                *answer,
            );
        }
        Ok(())
    }
}

// The lines of answers, `before` events having come before theirs: a turn takes those of one ten.
pub fn answer_lines<W: Write>(lines: &mut Lines<W>, answers: &[u8], before: u64) -> io::Result<()>
    requires { before < 2 ^ 63 }
{
    let mut place = before + 1;
    let mut rest = answers;
    while !rest.is_empty() {
        let count = rest.len().min(10 - (place % 10) as usize);
        let (ten, behind) = rest.split_at(count);
        lines.add_ten(ten, place)?;
        place += count as u64;
        rest = behind;
    }
    Ok(())
}
