// The day program: one roster and then events from standard input; the answers, and the positions at the end, to standard output.
#![tactic(auto)]

mod reports;

ghost use Rattle.std.specs.Prelude.{◌^◌, ◌<◌, ◌≤◌, length, IfOk};

use crate::reports::position_lines;
use day_lines::answers::answer_lines;
use day_lines::input::fill;
use day_lines::output::Lines;
use desk::desk_open;
use desk::run::desk_run;
use std::io;
use std::io::{Read, Write};
use words::fields::Field;

// A block holds whole events, of 48 bytes, so that its end cuts none.
const BLOCK_EVENTS: usize = 1024;

const BLOCK_BYTES: usize = 49152;

// More blocks than any input has: a proved loop has to end.
const MOST_BLOCKS: u64 = 9007199254740992;

// The bytes of the longest roster.
const ROSTER_BYTES: usize = 176;

// How many bytes a roster has by its sizes, the first eight bytes; 8 where a size is out of range. The program reads as many and no more;
// that the bytes are a roster the desk asks.
fn roster_length(roster: &[u8; ROSTER_BYTES]) -> usize
    ensures { (8 ≤ result) × (result ≤ 176) }
{
    let contracts = u16::at(roster, 4);
    let instruments = u16::at(roster, 6);
    if (1..=16).contains(&u16::at(roster, 0))
        && (1..=4).contains(&u16::at(roster, 2))
        && (1..=8).contains(&contracts)
        && (1..=32).contains(&instruments)
    {
        8 + contracts as usize + 5 * (instruments as usize)
    } else {
        8
    }
}

// Reads the roster, as long as its sizes say: how many bytes came.
fn read_roster<R: Read>(input: &mut R, roster: &mut [u8; ROSTER_BYTES]) -> io::Result<usize>
    ensures { IfOk result (λ n. n ≤ 176) }
{
    let got = fill(input, &mut roster[..8])?;
    if got < 8 {
        return Ok(got);
    }
    let length = roster_length(roster);
    let behind = fill(input, &mut roster[8..length])?;
    Ok(8 + behind)
}

// Works the events of a block, `before` events having come before them, and prints the answers.
fn work_block<W: Write>(
    lines: &mut Lines<W>,
    m: &mut [u8],
    events: &[u8],
    before: u64,
) -> io::Result<()>
    requires { before < 2 ^ 63 }
{
    let mut answers = [0u8; BLOCK_EVENTS];
    let count = desk_run(m, events, &mut answers);
    answer_lines(lines, &answers[..count], before)
}

// Works the events to the end of the input, and prints the answers.
fn work_events<R: Read, W: Write>(
    input: &mut R,
    lines: &mut Lines<W>,
    m: &mut [u8],
) -> io::Result<()> {
    let mut block = [0u8; BLOCK_BYTES];
    for worked in 0..MOST_BLOCKS {
        let got = fill(input, &mut block)?;
        work_block(lines, m, &block[..got], worked * BLOCK_EVENTS as u64)?;
        if got < BLOCK_BYTES {
            break;
        }
    }
    Ok(())
}

// The whole day.
fn work_day<R: Read, W: Write>(input: &mut R, lines: &mut Lines<W>) -> io::Result<()> {
    let mut m = [0u8; 65536];
    let mut roster = [0u8; ROSTER_BYTES];
    let length = read_roster(input, &mut roster)?;
    let answer = desk_open(&mut m, &roster[..length]);
    writeln!(lines, "R {answer}")?;
    if answer != 0 {
        return Ok(());
    }
    work_events(input, lines, &mut m)?;
    position_lines(lines, &m, &roster)
}

fn main(rt: HostRuntime) {
    let mut lines = Lines::new(rt.stdout());
    let worked = work_day(&mut rt.stdin(), &mut lines);
    // What waits is written also where the input failed.
    let written = lines.flush();
    if worked.is_err() || written.is_err() {
        let _ = rt.eprintln("day: standard input or output failed");
    }
}
