// The positions at the end of a day.
ghost use Rattle.std.specs.Prelude.{◌≤◌, length};

use day_lines::output::Lines;
use desk::{desk_group_position, desk_instrument_position};
use std::io;
use std::io::Write;
use words::fields::Field;

// The line of an account and an item, with the figures of its report.
fn report_line<W: Write>(
    lines: &mut Lines<W>,
    letter: char,
    account: u16,
    item: u16,
    figures: &[i64],
) -> io::Result<()> {
    write!(lines, "{letter} {account} {item}")?;
    for figure in figures {
        write!(lines, " {figure}")?;
    }
    writeln!(lines)
}

// The lines of the instruments, accounts ascending: `I` account instrument S PCI PVI. They and those of the groups are two functions: one
// with the reader as a closure was tried, and the check does not cover a bound `Fn(.., &mut [i64; N])` that names a const parameter.
fn instrument_lines<W: Write>(
    lines: &mut Lines<W>,
    m: &[u8],
    accounts: u16,
    instruments: u16,
) -> io::Result<()> {
    for account in 1..=accounts {
        for instrument in 1..=instruments {
            let mut report = [0i64; 3];
            if desk_instrument_position(m, account, instrument, &mut report) == 0 {
                report_line(lines, 'I', account, instrument, &report)?;
            }
        }
    }
    Ok(())
}

// The lines of the groups, accounts ascending: `G` account group PCC PVC.
fn group_lines<W: Write>(
    lines: &mut Lines<W>,
    m: &[u8],
    accounts: u16,
    groups: u16,
) -> io::Result<()> {
    for account in 1..=accounts {
        for group in 1..=groups {
            let mut report = [0i64; 2];
            if desk_group_position(m, account, group, &mut report) == 0 {
                report_line(lines, 'G', account, group, &report)?;
            }
        }
    }
    Ok(())
}

// The lines of the instruments, then those of the groups, of a roster's sizes.
pub fn position_lines<W: Write>(lines: &mut Lines<W>, m: &[u8], roster: &[u8]) -> io::Result<()>
    requires { 8 ≤ length roster.now }
{
    let accounts = u16::at(roster, 0);
    instrument_lines(lines, m, accounts, u16::at(roster, 6))?;
    group_lines(lines, m, accounts, u16::at(roster, 2))
}
