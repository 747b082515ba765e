// The desk in its lent memory: the functions that desk_c exports, and the step of an event on a sound desk. Every answer is 0 or the
// number of the question that is answered no: `desk_c` exports each function by the same clauses, which include/exported.txt lists.
#![tactic(auto)]

pub mod run;
pub mod step;

ghost use Rattle.std.specs.Prelude.{◌≡◌};
ghost use Rattle.memory_opening.specs.Questions.{opening_answer};
ghost use Rattle.memory_opening.specs.Opening.{after_opening};
ghost use Rattle.memory_reading.specs.Reading.{instrument_answer, group_answer, instrument_report, group_report, reported};
ghost use Rattle.desk.specs.Step.{answer_to, after_event};

use crate::run::answer_next;
use limits::answer::number_of;
use memory_opening::open_desk;
use memory_reading::{read_group, read_instrument};
use memory_soundness::is_sound;

// Opens a desk in `m` from the roster's bytes.
pub fn desk_open(m: &mut [u8], roster: &[u8]) -> u8
    ensures answer { result ≡ opening_answer m.old roster.now }
    ensures memory { m.new ≡ after_opening m.old roster.now }
{
    number_of(open_desk(m, roster))
}

// Answers an event, and works it where it is accepted.
pub fn desk_event(m: &mut [u8], event: &[u8]) -> u8
    ensures answer { result ≡ answer_to m.old event.now }
    ensures memory { m.new ≡ after_event m.old event.now }
{
    let sound = is_sound(m);
    answer_next(m, &mut [], event, sound)
}

// Reads S, PCI and PVI of an account and instrument.
pub fn desk_instrument_position(
    m: &[u8],
    account: u16,
    instrument: u16,
    report: &mut [i64; 3],
) -> u8
    ensures answer { result ≡ instrument_answer m.now account instrument }
    ensures report { report.new ≡ reported (instrument_answer m.now account instrument)
        (instrument_report m.now account instrument) report.old }
{
    number_of(read_instrument(m, account as u64, instrument as u64, report))
}

// Reads PCC and PVC of an account and group, in ten-thousandths.
pub fn desk_group_position(m: &[u8], account: u16, group: u16, report: &mut [i64; 2]) -> u8
    ensures answer { result ≡ group_answer m.now account group }
    ensures report { report.new ≡ reported (group_answer m.now account group)
        (group_report m.now account group) report.old }
{
    number_of(read_group(m, account as u64, group as u64, report))
}
