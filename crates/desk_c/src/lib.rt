// The desk's functions as C calls them: each is the library's, by the same clauses (include/desk.h).
#![tactic(auto)]

ghost use Rattle.std.specs.Prelude.{◌≡◌, length};
ghost use Rattle.memory_opening.specs.Questions.{opening_answer};
ghost use Rattle.memory_opening.specs.Opening.{after_opening};
ghost use Rattle.memory_reading.specs.Reading.{instrument_answer, group_answer, instrument_report, group_report, reported};
ghost use Rattle.desk.specs.Step.{answer_to, after_event};
ghost use Rattle.desk.specs.Days.{memory_over};
ghost use Rattle.desk.specs.Run.{events_for, answered};

// Opens a desk in `m` from the roster's bytes.
#[unsafe(no_mangle)]
pub extern "C" fn desk_open(m: &mut [u8], roster: &[u8]) -> u8
    ensures answer { result ≡ opening_answer m.old roster.now }
    ensures memory { m.new ≡ after_opening m.old roster.now }
{
    desk::desk_open(m, roster)
}

// Answers an event, and works it where it is accepted.
#[unsafe(no_mangle)]
pub extern "C" fn desk_event(m: &mut [u8], event: &[u8]) -> u8
    ensures answer { result ≡ answer_to m.old event.now }
    ensures memory { m.new ≡ after_event m.old event.now }
{
    desk::desk_event(m, event)
}

// Reads S, PCI and PVI of an account and instrument.
#[unsafe(no_mangle)]
pub extern "C" fn desk_instrument_position(
    m: &[u8],
    account: u16,
    instrument: u16,
    report: &mut [i64; 3],
) -> u8
    ensures answer { result ≡ instrument_answer m.now account instrument }
    ensures report { report.new ≡ reported (instrument_answer m.now account instrument)
        (instrument_report m.now account instrument) report.old }
{
    desk::desk_instrument_position(m, account, instrument, report)
}

// Reads PCC and PVC of an account and group, in ten-thousandths.
#[unsafe(no_mangle)]
pub extern "C" fn desk_group_position(
    m: &[u8],
    account: u16,
    group: u16,
    report: &mut [i64; 2],
) -> u8
    ensures answer { result ≡ group_answer m.now account group }
    ensures report { report.new ≡ reported (group_answer m.now account group)
        (group_report m.now account group) report.old }
{
    desk::desk_group_position(m, account, group, report)
}

// Answers the events, a byte for each, until they or the room for answers end. Returns how many.
#[unsafe(no_mangle)]
pub extern "C" fn desk_run(m: &mut [u8], events: &[u8], answers: &mut [u8]) -> usize
    ensures count { result ≡ length (events_for events.now answers.old) }
    ensures memory { m.new ≡ memory_over m.old (events_for events.now answers.old) }
    ensures answers { answers.new ≡ answered m.old events.now answers.old }
{
    desk::run::desk_run(m, events, answers)
}
