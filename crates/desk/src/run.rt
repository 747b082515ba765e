// Many events in one call. Question 5 is asked once: an event that is answered leaves the desk as sound as it was.
ghost use Rattle.std.specs.Prelude.{◌≡◌, true, length};
ghost use Rattle.memory_layout.specs.View.{open_orders};
ghost use Rattle.memory_soundness.specs.Soundness.{sound_desk};
ghost use Rattle.memory_soundness.specs.Cells.{Sums};
ghost use Rattle.desk.specs.Step.{answer_to, after_event};
ghost use Rattle.desk.specs.Days.{memory_over};
ghost use Rattle.desk.specs.Run.{events_for, answered};

use crate::step::step;
use decoding::decode;
use limits::answer::{Refusal, number_of};
use memory_soundness::is_sound_with_sums;

// Answers an event at a desk that is sound or not, and works it where it is accepted. Where it is sound, the cells hold B and V of all
// accounts, or there are none. (`sound` is question 5's answer, found out once for a run; no value stands with it.) Both ways in call it,
// so that decoding and step are called at one place alone and compile into it.
pub fn answer_next(m: &mut [u8], cells: &mut [u64], event: &[u8], sound: bool) -> u8
    requires { (sound ≡ sound_desk m.old) × (sound ≡ true → Sums cells.old (open_orders m.old)) }
    ensures answer { result ≡ answer_to m.old event.now }
    ensures memory { m.new ≡ after_event m.old event.now }
    ensures sound { sound ≡ sound_desk m.new }
    ensures sums { sound ≡ true → Sums cells.new (open_orders m.new) }
{
    if !sound {
        return number_of(Err(Refusal::NoSoundDesk));
    }
    number_of(step(m, cells, decode(event)))
}

// Answers the events, a byte for each, until they or the room for answers end. Returns how many.
pub fn desk_run(m: &mut [u8], events: &[u8], answers: &mut [u8]) -> usize
    ensures count { result ≡ length (events_for events.now answers.old) }
    ensures memory { m.new ≡ memory_over m.old (events_for events.now answers.old) }
    ensures answers { answers.new ≡ answered m.old events.now answers.old }
{
    let mut cells = [0u64; 1089];
    let sound = is_sound_with_sums(m, &mut cells);
    let mut count = 0;
    // By index: tried over `zip(answers.iter_mut())`, and the proof did not close, as it leaves nothing known of what was written.
    for event in events.chunks(48).take(answers.len()) {
        answers[count] = answer_next(m, &mut cells, event, sound);
        count += 1;
    }
    count
}
