// One event on a sound desk: judged, and worked where it is accepted, with the detail that the judge hands on.
ghost use Rattle.std.specs.Prelude.{◌≡◌};
ghost use Rattle.limits.specs.Answers.{number_of};
ghost use Rattle.memory_layout.specs.View.{open_orders};
ghost use Rattle.memory_layout.specs.Judged.{judged};
ghost use Rattle.memory_soundness.specs.Cells.{Sums};
ghost use Rattle.memory_soundness.specs.SoundMemory.{SoundMemory};
ghost use Rattle.desk.specs.Step.{stepped};

use book::Event;
use limits::answer::Answer;
use memory_judging::judge;
use memory_layout::memory::Memory;
use memory_soundness::sound_desk::SoundDesk;
use memory_working::work;

// The cells hold B and V of all accounts, before the event and after it, or there are none.
pub fn step(m: &mut [u8], cells: &mut [u64], e: Event) -> Answer
    requires { SoundMemory m.old × Sums cells.old (open_orders m.old) }
    ensures answer { number_of result ≡ judged m.old e }
    ensures memory { m.new ≡ stepped m.old e }
    ensures sums { Sums cells.new (open_orders m.new) }
{
    let memory = Memory { bytes: m };
    let named = judge(&SoundDesk { memory, cells }, e)?;
    work(m, cells, e, named);
    Ok(())
}
