// The judge: questions 6 to 24 of an event, asked of a sound desk, which it reads and never writes.
#![tactic(auto)]

pub mod changes;
pub mod entries;
pub mod known;
pub mod order_checks;
pub mod ranges;
pub mod settings;

ghost use Rattle.std.specs.Prelude.{◌≡◌, IfOk};
ghost use Rattle.limits.specs.Answers.{number_of};
ghost use Rattle.memory_layout.specs.Judged.{judged, NamedAt};

use crate::changes::judge_change;
use crate::entries::judge_new;
use crate::settings::judge_setting;
use book::Event;
use limits::answer::Refusal;
use memory_layout::orders::Named;
use memory_soundness::sound_desk::SoundDesk;

// The answer to an event of any kind.
#[tactic(auto, using(crate::proofs::ByKind::junk_judged))]
pub fn judge(desk: &SoundDesk, e: Event) -> Result<Named, Refusal>
    ensures answer { number_of result ≡ judged desk.now e }
    ensures named { IfOk result (λ named. NamedAt desk.now e named.place named.detail.0) }
{
    match e {
        Event::Set { setting } => {
            judge_setting(desk, setting)?;
            Ok(Named::none())
        }
        Event::New {
            side,
            account,
            instrument,
            id,
            quantity,
        } => judge_new(desk, side, account, instrument, id, quantity),
        Event::Change { id, change } => judge_change(desk, id, change),
        Event::Junk => Err(Refusal::NoEvent),
    }
}
