// Working an accepted event in a desk's memory, and in B and V of all accounts beside it, where they are kept. It cannot refuse: the judge
// has accepted the event.
#![tactic(auto)]

pub mod orders;
pub mod settings;
pub mod sums;

ghost use Rattle.std.specs.Prelude.{◌≡◌};
ghost use Rattle.memory_layout.specs.View.{open_orders};
ghost use Rattle.memory_soundness.specs.Cells.{Sums};
ghost use Rattle.memory_working.specs.Working.{Workable, worked};

use crate::orders::{change_order, enter};
use crate::settings::work_setting;
use book::Event;
use memory_layout::orders::Named;

// Works an event of any kind, with the order that it names as the judge hands it on.
pub fn work(m: &mut [u8], cells: &mut [u64], e: Event, named: Named)
    requires { Workable m.old cells.old e named }
    ensures memory { m.new ≡ worked m.old e }
    ensures sums { Sums cells.new (open_orders m.new) }
{
    match e {
        Event::Set { setting } => work_setting(m, setting),
        Event::New {
            side,
            account,
            instrument,
            id,
            quantity,
        } => enter(m, cells, id, named),
        Event::Change { id, change } => change_order(m, cells, id, named, change),
        Event::Junk => {}
    }
}
