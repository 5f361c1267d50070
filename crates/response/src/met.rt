// Which tasks of a guest are met, off lent servers and tasks.
ghost use Rattle.std.specs.Prelude.{◌≡◌, ℕ, ◌≤◌, ◌<◌};
ghost use Rattle.lists.specs.Places.{nth};
ghost use Rattle.response.specs.Columns.{system_at};
ghost use Rattle.response.specs.Ready.{Ready, AboveIn, ColumnsIn, EachShort};
ghost use Rattle.response.specs.Window.{MetTo};

use crate::task::window_from;
use crate::{Servers, Tasks};
use rounding::Edges;

// The first task from `from` on of a fitted guest that is not met, or the number of its tasks: the search for each
// begins where that for the task above ended. What a try of a capacity changes, itself and the J of each task, is handed
// beside what it does not change, so that a search copies nothing for a capacity that it tries.
pub fn first_unmet(
    servers: &Servers,
    k: usize,
    capacity: u32,
    period: u32,
    tasks: &Tasks,
    late: &[u32; 16],
    from: usize,
) -> usize
    requires above_in { AboveIn servers.now k × (from ≤ tasks.now.count) }
    requires by_index { (i : ℕ) → i < tasks.now.count
        → Ready (system_at servers.now k capacity period tasks.now late.now) i }
    requires each_short { EachShort late.now tasks.now.count × ColumnsIn tasks.now tasks.now.count }
    ensures { MetTo (system_at servers.now k capacity period tasks.now late.now)
        (nth tasks.now.deadline) from tasks.now.count result }
{
    let mut edges = Edges::none();
    let mut w: u32 = 1;
    for i in from..tasks.count {
        match window_from(
            servers,
            k,
            capacity,
            period,
            tasks,
            late,
            i,
            tasks.deadline[i],
            w,
            &mut edges,
        ) {
            Some(found) => w = found,
            None => return i,
        }
    }
    tasks.count
}
