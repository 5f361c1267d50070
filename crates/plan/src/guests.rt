// Whether one guest of a plan passes, or the number that it is refused by.
ghost use Rattle.std.specs.Prelude.{◌≡◌, ◌<◌};
ghost use Rattle.lists.specs.Places.{nth};
ghost use Rattle.lists.specs.Refusals.{unless_number};
ghost use Rattle.plan.specs.Order.{new_id, number_of};

use crate::Guest;
use crate::ranges::{head_ok, tasks_ok};

// Whether the id at place k stands at no earlier place.
#[tactic(auto, unfolding(lists::specs::All::all_to, crate::specs::Order::new_id))]
pub fn new_id(ids: &[u32; 16], k: usize) -> bool
    requires { k < 16 }
    ensures { result ≡ new_id (nth ids.now) k }
{
    let mut ok = true;
    for j in 0..k {
        ok &= ids[j] != ids[k];
    }
    ok
}

// Whether a guest passes, or the number that refuses it; `new` says that its id stands at no earlier place.
#[tactic(auto, unfolding(crate::specs::Order::number_of, crate::specs::Ranges::tasks_ok, crate::specs::Ranges::head_ok, lists::specs::Refusals::refusal, lists::specs::Refusals::unless))]
pub fn guest_passes(g: &Guest, new: bool) -> Result<(), u32>
    ensures { result ≡ unless_number (number_of g.now new) tt }
{
    if !(head_ok(g.id, g.capacity, g.period, g.tasks) & new) {
        return Err(4);
    }
    let n = g.tasks as usize;
    if !tasks_ok(g.marks, g.period, &g.run, &g.every, &g.deadline, n) {
        return Err(6);
    }
    Ok(())
}
