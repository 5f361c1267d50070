// A guest by its id, and a task by its number.
ghost use Rattle.std.specs.Prelude.{◌≡◌, ◌≤◌, eqb};
ghost use Rattle.lists.specs.Places.{nth};
ghost use Rattle.lists.specs.Search.{first_from};
ghost use Rattle.plan.specs.Place.{has_number};
ghost use Rattle.plan.specs.LookUp.{LooksUp};

use crate::{AsPlan, Refusal, check};

// The first place of the first n whose id is `id`, or n where there is none: the specs' `first_from` counts so, and the
// loop's invariant is in its words.
#[tactic(auto, unfolding(lists::specs::Search::first_from), using(lists::proofs::Search::first_skip))]
pub fn place_of(ids: &[u32; 16], n: usize, id: u32) -> usize
    requires { n ≤ 16 }
    ensures { result ≡ first_from (λ k. eqb (nth ids.now k) id) n 0 }
{
    for k in 0..n {
        if ids[k] == id {
            return k;
        }
    }
    n
}

// Whether a guest with so many tasks has one of that number, from 1.
pub fn has_task(tasks: u32, number: u32) -> bool
    ensures { result ≡ has_number tasks number }
{
    (1 <= number) & (number <= tasks)
}

// The way in of each call that names a guest: the refusal of the plan's records, then 7, else the guest's place. It reads
// the ids where they lie, since a column of them is more to store than the search has to read.
#[tactic(auto, unfolding(crate::specs::Place::place_of), using(crate::proofs::Order::check_order, crate::proofs::LookUp::looked_refused, crate::proofs::LookUp::looked_missing, lists::proofs::Search::first_skip))]
pub fn look_up<P: AsPlan>(plan: &P, id: u32) -> Result<usize, Refusal>
    ensures { LooksUp (P.plan plan.now) id result }
{
    check(plan)?;
    for k in 0..plan.count() as usize {
        if plan.guest(k).id == id {
            return Ok(k);
        }
    }
    Err(Refusal {
        number: 7,
        place: 0,
    })
}
