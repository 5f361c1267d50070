// The check on records that are to be started.
ghost use Rattle.std.specs.Prelude.{◌≡◌, ◌≤◌, eqb};
ghost use Rattle.lists.specs.All.{all_to};
ghost use Rattle.lists.specs.Places.{nth};
ghost use Rattle.plan.specs.First.{unless_refused};
ghost use Rattle.plan.specs.Periodic.{start_refusal};
ghost use Rattle.plan.specs.Ranges.{most_guests};

use crate::column::columns_of;
use crate::{AsPlan, Refusal, check};

// Whether each of the first n guests is Periodic.
#[tactic(auto, unfolding(lists::specs::All::all_to))]
fn all_periodic(deferrable: &[u32; 16], n: usize) -> bool
    requires { n ≤ most_guests }
    ensures { result ≡ all_to (λ k. eqb (nth deferrable.now k) 0) n }
{
    let mut ok = true;
    for k in 0..n {
        ok &= deferrable[k] == 0;
    }
    ok
}

// Whether records may be started, or else the refusal: the records' order, then 23.
#[tactic(auto, using(crate::proofs::Order::check_order, crate::proofs::PeriodicLaws::start_refused))]
pub fn start_check<P: AsPlan>(plan: &P) -> Result<(), Refusal>
    ensures { result ≡ unless_refused (start_refusal (P.plan plan.now)) tt }
{
    check(plan)?;
    let deferrable = columns_of(plan).deferrable;
    if !all_periodic(&deferrable, plan.count() as usize) {
        return Err(Refusal {
            number: 23,
            place: 0,
        });
    }
    Ok(())
}
