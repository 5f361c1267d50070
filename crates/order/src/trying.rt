// Whether a guest works at a place, and what becomes of it there.
ghost use Rattle.std.specs.Prelude.{◌≡◌, ◌&&◌};
ghost use Rattle.lists.specs.All.{all_to};
ghost use Rattle.response.specs.Columns.{above_of, fitted_of, accepted_under};
ghost use Rattle.response.specs.Ready.{Seated};
ghost use Rattle.order.specs.Proposed.{Settles};

use crate::reordering::{by_deadline, may_reorder};
use plan::{AsPlan, Guest, Refusal};
use response::{Servers, all_fitted, guest_accepted, seat_of};

// Whether all guests above place k are fitted, and g there is fitted with all its tasks met.
#[tactic(auto, using(response::proofs::ReadyLaws::seated_above))]
fn works(g: &Guest, servers: &Servers, k: usize) -> bool
    requires { Seated g.now servers.now k }
    ensures { result
        ≡ (all_to (fitted_of servers.now) k && accepted_under (above_of servers.now k) g.now) }
{
    all_fitted(servers, k) && guest_accepted(servers, k, g)
}

// What becomes of the guest with an id: its place, and the guest with its tasks by deadline; or the refusal.
pub fn settle<P: AsPlan>(plan: &P, id: u32) -> Result<(usize, Guest), Refusal>
    ensures { Settles (P.plan plan.now) id result }
{
    let seat = seat_of(plan, id)?;
    let g = plan.guest(seat.place);
    if !may_reorder(&g) {
        return Err(Refusal {
            number: 21,
            place: 0,
        });
    }
    let h = by_deadline(g);
    if !works(&h, &seat.servers, seat.place) {
        return Err(Refusal {
            number: 22,
            place: 0,
        });
    }
    Ok((seat.place, h))
}
