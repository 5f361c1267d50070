// The smallest capacity at which a guest is fitted and all its tasks are met.
#![tactic(auto)]

ghost use Rattle.capacity.specs.Promises.{Sized};

use plan::{AsPlan, Refusal};
use response::seat_of;

mod search;
mod settling;

pub use settling::smallest_at; // Inner: for choices, which search guest by guest.

// The smallest capacity of the guest with an id, or the refusal, which is 11 where none works.
pub fn smallest_capacity<P: AsPlan>(plan: &P, id: u32) -> Result<u32, Refusal>
    ensures { Sized (P.plan plan.now) id result }
{
    let seat = seat_of(plan, id)?;
    let g = plan.guest(seat.place);
    smallest_at(&g, &seat.servers, seat.place).ok_or(Refusal {
        number: 11,
        place: 0,
    })
}
