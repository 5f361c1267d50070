// The way in of each call that judges a guest.
ghost use Rattle.response.specs.Seat.{Sits};

use crate::servers::{Servers, servers_of};
use plan::{AsPlan, Refusal, look_up};

// A guest that was looked up by its id: its place, and the servers of its plan. No record is in it, since acceptance and
// choices go through all guests under one plan's servers.
#[derive(Clone, Copy)]
pub struct Seat {
    pub place: usize,
    pub servers: Servers,
}

// The seat of the guest with an id in a plan.
pub fn seat_of<P: AsPlan>(plan: &P, id: u32) -> Result<Seat, Refusal>
    ensures { Sits (P.plan plan.now) id result }
{
    let place = look_up(plan, id)?;
    Ok(Seat {
        place,
        servers: servers_of(plan),
    })
}
