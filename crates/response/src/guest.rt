// The responses of guests, off lent servers.
ghost use Rattle.std.specs.Prelude.{◌≡◌, ◌≤◌, ◌<◌};
ghost use Rattle.lists.specs.All.{all_to};
ghost use Rattle.lists.specs.Places.{nth};
ghost use Rattle.equation.specs.Guest.{guest_side, guest_under};
ghost use Rattle.equation.specs.Standing.{Rising};
ghost use Rattle.plan.specs.Ranges.{longest};
ghost use Rattle.response.specs.Columns.{above_of, fitted_of};
ghost use Rattle.response.specs.Ready.{AboveIn, EachShort, Ranged, ServerIn};

use crate::Servers;
use rounding::Edges;

// The least x of at most `most` that is the capacity and what the first n guests take from x ticks: the recurrence,
// from a number on that it climbs through. The edges of the guests' quotients stand beside x, so that only one that x
// has passed is worked out again.
pub fn response_from(
    servers: &Servers,
    n: usize,
    capacity: u32,
    from: u32,
    most: u32,
) -> Option<u32>
    requires above_in { AboveIn servers.now n × ((1 ≤ capacity) × ((1 ≤ from) × (most ≤ longest))) }
    requires rising { Rising (guest_side (above_of servers.now n) capacity) from }
    ensures { result ≡ guest_under (above_of servers.now n) capacity most }
{
    if most < from {
        return None;
    }
    let Servers {
        capacities,
        periods,
        jitters,
    } = servers;
    let mut edges = Edges::none();
    let mut x = from;
    loop {
        edges.move_on(capacities, periods, jitters, n, x);
        let next = u64::from(capacity) + edges.sum;
        if next <= u64::from(x) {
            return Some(x);
        }
        if u64::from(most) < next {
            return None;
        }
        x = next as u32;
    }
}

// The response under the first n guests: the recurrence from the capacity on, which it climbs through.
pub fn guest_response(servers: &Servers, n: usize, capacity: u32, period: u32) -> Option<u32>
    requires { AboveIn servers.now n × ServerIn capacity period }
    ensures { result ≡ guest_under (above_of servers.now n) capacity period }
{
    response_from(servers, n, capacity, capacity, period)
}

// The response of the guest at place k.
pub fn response_at(servers: &Servers, k: usize) -> Option<u32>
    requires { ((k < 16) × (EachShort servers.now.periods k × EachShort servers.now.jitters k))
        × ServerIn (nth servers.now.capacities k) (nth servers.now.periods k) }
    ensures { result
        ≡ guest_under (above_of servers.now k) (nth servers.now.capacities k) (nth servers.now.periods k) }
{
    guest_response(servers, k, servers.capacities[k], servers.periods[k])
}

// Whether the first n guests are fitted.
#[tactic(auto, unfolding(lists::specs::All::all_to, crate::specs::Columns::fitted_at))]
pub fn all_fitted(servers: &Servers, n: usize) -> bool
    requires { AboveIn servers.now n × Ranged servers.now n }
    ensures { result ≡ all_to (fitted_of servers.now) n }
{
    for k in 0..n {
        if response_at(servers, k).is_none() {
            return false;
        }
    }
    true
}
