// The one test of a guest: whether it has a response, then whether its tasks are met.
ghost use Rattle.std.specs.Prelude.{◌≡◌};
ghost use Rattle.response.specs.Columns.{above_of, accepted_under};
ghost use Rattle.response.specs.Ready.{Seated};

use crate::gaps::gaps_of;
use crate::guest::guest_response;
use crate::met::first_unmet;
use crate::servers::Servers;
use crate::tasks::tasks_of;
use plan::Guest;

// Whether the guest g at place k is fitted and all its tasks are met.
pub fn guest_accepted(servers: &Servers, k: usize, g: &Guest) -> bool
    requires { Seated g.now servers.now k }
    ensures { result ≡ accepted_under (above_of servers.now k) g.now }
{
    let f = guest_response(servers, k, g.capacity, g.period);
    let tasks = tasks_of(g);
    let late = gaps_of(g.marks, g.period - g.capacity, tasks.count);
    if f.is_none() {
        return false;
    }
    tasks.count <= first_unmet(servers, k, g.capacity, g.period, &tasks, &late, 0)
}
