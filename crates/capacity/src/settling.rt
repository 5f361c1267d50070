// Settling on a capacity: the search goes task by task from the highest, under guests that are fitted.
ghost use Rattle.std.specs.Prelude.{◌≡◌, ◌&&◌, ◌≤◌};
ghost use Rattle.lists.specs.All.{all_to};
ghost use Rattle.lists.specs.Search.{least};
ghost use Rattle.response.specs.Columns.{above_of, fitted_of, accepted_under};
ghost use Rattle.response.specs.Ready.{Seated};
ghost use Rattle.capacity.specs.Capacity.{at_capacity};
ghost use Rattle.capacity.specs.Search.{works_in, SearchIn};

use crate::search::Search;
use plan::Guest;
use response::{Servers, all_fitted, first_unmet, gaps_of, guest_response, tasks_of};

impl Search<'_> {
    // The smallest capacity that meets all tasks, task by task from the highest: a task that is met stays met at each
    // larger fitted capacity, so the search for a task begins where the one above it ended, and past it, that capacity
    // being tried on all tasks in one go. Where 1 is unfit all are. No `for` over the tasks: `first_unmet` skips those
    // that are met.
    fn settled(&self) -> Option<u32>
        requires { SearchIn self.now }
        ensures { result ≡ least (works_in self.now) self.now.period 1 }
    {
        if guest_response(self.servers, self.place, 1, self.period).is_none() {
            return None;
        }
        let mut c: u32 = 1;
        let mut i: usize = 0;
        loop {
            let late = gaps_of(self.marks, self.period - c, self.tasks.count);
            i = first_unmet(
                self.servers,
                self.place,
                c,
                self.period,
                self.tasks,
                &late,
                i,
            );
            if self.tasks.count <= i {
                return Some(c);
            }
            c = self.smallest_from(i, c + 1)?;
            i += 1;
        }
    }
}

// The smallest capacity of the guest g at place k, which has a task; none works under an unfit guest. What does not
// depend on the capacity is read off the record once.
pub fn smallest_at(g: &Guest, servers: &Servers, k: usize) -> Option<u32>
    requires { Seated g.now servers.now k × (1 ≤ g.now.tasks) }
    ensures { result
        ≡ least
        (λ c. all_to (fitted_of servers.now) k && accepted_under (above_of servers.now k) (at_capacity g.now c))
        g.now.period 1 }
{
    if !all_fitted(servers, k) {
        return None;
    }
    let tasks = tasks_of(g);
    let search = Search {
        servers,
        place: k,
        period: g.period,
        marks: g.marks,
        tasks: &tasks,
    };
    search.settled()
}
