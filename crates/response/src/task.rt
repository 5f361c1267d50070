// The response of a task, off lent servers and tasks.
ghost use Rattle.std.specs.Prelude.{◌≡◌, ◌⊎◌, ◌-◌, ◌*◌, ◌≤◌, ◌<◌};
ghost use Rattle.lists.specs.Places.{nth};
ghost use Rattle.equation.specs.Guest.{guest_side};
ghost use Rattle.equation.specs.Standing.{Rising, before, rest, window_of};
ghost use Rattle.equation.specs.System.{server_periods, task_under};
ghost use Rattle.plan.specs.Ranges.{longest};
ghost use Rattle.response.specs.Columns.{above_of, system_at};
ghost use Rattle.response.specs.Ready.{Ready, AboveIn, EachShort};
ghost use Rattle.response.specs.Window.{Begins, FindsWindow};

use crate::guest::response_from;
use crate::{Servers, Tasks};
use rounding::{Edges, quotient};

// The server periods before the last one that a load takes.
fn whole_of(load: u32, capacity: u32) -> u32
    requires { (1 ≤ load) × (1 ≤ capacity) }
    ensures { (result ≡ server_periods load capacity - 1) × (result * capacity < load) }
{
    quotient(load, capacity) - 1
}

// Where what is left of a load begins to climb in its last server period, which starts at p: at w, once that is later.
fn begun(p: u32, left: u32, w: u32) -> u32
    ensures { (result ≡ left) ⊎ ((p < w) × (result ≡ w - p)) }
{
    left.max(w.saturating_sub(p))
}

// The least window of at most `room` ticks that a load ends with; w is none of the later ones.
fn window_of(
    servers: &Servers,
    n: usize,
    capacity: u32,
    period: u32,
    load: u64,
    w: u32,
    room: u32,
) -> Option<u32>
    requires above_in { AboveIn servers.now n
        × (((1 ≤ capacity) × (capacity ≤ period)) × ((1 ≤ load) × (room ≤ longest))) }
    requires rising { before capacity period load < w
        → Rising (guest_side (above_of servers.now n) (rest capacity load))
        (w - before capacity period load) }
    ensures { result ≡ window_of (above_of servers.now n) capacity period load room }
{
    if u64::from(room) < load {
        return None;
    }
    let l = load as u32;
    let m = whole_of(l, capacity);
    let start = u64::from(m) * u64::from(period);
    if u64::from(room) <= start {
        return None;
    }
    let p = start as u32;
    let left = l - m * capacity;
    let part = response_from(servers, n, left, begun(p, left, w), room - p)?;
    Some(p + part)
}

// The least window of task i of a fitted guest that makes a response of at most `most`: the recurrence, from `from` on,
// where the search for the task above may have ended, with the edges of the tasks above. It goes from load to window and
// back, until the load stays. What a search for a capacity changes is handed by itself, as in `first_unmet`.
pub fn window_from(
    servers: &Servers,
    n: usize,
    capacity: u32,
    period: u32,
    tasks: &Tasks,
    late: &[u32; 16],
    i: usize,
    most: u32,
    from: u32,
    edges: &mut Edges,
) -> Option<u32>
    requires above_in { AboveIn servers.now n × (i < 16) }
    requires ready { Ready (system_at servers.now n capacity period tasks.now late.now) i }
    requires most_le_longest { (most ≤ longest) × (EachShort late.now i × EachShort tasks.now.every i) }
    requires begins { Begins (system_at servers.now n capacity period tasks.now late.now) i from edges.old }
    ensures { FindsWindow (system_at servers.now n capacity period tasks.now late.now) i
        (most - nth late.now i) edges.new result }
{
    let gap = late[i];
    if most <= gap {
        return None;
    }
    let room = most - gap;
    if room < from {
        return None;
    }
    let Tasks { run, every, .. } = tasks;
    let own = u64::from(run[i]);
    let mut w = from;
    edges.move_on(run, every, late, i, from);
    let mut load = own + edges.sum;
    loop {
        let next = window_of(servers, n, capacity, period, load, w, room)?;
        edges.move_on(run, every, late, i, next);
        let more = own + edges.sum;
        if more <= load {
            return Some(next);
        }
        w = next;
        load = more;
    }
}

// The response of task i of a fitted guest, at most `most`.
pub fn task_response(
    servers: &Servers,
    n: usize,
    capacity: u32,
    period: u32,
    tasks: &Tasks,
    late: &[u32; 16],
    i: usize,
    most: u32,
) -> Option<u32>
    requires above_in { AboveIn servers.now n × (i < 16) }
    requires ready { Ready (system_at servers.now n capacity period tasks.now late.now) i }
    requires most_le_longest { (most ≤ longest) × (EachShort late.now i × EachShort tasks.now.every i) }
    ensures { result ≡ task_under (system_at servers.now n capacity period tasks.now late.now) i most }
{
    let mut edges = Edges::none();
    let w = window_from(
        servers, n, capacity, period, tasks, late, i, most, 1, &mut edges,
    )?;
    Some(w + late[i])
}
