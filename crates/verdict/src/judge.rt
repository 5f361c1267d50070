// Verdicts off lent servers and one guest's record at a time.
ghost use Rattle.std.specs.Prelude.{◌≡◌, true, ◌+◌, ◌<◌, leb};
ghost use Rattle.lists.specs.All.{all_to};
ghost use Rattle.plan.specs.Records.{deadline_of};
ghost use Rattle.verdict.specs.Verdict.{guest_says, quoted_by, task_says};
ghost use Rattle.equation.specs.System.{task_under};
ghost use Rattle.response.specs.Task.{system_of, limit};
ghost use Rattle.response.specs.Columns.{above_of, fitted_of};
ghost use Rattle.response.specs.Ready.{Seated};

use crate::{GuestVerdict, TaskVerdict};
use plan::Guest;
use response::{Servers, all_fitted, gaps_of, task_response, tasks_of};

// The verdict of a guest's response. No `From`: the definition has this name, and an Option alone is no verdict.
pub fn guest_says(f: Option<u32>) -> GuestVerdict
    ensures { result ≡ guest_says f }
{
    match f {
        Some(x) => GuestVerdict::Fitted(x),
        None => GuestVerdict::Unfit,
    }
}

// The verdict that quotes a response.
#[tactic(auto, unfolding(crate::specs::Verdict::quoted_by))]
fn quoted_by(response: u32, deadline: u32) -> TaskVerdict
    ensures { result ≡ quoted_by (leb response deadline) response }
{
    if response <= deadline {
        TaskVerdict::Met(response)
    } else {
        TaskVerdict::UnmetAt(response)
    }
}

// The verdict of a task's response under fitted guests.
#[tactic(auto, unfolding(crate::specs::Verdict::task_says))]
fn met_or_not(f: Option<u32>, deadline: u32) -> TaskVerdict
    ensures { result ≡ task_says true deadline f }
{
    match f {
        Some(r) => quoted_by(r, deadline),
        None => TaskVerdict::Unmet,
    }
}

// The verdict of task i of the guest g at place k.
pub fn judge_task(servers: &Servers, k: usize, g: &Guest, i: usize) -> TaskVerdict
    requires { Seated g.now servers.now k × (i < g.now.tasks) }
    ensures { result
        ≡ task_says (all_to (fitted_of servers.now) (k + 1)) (deadline_of g.now i)
        (task_under (system_of (above_of servers.now k) g.now) i (limit g.now i)) }
{
    if !all_fitted(servers, k + 1) {
        return TaskVerdict::Unjudged;
    }
    let tasks = tasks_of(g);
    let late = gaps_of(g.marks, g.period - g.capacity, tasks.count);
    let most = g.every[i];
    let f = task_response(servers, k, g.capacity, g.period, &tasks, &late, i, most);
    met_or_not(f, g.deadline[i])
}
