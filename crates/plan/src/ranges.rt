// Document 01's ranges, on numbers and lent columns: the reader of blocks asks for them before it makes a guest.
ghost use Rattle.std.specs.Prelude.{◌≡◌, ◌&&◌, ◌≤◌};
ghost use Rattle.lists.specs.Places.{nth};
ghost use Rattle.lists.specs.All.{all_to};
ghost use Rattle.plan.specs.Marks.{marked};
ghost use Rattle.plan.specs.Ranges.{most_guests, most_tasks, within, head_ok, task_ok, start_ok};

use crate::marks::is_marked;

// The longest period and run, in ticks.
pub const LONGEST: u32 = 1000000;

// The most guests in a plan.
const MOST_GUESTS: u32 = 8;

// The most tasks in a guest.
const MOST_TASKS: u32 = 16;

// Whether a plan has 1 to 8 guests, which is refusal 1's test.
pub fn count_ok(count: u32) -> bool
    ensures { result ≡ within 1 most_guests count }
{
    (1 <= count) & (count <= MOST_GUESTS)
}

// Whether a guest's id, capacity, period and number of tasks are in their ranges, which is refusal 4's test.
#[tactic(auto, unfolding(crate::specs::Ranges::head_ok))]
pub fn head_ok(id: u32, capacity: u32, period: u32, tasks: u32) -> bool
    ensures { result ≡ head_ok id capacity period tasks }
{
    (1 <= id)
        & ((1 <= capacity) & (capacity <= period))
        & ((1 <= period) & (period <= LONGEST))
        & ((1 <= tasks) & (tasks <= MOST_TASKS))
}

// Whether a task's run, period and deadline are in their ranges, which is refusal 6's test.
#[tactic(auto, unfolding(crate::specs::Ranges::task_ok))]
fn task_ok(run: u32, every: u32, deadline: u32) -> bool
    ensures { result ≡ task_ok run every deadline }
{
    ((1 <= run) & (run <= LONGEST))
        & ((1 <= every) & (every <= LONGEST))
        & ((1 <= deadline) & (deadline <= every))
}

// Whether each of the first n tasks is in its ranges.
#[tactic(auto, unfolding(lists::specs::All::all_to))]
fn ranges_ok(run: &[u32; 16], every: &[u32; 16], deadline: &[u32; 16], n: usize) -> bool
    requires { n ≤ most_tasks }
    ensures { result
        ≡ all_to (λ i. task_ok (nth run.now i) (nth every.now i) (nth deadline.now i)) n }
{
    let mut ok = true;
    for i in 0..n {
        ok &= task_ok(run[i], every[i], deadline[i]);
    }
    ok
}

// Whether the period of a task, where it is bound, is a multiple of its guest's.
#[tactic(auto, unfolding(crate::specs::Ranges::start_ok))]
fn start_ok(bound: bool, period: u32, every: u32) -> bool
    requires { 1 ≤ period }
    ensures { result ≡ start_ok bound period every }
{
    !bound | (every % period == 0)
}

// Whether each of the first n tasks that is bound has a multiple of its guest's period. Without marks no task is asked.
#[tactic(auto, unfolding(lists::specs::All::all_to))]
fn starts_ok(marks: u16, period: u32, every: &[u32; 16], n: usize) -> bool
    requires { (n ≤ most_tasks) × (1 ≤ period) }
    ensures { result ≡ all_to (λ i. start_ok (marked marks i) period (nth every.now i)) n }
{
    if marks == 0 {
        return true;
    }
    let mut ok = true;
    for i in 0..n {
        ok &= start_ok(is_marked(marks, i), period, every[i]);
    }
    ok
}

// Whether each of the first n tasks is in its ranges and may start where its mark says.
pub fn tasks_ok(
    marks: u16,
    period: u32,
    run: &[u32; 16],
    every: &[u32; 16],
    deadline: &[u32; 16],
    n: usize,
) -> bool
    requires { (n ≤ most_tasks) × (1 ≤ period) }
    ensures { result
        ≡ (all_to (λ i. task_ok (nth run.now i) (nth every.now i) (nth deadline.now i)) n
        && all_to (λ i. start_ok (marked marks i) period (nth every.now i)) n) }
{
    ranges_ok(run, every, deadline, n) & starts_ok(marks, period, every, n)
}
