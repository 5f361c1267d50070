// The lines of the printing program: made from the verdicts, and printed.
#![tactic(auto)]

ghost use Rattle.std.specs.Prelude.{◌≡◌};
ghost use Rattle.show.specs.Lines.{guest_shown, task_shown, plan_shown};
ghost use Rattle.show.specs.Promises.{ShowsGuest, ShowsTask, ShowsPlan};

use plan::{Plan, Refusal};
use std::{fmt, io};
use verdict::{Acceptance, GuestVerdict, TaskVerdict};

// A guest's line has its id first, a task's its number. A refusal is a line among the others, so this is no Result.
#[derive(Clone, Copy)]
pub enum Line {
    Refused(u32, u32),
    Fitted(u32, u32),
    Unfit(u32),
    Met(u32, u32),
    UnmetAt(u32, u32),
    Unmet(u32),
    Unjudged(u32),
    Accepted,
    NotAccepted,
}

// The line as document 01 and P2 have it.
impl fmt::Display for Line {
    fn fmt<W: fmt::Write>(&self, f: &mut fmt::Formatter<W>) -> fmt::Result {
        match self {
            Line::Refused(number, place) => write!(f, "refused {number} block {place}"),
            Line::Fitted(id, x) => write!(f, "guest {id} fitted {x}"),
            Line::Unfit(id) => write!(f, "guest {id} unfit"),
            Line::Met(task, r) => write!(f, "task {task} met {r}"),
            Line::UnmetAt(task, r) => write!(f, "task {task} unmet {r}"),
            Line::Unmet(task) => write!(f, "task {task} unmet"),
            Line::Unjudged(task) => write!(f, "task {task} unjudged"),
            Line::Accepted => write!(f, "plan accepted"),
            Line::NotAccepted => write!(f, "plan not accepted"),
        }
    }
}

// The line of a guest's verdict.
pub fn guest_shown(id: u32, v: Result<GuestVerdict, Refusal>) -> Line
    ensures { result ≡ guest_shown id v }
{
    match v {
        Err(Refusal { number, place }) => Line::Refused(number, place),
        Ok(GuestVerdict::Fitted(x)) => Line::Fitted(id, x),
        Ok(GuestVerdict::Unfit) => Line::Unfit(id),
    }
}

// The line of a task's verdict, by its number from 1.
pub fn task_shown(task: u32, v: Result<TaskVerdict, Refusal>) -> Line
    ensures { result ≡ task_shown task v }
{
    match v {
        Err(Refusal { number, place }) => Line::Refused(number, place),
        Ok(TaskVerdict::Met(r)) => Line::Met(task, r),
        Ok(TaskVerdict::UnmetAt(r)) => Line::UnmetAt(task, r),
        Ok(TaskVerdict::Unmet) => Line::Unmet(task),
        Ok(TaskVerdict::Unjudged) => Line::Unjudged(task),
    }
}

// The line of a plan's acceptance.
pub fn plan_shown(a: Result<Acceptance, Refusal>) -> Line
    ensures { result ≡ plan_shown a }
{
    match a {
        Err(Refusal { number, place }) => Line::Refused(number, place),
        Ok(Acceptance::Accepted) => Line::Accepted,
        Ok(Acceptance::NotAccepted) => Line::NotAccepted,
    }
}

// The line of the guest with an id.
pub fn guest_line(plan: &Plan, id: u32) -> Line
    ensures { ShowsGuest plan.now id result }
{
    guest_shown(id, verdict::guest_verdict(plan, id))
}

// The line of one of its tasks, by its number from 1.
pub fn task_line(plan: &Plan, id: u32, task: u32) -> Line
    ensures { ShowsTask plan.now id task result }
{
    task_shown(task, verdict::task_verdict(plan, id, task))
}

// The plan's line.
pub fn last_line(plan: &Plan) -> Line
    ensures { ShowsPlan plan.now result }
{
    plan_shown(verdict::accept(plan))
}

// A guest's line, and after it its tasks', of which there are no more than 16.
fn print_guest(rt: &impl Print, plan: &Plan, id: u32, tasks: u32) -> io::Result<()> {
    rt.println(guest_line(plan, id))?;
    for task in 1..17 {
        if task <= tasks {
            rt.println(task_line(plan, id, task))?;
        }
    }
    Ok(())
}

// All lines of a plan.
fn print_plan(rt: &impl Print, plan: &Plan) -> io::Result<()> {
    for (k, g) in plan.guests.iter().enumerate() {
        if k < plan.count as usize {
            print_guest(rt, plan, g.id, g.tasks)?;
        }
    }
    rt.println(last_line(plan))
}

// Prints the lines of a plan's bytes; of a refused plan the refusal alone. A write that fails is the error that comes
// back, and the lines before it are printed.
pub fn show(rt: &impl Print, bytes: &[u8]) -> io::Result<()> {
    match planfile::read(bytes) {
        Err(Refusal { number, place }) => rt.println(Line::Refused(number, place)),
        Ok(plan) => print_plan(rt, &plan),
    }
}
