// A plan's records by value, the charged run, and the one check on records handed over as a plan.
#![tactic(auto)]

ghost use Rattle.std.specs.Prelude.{◌≡◌};
ghost use Rattle.plan.specs.Records.{blank, blank_plan};
ghost use Rattle.plan.specs.Charge.{charged_run};
ghost use Rattle.plan.specs.Promises.{Checks};

mod column;
mod find;
mod given;
mod guests;
mod marks;
mod ranges;
mod starting;

pub use column::columns_of;
pub use find::{has_task, look_up, place_of};
pub use given::AsPlan;
pub use guests::{guest_passes, new_id};
pub use marks::{is_marked, live_marks};
pub use ranges::{LONGEST, count_ok, head_ok, tasks_ok};
pub use starting::start_check;

// A guest: its server, its tasks' marks, and a column for each number of its tasks. The server is Deferrable where
// `deferrable` is not 0, and else Periodic. `every` is each task's period. It and a plan cross to C as they are.
#[repr(C)]
#[derive(Clone, Copy)]
pub struct Guest {
    pub id: u32,
    pub capacity: u32,
    pub period: u32,
    pub tasks: u32,
    pub charge: u16,
    pub marks: u16,
    pub deferrable: u32,
    pub run: [u32; 16],
    pub every: [u32; 16],
    pub deadline: [u32; 16],
}

// A plan: its first `count` guests, the first with the highest priority.
#[repr(C)]
#[derive(Clone, Copy)]
pub struct Plan {
    pub count: u32,
    pub guests: [Guest; 8],
}

// A refusal's number and place, as C is handed it: number 0 for none.
#[repr(C)]
#[derive(Clone, Copy)]
pub struct Refusal {
    pub number: u32,
    pub place: u32,
}

// Five numbers of each guest of a plan, a column for each number: a search or a sum goes along one of them.
#[derive(Clone, Copy)]
pub struct Columns {
    pub ids: [u32; 16],
    pub capacities: [u32; 16],
    pub periods: [u32; 16],
    pub tasks: [u32; 16],
    pub deferrable: [u32; 16],
}

// A record of zeros.
pub fn blank_guest() -> Guest
    ensures { result ≡ blank }
{
    Guest {
        id: 0,
        capacity: 0,
        period: 0,
        tasks: 0,
        charge: 0,
        marks: 0,
        deferrable: 0,
        run: [0; 16],
        every: [0; 16],
        deadline: [0; 16],
    }
}

// A plan of no guest.
pub fn blank_plan() -> Plan
    ensures { result ≡ blank_plan }
{
    Plan {
        count: 0,
        guests: [blank_guest(); 8],
    }
}

// The charged run of a task: its run, and the charge for the switch into it and for the switch out of it.
#[tactic(auto, unfolding(crate::specs::Charge::charged_run))]
pub fn charged_run(run: u32, charge: u16) -> u64
    ensures { result ≡ charged_run run charge }
{
    u64::from(run) + 2 * u64::from(charge)
}

// Whether the records pass, or else their refusal: 1, then 4 and 6 guest by guest.
pub fn check<P: AsPlan>(plan: &P) -> Result<(), Refusal>
    ensures { Checks (P.plan plan.now) result }
{
    let count = plan.count();
    if !count_ok(count) {
        return Err(Refusal {
            number: 1,
            place: 0,
        });
    }
    // Only the ids are kept, so that the other columns are not stored.
    let ids = columns_of(plan).ids;
    for k in 0..count as usize {
        let new = new_id(&ids, k);
        if let Err(number) = guest_passes(&plan.guest(k), new) {
            return Err(Refusal {
                number,
                place: k as u32,
            });
        }
    }
    Ok(())
}
