// The pairs of a sheet one by one, over lent arrays.
ghost use Rattle.std.specs.Prelude.{◌≡◌, true, List, ℕ, ◌≤◌, ◌<◌, length};
ghost use Rattle.lists.specs.Places.{nth};
ghost use Rattle.plan.specs.declared.Plan.{Plan};
ghost use Rattle.plan.specs.Ranges.{most_tasks};
ghost use Rattle.plan.specs.Marks.{marked};
ghost use Rattle.arrays.specs.Place.{Small};
ghost use Rattle.jobs.specs.Barred.{Clear};
ghost use Rattle.dispatcher.specs.InPlace.{released_in};
ghost use Rattle.dispatcher.specs.Lent.{state_of};
ghost use Rattle.dispatcher.specs.Valid.{state_ok};
ghost use Rattle.sheet.specs.Sheet.{pair_guest, pair_task, pair_released};
ghost use Rattle.sheet.specs.Lent.{SheetColumns, Aimed, AllTaken};

use crate::Gathered;
use jobs::Bars;

// A pair is the guest id times this, plus the task number.
const PAIR_BASE: u64 = 65536;

// The guest id that a pair names: a part beyond 32 bits names no guest, as id 0 does.
fn guest_of(pair: u64) -> u32
    ensures { result ≡ pair_guest pair }
{
    u32::try_from(pair / PAIR_BASE).unwrap_or(0)
}

// The task number that a pair names: a rest below 65,536, so the cast loses nothing.
fn task_of(pair: u64) -> u32
    ensures { result ≡ pair_task pair }
{
    (pair % PAIR_BASE) as u32
}

// Whether guest k bars its task t. A clear column is not read, so that the pairs of a plan without marks pay nothing.
#[tactic(auto, using(plan::proofs::MarksLaws::unmarked))]
fn is_barred(bars: &Bars, k: usize, t: usize) -> bool
    requires { (bars.now.clear ≡ true → nth bars.now.barred k ≡ 0) × ((k < 16) × (t < most_tasks)) }
    ensures { result ≡ marked (nth bars.now.barred k) t }
{
    if bars.clear {
        return false;
    }
    plan::is_marked(bars.barred[k], t)
}

// The place of a task of a guest by its id, or the number that refuses its release: 7, 8, 17, 9, 10.
#[tactic(auto, using(refusals::proofs::Aims::tests), unfolding(crate::specs::Lent::lent_number))]
fn aim(
    guest: u32,
    task: u32,
    sheet: &Gathered,
    rest: &[u32; 128],
    wait: &[u32; 128],
) -> Result<usize, u32>
    ensures { Aimed sheet.now.n
        sheet.now.columns.now.ids sheet.now.columns.now.tasks sheet.now.bars.now.barred
        rest.now wait.now guest task result }
{
    let k = plan::place_of(&sheet.columns.ids, sheet.n, guest);
    if sheet.n <= k {
        return Err(7);
    }
    if !plan::has_task(sheet.columns.tasks[k], task) {
        return Err(8);
    }
    let t = (task - 1) as usize;
    if is_barred(sheet.bars, k, t) {
        return Err(17);
    }
    let at = k * 16 + t;
    if wait[at] != 0 {
        return Err(9);
    }
    if rest[at] != 0 {
        return Err(10);
    }
    Ok(at)
}

// One pair: where no number refuses it, the task's run left, wait and age are set.
#[tactic(auto, using(crate::proofs::Pair::told_refused, crate::proofs::Pair::told_taken))]
fn take(
    pair: u64,
    sheet: &Gathered,
    rest: &mut [u32; 128],
    wait: &mut [u32; 128],
    age: &mut [u32; 128],
) -> Result<(), u32>
    ensures { (p : Plan) (left position usage : List ℕ)
        → SheetColumns p sheet.now.n position
        sheet.now.columns.now.ids sheet.now.columns.now.tasks sheet.now.bars.now.barred
        sheet.now.runs.now sheet.now.periods.now
        → state_ok (state_of p left position rest.old wait.old age.old usage) ≡ true
        → released_in result (state_of p left position rest.new wait.new age.new usage)
        ≡ pair_released (state_of p left position rest.old wait.old age.old usage) pair }
{
    let at = aim(guest_of(pair), task_of(pair), sheet, rest, wait)?;
    rest[at] = sheet.runs[at];
    wait[at] = sheet.periods[at];
    age[at] = 0;
    Ok(())
}

// All pairs in order, each answered in its place: by the number that refuses it, or 0.
pub fn take_all(
    pairs: &[u64],
    answers: &mut [u32],
    sheet: &Gathered,
    rest: &mut [u32; 128],
    wait: &mut [u32; 128],
    age: &mut [u32; 128],
)
    requires { length pairs.now ≤ length answers.old }
    ensures { (p : Plan) (left position usage : List ℕ)
        → SheetColumns p sheet.now.n position
        sheet.now.columns.now.ids sheet.now.columns.now.tasks sheet.now.bars.now.barred
        sheet.now.runs.now sheet.now.periods.now
        → state_ok (state_of p left position rest.old wait.old age.old usage) ≡ true
        → AllTaken (state_of p left position rest.old wait.old age.old usage)
        (state_of p left position rest.new wait.new age.new usage)
        pairs.now answers.old answers.new }
{
    for i in 0..pairs.len() {
        answers[i] = take(pairs[i], sheet, rest, wait, age).err().unwrap_or(0);
    }
}
