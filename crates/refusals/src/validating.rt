// Refusal 14: the plan's own check and all places, in one pass over the records.
ghost use Rattle.std.specs.Prelude.{◌≡◌, ◌≤◌};
ghost use Rattle.lists.specs.All.{all_to};
ghost use Rattle.lists.specs.Choice.{pick};
ghost use Rattle.plan.specs.Ranges.{most_guests};
ghost use Rattle.plan.specs.Filled.{ColumnsOf};
ghost use Rattle.refusals.specs.Check.{goes, past_ok, Examined};

use crate::Lent;
use crate::ranges::{blank_ok, guest_ok};
use plan::{AsPlan, Columns};

// Whether the plan's guests are in their ranges, place by place; their columns go into those that are lent. The five
// stores are those of `plan::columns_of`, in the pass that tests each record: a record is made once.
#[tactic(auto, using(crate::proofs::Check::columns_begin), unfolding(lists::specs::All::all_to))]
fn guests_ok<P: AsPlan>(plan: &P, n: usize, lent: &Lent, columns: &mut Columns) -> bool
    requires { n ≤ most_guests }
    ensures okay { result
        ≡ all_to
        (goes (P.plan plan.now) lent.now.left.now lent.now.position.now
        lent.now.rest.now lent.now.wait.now lent.now.age.now)
        n }
    ensures columns { ColumnsOf (P.plan plan.now).guests n columns.new }
{
    let mut ok = true;
    for k in 0..n {
        let g = &plan.guest(k);
        columns.ids[k] = g.id;
        columns.capacities[k] = g.capacity;
        columns.periods[k] = g.period;
        columns.tasks[k] = g.tasks;
        columns.deferrable[k] = g.deferrable;
        ok &= plan::new_id(&columns.ids, k) & guest_ok(g, k, lent);
    }
    ok
}

// Whether the rows past the n guests are blank.
#[tactic(auto, using(crate::proofs::Check::past_none, crate::proofs::Check::past_turn))]
fn blanks_ok(n: usize, lent: &Lent) -> bool
    requires { n ≤ 8 }
    ensures { result
        ≡ all_to
        (past_ok n lent.now.left.now lent.now.position.now lent.now.rest.now
        lent.now.wait.now lent.now.age.now)
        most_guests }
{
    let mut ok = true;
    for k in n..8 {
        ok &= blank_ok(k, lent);
    }
    ok
}

// Whether a state is in its ranges; the columns of its plan's guests are then in those that are lent. These are lent
// since a tick and a release in place have little stack, on which an Option of columns would stand three times.
#[tactic(auto, unfolding(crate::specs::Check::passes))]
pub fn examine<P: AsPlan>(plan: &P, lent: &Lent, columns: &mut Columns) -> bool
    ensures { Examined (P.plan plan.now) lent.now.left.now lent.now.position.now
        lent.now.rest.now lent.now.wait.now lent.now.age.now
        (pick result (Some columns.new) None) }
{
    let count = plan.count();
    if !plan::count_ok(count) {
        return false;
    }
    let n = count as usize;
    guests_ok(plan, n, lent, columns) & blanks_ok(n, lent)
}
