// The order proposed in place: for a plan that is lent as rows.
ghost use Rattle.rows.specs.Words.{plan_of};
ghost use Rattle.order.specs.Promises.{Orders};

use crate::trying::settle;
use plan::Refusal;
use rows::{Rows, row_of};

// The order proposed for the tasks of the guest with an id; where it is refused the rows stay as they were. C is handed
// the refusal, number 0 for none. By value the plan crosses, here the rows that are lent change: two ends of `settle`.
pub fn propose_in(count: u32, rows: &mut [[u32; 54]; 8], id: u32) -> Refusal
    ensures { Orders (plan_of count rows.old) id (record { refusal = result; plan = plan_of count rows.new }) }
{
    match settle(&Rows { count, rows }, id) {
        Ok((k, g)) => {
            rows[k] = row_of(g);
            Refusal {
                number: 0,
                place: 0,
            }
        }
        Err(refusal) => refusal,
    }
}
