// The order proposed for a guest's tasks: by value, and in place. The outcome crosses as it is.
ghost use Rattle.std.specs.Prelude.{◌≡◌, length};
ghost use Rattle.rows.specs.Words.{plan_of};
ghost use Rattle.order.specs.Promises.{Orders};

use order::Ordered;
use plan::{Plan, Refusal};

#[unsafe(no_mangle)]
pub extern "C" fn cs_order(plan: Plan, id: u32) -> Ordered
    ensures { Orders plan id result }
{
    order::propose(plan, id)
}

#[unsafe(no_mangle)]
pub extern "C" fn cs_order_in(count: u32, rows: &mut [[u32; 54]; 8], id: u32) -> Refusal
    ensures { length rows.old ≡ 8
        → Orders (plan_of count rows.old) id
        (record { refusal = result; plan = plan_of count rows.new }) }
{
    order::propose_in(count, rows, id)
}
