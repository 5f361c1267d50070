// A plan that is lent as rows.
ghost use Rattle.rows.specs.Words.{plan_of};

use crate::guest_of;
use plan::{AsPlan, Guest};

// A count, and the rows that it counts in.
#[derive(Clone, Copy)]
pub struct Rows<'a> {
    pub count: u32,
    pub rows: &'a [[u32; 54]; 8],
}

impl AsPlan for Rows<'_> {
    ghost plan = { λ r. plan_of r.count r.rows.now };

    fn count(&self) -> u32 {
        self.count
    }

    fn guest(&self, k: usize) -> Guest {
        guest_of(&self.rows[k])
    }
}
