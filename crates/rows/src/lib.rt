// A plan's records as rows of words, as a C struct of numbers lies in memory: what calls in place are lent. Inner.
#![tactic(auto)]

ghost use Rattle.std.specs.Prelude.{◌≡◌, ◌≤◌};
ghost use Rattle.rows.specs.Words.{column, guest_of, plan_of};
ghost use Rattle.rows.specs.Put.{ColumnPut};

use plan::{Guest, Plan};

mod rows;

pub use rows::Rows;

// The low half of a word is this many numbers.
const HALF: u32 = 65536;

// The 16 words from one on. Word by word, since a copy as a slice takes more of the stack, and more instructions, of a
// tick in place.
fn column_at(row: &[u32; 54], first: usize) -> [u32; 16]
    requires { first ≤ 38 }
    ensures { result ≡ column row.now first }
{
    let mut x = [0; 16];
    for i in 0..16 {
        x[i] = row[first + i];
    }
    x
}

// The record that a row says.
pub fn guest_of(row: &[u32; 54]) -> Guest
    ensures { result ≡ guest_of row.now }
{
    Guest {
        id: row[0],
        capacity: row[1],
        period: row[2],
        tasks: row[3],
        charge: (row[4] % HALF) as u16,
        marks: (row[4] / HALF) as u16,
        deferrable: row[5],
        run: column_at(row, 6),
        every: column_at(row, 22),
        deadline: column_at(row, 38),
    }
}

// A column put into a row from a word on.
#[tactic(auto, using(crate::proofs::Put::put_is))]
fn put_column(row: &mut [u32; 54], first: usize, x: &[u32; 16])
    requires { first ≤ 38 }
    ensures { ColumnPut row.old first x.now row.new }
{
    row[first..first + 16].copy_from_slice(x);
}

// The row of a record.
#[tactic(auto, using(crate::proofs::Put::row_says))]
pub fn row_of(g: Guest) -> [u32; 54]
    ensures { guest_of result ≡ g }
{
    let mut row = [0; 54];
    row[0] = g.id;
    row[1] = g.capacity;
    row[2] = g.period;
    row[3] = g.tasks;
    row[4] = u32::from(g.charge) + u32::from(g.marks) * HALF;
    row[5] = g.deferrable;
    put_column(&mut row, 6, &g.run);
    put_column(&mut row, 22, &g.every);
    put_column(&mut row, 38, &g.deadline);
    row
}

// The rows of a plan.
#[tactic(auto, using(crate::proofs::Words::rows_next, crate::proofs::Words::plan_is))]
pub fn rows_of(plan: Plan) -> [[u32; 54]; 8]
    ensures { plan_of plan.count result ≡ plan }
{
    let mut rows = [[0; 54]; 8];
    for k in 0..8 {
        rows[k] = row_of(plan.guests[k]);
    }
    rows
}
