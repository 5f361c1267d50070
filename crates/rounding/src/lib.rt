// The quotient rounded up, and what several ask of a window, kept beside the window as it grows.
#![tactic(auto)]

ghost use Rattle.std.specs.Prelude.{◌≡◌, ℕ, ◌≤◌};
ghost use Rattle.lists.specs.Places.{nth};
ghost use Rattle.rounding.specs.Up.{up};
ghost use Rattle.rounding.specs.Short.{Short, Often};
ghost use Rattle.rounding.specs.Edges.{Kept, Behind};

// The quotient a / b rounded up; 0 for a divisor 0.
#[tactic(auto, using(crate::proofs::Up::up_zero, crate::proofs::Up::up_ceil, crate::proofs::Up::up_le))]
pub fn quotient(a: u32, b: u32) -> u32
    ensures { (result ≡ up a b) × (result ≤ a) }
{
    if b == 0 {
        return 0;
    }
    a.div_ceil(b)
}

// The same of a number above 0 that is seldom more than b: where it is not, nothing is divided.
#[tactic(auto, using(crate::proofs::Up::up_one))]
fn steps(a: u32, b: u32) -> u32
    requires { 1 ≤ a }
    ensures { (result ≡ up a b) × (result ≤ a) }
{
    if a <= b {
        return 1;
    }
    quotient(a, b)
}

// The quotients of up to 16 at a window: each has an edge, the last number up to which it stands, and `sum` is what they
// ask of the window in all.
#[derive(Clone, Copy)]
pub struct Edges {
    pub at: [u32; 16],
    pub sum: u64,
}

impl Edges {
    // None yet, which stand behind every window.
    pub fn none() -> Edges
        ensures { (cost every late : ℕ → ℕ) (n v : ℕ) → Behind cost every late result n v }
    {
        Edges {
            at: [0; 16],
            sum: 0,
        }
    }

    // Those of the first n, each put off by its own number in `late`, moved on to a window of v ticks: an edge that the
    // window has passed moves, and the sum with it. No one struct holds the three columns: they are those of servers, or
    // of tasks with what each meets of a gap beside.
    pub fn move_on(
        &mut self,
        cost: &[u32; 16],
        every: &[u32; 16],
        late: &[u32; 16],
        n: usize,
        v: u32,
    )
        requires n_bound { (n ≤ 16) × (Short late.now n v × Often every.now n) }
        requires behind { Behind (nth cost.now) (nth every.now) (nth late.now) self.old n v }
        ensures { Kept (nth cost.now) (nth every.now) (nth late.now) self.new n v }
    {
        for k in 0..n {
            let end = v + late[k];
            let old = self.at[k];
            if old < end {
                let step = every[k];
                let more = steps(end - old, step);
                self.at[k] = old + more * step;
                self.sum += u64::from(more) * u64::from(cost[k]);
            }
        }
    }
}
