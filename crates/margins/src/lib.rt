// The margin of a finished job, and sums of margins. Inner.
#![tactic(auto)]

ghost use Rattle.std.specs.Prelude.{◌≡◌, ◌*◌, ◌^◌, ◌≤◌, ◌<◌, leb, nat_abs, ◌+ℤ◌};
ghost use Rattle.plan.specs.Ranges.{longest};
ghost use Rattle.margins.specs.Margin.{margin_of, widest};

// The largest size of a margin.
const WIDEST: u64 = 999999;

// The deadline less the age: both are at most 1,000,000, so the casts and the difference are exact.
#[tactic(auto, unfolding(crate::specs::Margin::margin_of))]
pub fn margin_of(deadline: u32, age: u32) -> i32
    requires { (deadline ≤ longest) × (age ≤ longest) }
    ensures { result ≡ margin_of deadline age }
{
    (deadline as i32) - (age as i32)
}

// Whether a sum of margins is at most 999,999 for each job in size.
pub fn within(sum: i64, jobs: u32) -> bool
    ensures { result ≡ leb (nat_abs sum) (widest * jobs) }
{
    sum.unsigned_abs() <= WIDEST * u64::from(jobs)
}

// A margin added to a sum of the margins of so many jobs: it fits, with room to spare.
pub fn plus(sum: i64, margin: i32) -> i64
    requires { nat_abs sum < 2 ^ 62 }
    ensures { result ≡ sum +ℤ margin }
{
    sum + i64::from(margin)
}
