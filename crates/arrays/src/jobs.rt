// The tasks' part in a tick, over the lent arrays of 128.
ghost use Rattle.std.specs.Prelude.{◌≡◌, ◌*◌, ◌<◌, ◌≤◌};
ghost use Rattle.lists.specs.Places.{up_to};
ghost use Rattle.lists.specs.Search.{first_from};
ghost use Rattle.arrays.specs.Parts.{grown, fallen, has_run};

use crate::search::first_filled;
use plan::LONGEST;

// Each wait above 0 of the first n guests falls by one.
pub fn fall(wait: &mut [u32; 128], n: usize)
    requires { n ≤ 8 }
    ensures { wait.new ≡ up_to fallen (n * 16) wait.old }
{
    for i in 0..n * 16 {
        wait[i] = wait[i].saturating_sub(1);
    }
}

// The age of every job of the first n guests unfinished at the tick's start rises by one, stopping at 1,000,000.
// Each is written, grown or not, so that no store hangs on a test.
pub fn grow(age: &mut [u32; 128], rest: &[u32; 128], n: usize)
    requires { n ≤ 8 }
    ensures { age.new ≡ up_to (grown rest.now) (n * 16) age.old }
{
    for i in 0..n * 16 {
        age[i] = if 0 < rest[i] {
            age[i].min(LONGEST - 1) + 1
        } else {
            age[i]
        };
    }
}

// The first of the first n tasks of guest k with run left, or n, as the specs' `first_from` counts.
pub fn worker(rest: &[u32; 128], k: usize, n: usize) -> usize
    requires { (k < 8) × (n ≤ 16) }
    ensures { result ≡ first_from (has_run rest.now k) n 0 }
{
    let base = k * 16;
    first_filled(&rest[base..base + n]).unwrap_or(n)
}
