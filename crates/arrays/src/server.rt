// The guests' part in a tick, over the lent arrays of 8.
ghost use Rattle.std.specs.Prelude.{◌≡◌, ◌≤◌};
ghost use Rattle.lists.specs.Places.{up_to};
ghost use Rattle.lists.specs.Search.{first_from};
ghost use Rattle.arrays.specs.Parts.{filled, onward, has_left};

use crate::search::first_filled;
use plan::Columns;

// Each guest at position 0 gets its full capacity, what was left being dropped. Each is written, filled or not, so
// that no store hangs on a test.
pub fn refill(left: &mut [u32; 8], position: &[u32; 8], columns: &Columns, n: usize)
    requires { n ≤ 8 }
    ensures { left.new ≡ up_to (filled position.now columns.now.capacities) n left.old }
{
    for k in 0..n {
        left[k] = if position[k] == 0 {
            columns.capacities[k]
        } else {
            left[k]
        };
    }
}

// The first guest with capacity left, or n, as the specs' `first_from` counts.
pub fn holder(left: &[u32; 8], n: usize) -> usize
    requires { n ≤ 8 }
    ensures { result ≡ first_from (has_left left.now) n 0 }
{
    first_filled(&left[..n]).unwrap_or(n)
}

// Each position moves on and returns to 0 at the period.
pub fn advance(position: &mut [u32; 8], columns: &Columns, n: usize)
    requires { n ≤ 8 }
    ensures { position.new ≡ up_to (onward columns.now.periods) n position.old }
{
    for k in 0..n {
        let after = position[k].saturating_add(1);
        position[k] = if after < columns.periods[k] { after } else { 0 };
    }
}
