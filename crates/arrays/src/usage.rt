// Where a tick went, counted in the lent array of 17.
ghost use Rattle.std.specs.Prelude.{◌≡◌, ◌≤◌, nat_lt};
ghost use Rattle.arrays.specs.Usage.{one_more, tallied};

// One more at place k, and after the last number 0 again.
#[tactic(auto, unfolding(crate::specs::Usage::one_more))]
fn more(usage: &mut [u64; 17], k: usize)
    requires { k ≤ 16 }
    ensures { usage.new ≡ one_more usage.old k }
{
    usage[k] = usage[k].wrapping_add(1);
}

// A tick of guest k, whose task had `had` of its run left, or which idled where that is 0; nobody's where k is past
// the n guests.
#[tactic(auto, unfolding(crate::specs::Usage::tallied))]
pub fn tally(usage: &mut [u64; 17], n: usize, k: usize, had: u32)
    requires { n ≤ 8 }
    ensures { usage.new ≡ tallied (nat_lt k n) (nat_lt 0 had) k usage.old }
{
    if n <= k {
        more(usage, 16);
        return;
    }
    more(usage, k);
    if had < 1 {
        more(usage, 8 + k);
    }
}
