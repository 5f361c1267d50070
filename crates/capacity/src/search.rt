// The search for one task: an interval of capacities is narrowed, each tried off servers and tasks that are lent.
ghost use Rattle.std.specs.Prelude.{◌≡◌, ◌+◌, ◌-◌, ◌≤◌, ◌<◌};
ghost use Rattle.lists.specs.Search.{least};
ghost use Rattle.plan.specs.Ranges.{longest};
ghost use Rattle.capacity.specs.Search.{fits_in, meets_in, next_try, smallest_of, Known, Narrows, SearchIn};

use response::{Servers, Tasks, gaps_of, guest_response, task_response};

// The capacities up to this one are tried one by one.
const FEW: u32 = 32;

// What a search reads: the servers above the guest at a place, and that guest's period, marks and tasks. That these are
// in their ranges, `SearchIn`, is said of all of it at once, so the methods ask for it.
#[derive(Clone, Copy)]
pub struct Search<'a> {
    pub servers: &'a Servers,
    pub place: usize,
    pub period: u32,
    pub marks: u16,
    pub tasks: &'a Tasks,
}

// The capacities left to try, from lo on and below hi, and the smallest so far that works.
#[derive(Clone, Copy)]
struct Span {
    lo: u32,
    hi: u32,
    best: Option<u32>,
}

// The capacity to try next: the lowest up to 32; then twice the lowest, until one was found that works or is unfit;
// then the middle.
#[tactic(auto, unfolding(crate::specs::Search::next_try))]
fn next_try(lo: u32, hi: u32, period: u32) -> u32
    requires { (lo < hi) × ((hi ≤ period + 1) × (period ≤ longest)) }
    ensures { (result ≡ next_try period lo hi) × ((lo ≤ result) × (result < hi)) }
{
    if lo <= FEW {
        return lo;
    }
    if hi <= period {
        return lo + (hi - lo) / 2;
    }
    (2 * lo).min(hi - 1)
}

impl Search<'_> {
    // Whether the guest is fitted at c, given a larger capacity that was found to work: where there is one, it is.
    fn fits(&self, c: u32, best: Option<u32>) -> bool
        requires within { SearchIn self.now × ((1 ≤ c) × (c ≤ self.now.period)) }
        requires known { Known (fits_in self.now) c best }
        ensures { result ≡ fits_in self.now c }
    {
        if best.is_some() {
            return true;
        }
        guest_response(self.servers, self.place, c, self.period).is_some()
    }

    // What is left after a try for task i: no capacity meets it from an unfit one on, nor up to a fitted one at which
    // it is not met.
    fn narrowed(&self, i: usize, left: Span) -> Span
        requires within { SearchIn self.now × (i < self.now.tasks.now.count) }
        requires bounds { (1 ≤ left.lo) × ((left.lo < left.hi) × (left.hi ≤ self.now.period + 1)) }
        requires known { Known (fits_in self.now) left.hi left.best }
        ensures { Narrows (fits_in self.now) (meets_in self.now i) self.now.period left result
            × Known (fits_in self.now) result.hi result.best }
    {
        let c = next_try(left.lo, left.hi, self.period);
        if !self.fits(c, left.best) {
            return Span { hi: c, ..left };
        }
        let late = gaps_of(self.marks, self.period - c, i + 1);
        let deadline = self.tasks.deadline[i];
        let response = task_response(
            self.servers,
            self.place,
            c,
            self.period,
            self.tasks,
            &late,
            i,
            deadline,
        );
        if response.is_some() {
            return Span {
                hi: c,
                best: Some(c),
                ..left
            };
        }
        Span { lo: c + 1, ..left }
    }

    // The smallest of the capacities from lo on and below hi at which the guest is fitted and task i is met, or else the
    // best so far. The call of itself comes last and hands on numbers alone, so that the compiler reuses the frame: with
    // a struct it takes 17 KB of stack.
    fn smallest_in(&self, i: usize, lo: u32, hi: u32, best: Option<u32>) -> Option<u32>
        requires within { SearchIn self.now × (i < self.now.tasks.now.count) }
        requires bounds { (1 ≤ lo) × (hi ≤ self.now.period + 1) }
        requires known { Known (fits_in self.now) hi best }
        ensures { result ≡ smallest_of (meets_in self.now i) lo hi best }
    {
        if hi <= lo {
            return best;
        }
        let left = self.narrowed(i, Span { lo, hi, best });
        self.smallest_in(i, left.lo, left.hi, left.best)
    }

    // The smallest capacity from lo on at which the guest is fitted and task i is met.
    pub fn smallest_from(&self, i: usize, lo: u32) -> Option<u32>
        requires { SearchIn self.now × ((i < self.now.tasks.now.count) × ((1 ≤ lo) × (lo ≤ self.now.period + 1))) }
        ensures { result ≡ least (meets_in self.now i) (self.now.period + 1 - lo) lo }
    {
        self.smallest_in(i, lo, self.period + 1, None)
    }
}
