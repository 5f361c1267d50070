// The marks of a guest's tasks.
ghost use Rattle.std.specs.Prelude.{◌≡◌, ◌≤◌, ◌<◌};
ghost use Rattle.plan.specs.Ranges.{most_tasks};
ghost use Rattle.plan.specs.Marks.{marked, marks_of};

// Whether bit i of the marks is set.
#[tactic(auto, unfolding(crate::specs::Marks::marked))]
pub fn is_marked(marks: u16, i: usize) -> bool
    requires { i < most_tasks }
    ensures { result ≡ marked marks i }
{
    (marks >> i) % 2 == 1
}

// The marks of the first n tasks alone. Without marks nothing is divided.
#[tactic(auto, unfolding(crate::specs::Marks::marks_of), using(crate::proofs::MarksLaws::marks_none, crate::proofs::MarksLaws::moved_up_lem))]
pub fn live_marks(marks: u16, n: usize) -> u32
    requires { n ≤ most_tasks }
    ensures { result ≡ marks_of marks n }
{
    if marks == 0 {
        return 0;
    }
    u32::from(marks) % (1 << n)
}
