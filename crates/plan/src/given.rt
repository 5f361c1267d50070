// A plan as a call is handed it.
ghost use Rattle.std.specs.Prelude.{◌≡◌, ◌<◌};
ghost use Rattle.plan.specs.Ranges.{most_guests};
ghost use Rattle.plan.specs.Records.{guest_at};
ghost use Rattle.plan.specs.declared.Plan.{Plan};

use crate::{Guest, Plan};

// A plan as a call is handed it: by value, or as rows that are lent.
pub trait AsPlan {
    // The plan that it says.
    ghost plan: { Self → Plan };

    // How many guests the plan says that it has.
    fn count(&self) -> u32
        ensures { result ≡ (plan self.now).count };

    // The record at one of the eight places.
    fn guest(&self, k: usize) -> Guest
        requires { k < most_guests }
        ensures { result ≡ guest_at (plan self.now).guests k };
}

impl AsPlan for Plan {
    ghost plan = { λ p. p };

    fn count(&self) -> u32 {
        self.count
    }

    fn guest(&self, k: usize) -> Guest {
        self.guests[k]
    }
}
