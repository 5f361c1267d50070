// A release: its refusals in order, then the task's run left, wait and age set.
ghost use Rattle.std.specs.Prelude.{List, ℕ, ◌<◌, IfErr};
ghost use Rattle.dispatcher.specs.InPlace.{released_in};
ghost use Rattle.dispatcher.specs.Lent.{state_of};
ghost use Rattle.dispatcher.specs.Promises.{Releases};

use crate::{Dispatcher, Released};
use plan::{AsPlan, Refusal};
use refusals::{Lent, aim_by_id};

// A release in place, over a state that is lent beside its plan. Where a number refuses it the state comes back as it
// was, whatever the usage, which is not looked at. It stays a call of its own: taken into a call by value it leaves zeros
// of a whole state there, which are written at each release and never read.
#[inline(never)]
pub fn release_in<P: AsPlan>(
    plan: &P,
    left: &[u32; 8],
    position: &[u32; 8],
    rest: &mut [u32; 128],
    wait: &mut [u32; 128],
    age: &mut [u32; 128],
    guest: u32,
    task: u32,
) -> Result<(), u32>
    ensures released { (usage : List ℕ)
        → Releases
        (state_of (P.plan plan.now) left.now position.now rest.old
        wait.old age.old usage)
        guest task
        (released_in result
        (state_of (P.plan plan.now) left.now position.now rest.new
        wait.new age.new usage)) }
    ensures number { IfErr result (λ n. 0 < n) }
{
    let lent = Lent {
        left,
        position,
        rest,
        wait,
        age,
    };
    let aim = aim_by_id(plan, &lent, guest, task)?;
    rest[aim.at] = aim.run;
    wait[aim.at] = aim.every;
    age[aim.at] = 0;
    Ok(())
}

impl Dispatcher {
    pub fn release(mut self, guest: u32, task: u32) -> Released
        ensures { Releases self guest task result }
    {
        let refused = release_in(
            &self.plan,
            &self.left,
            &self.position,
            &mut self.rest,
            &mut self.wait,
            &mut self.age,
            guest,
            task,
        );
        let number = refused.err().unwrap_or(0);
        Released {
            refusal: Refusal { number, place: 0 },
            state: self,
        }
    }
}
