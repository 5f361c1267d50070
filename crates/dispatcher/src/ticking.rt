// One tick: a run of one. It is not `run(1)`, through whose outcome the state would be copied once more.
ghost use Rattle.dispatcher.specs.Promises.{Ticks};

use crate::running::{NO_TICK, run_in};
use crate::{Dispatcher, Ticked};
use plan::Refusal;

impl Dispatcher {
    pub fn tick(mut self) -> Ticked
        ensures { Ticks self result }
    {
        let ran = run_in(
            &self.plan,
            &mut self.left,
            &mut self.position,
            &mut self.rest,
            &mut self.wait,
            &mut self.age,
            &mut self.usage,
            1,
        );
        Ticked {
            refusal: Refusal {
                number: ran.err().unwrap_or(0),
                place: 0,
            },
            answer: ran.unwrap_or(NO_TICK).answer,
            state: self,
        }
    }
}
