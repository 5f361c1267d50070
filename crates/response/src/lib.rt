// The responses of guests and tasks, off lent servers and tasks: what verdicts and capacities are made of. Inner.
#![tactic(auto)]

mod gaps;
mod guest;
mod met;
mod seat;
mod servers;
mod task;
mod tasks;
mod trial;

pub use gaps::gaps_of;
pub use guest::{all_fitted, guest_response, response_at};
pub use met::first_unmet;
pub use seat::{Seat, seat_of};
pub use servers::{Servers, servers_of};
pub use task::task_response;
pub use tasks::{Tasks, tasks_of};
pub use trial::guest_accepted;
