// The servers of a plan's guests, which the equations below guests are read off.
ghost use Rattle.std.specs.Prelude.{◌≡◌, ◌-◌};
ghost use Rattle.lists.specs.Choice.{pick};
ghost use Rattle.plan.specs.Ranges.{most_guests};
ghost use Rattle.plan.specs.Server.{says_deferrable};
ghost use Rattle.response.specs.Columns.{ServersOf};

use plan::AsPlan;

// Three numbers of each guest of a plan, a column for each number, since the edges of quotients go along columns: only a
// Deferrable guest has a jitter. How many of the guests stand above is each call's, so `AboveIn` stays in the contracts.
#[derive(Clone, Copy)]
pub struct Servers {
    pub capacities: [u32; 16],
    pub periods: [u32; 16],
    pub jitters: [u32; 16],
}

// How far a capacity can be put off: not at all by a Periodic Server.
fn jitter_for(deferrable: u32, capacity: u32, period: u32) -> u32
    ensures { result ≡ pick (says_deferrable deferrable) (period - capacity) 0 }
{
    if deferrable < 1 {
        return 0;
    }
    period.saturating_sub(capacity)
}

// The servers of all eight places of a plan, each number stored once: a column that is copied as soon as it is filled
// waits for its stores.
pub fn servers_of<P: AsPlan>(plan: &P) -> Servers
    ensures { ServersOf (P.plan plan.now).guests most_guests result }
{
    let mut servers = Servers {
        capacities: [0; 16],
        periods: [0; 16],
        jitters: [0; 16],
    };
    for k in 0..8 {
        let g = plan.guest(k);
        servers.capacities[k] = g.capacity;
        servers.periods[k] = g.period;
        servers.jitters[k] = jitter_for(g.deferrable, g.capacity, g.period);
    }
    servers
}
