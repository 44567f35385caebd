// The planner before the first start.
ghost use Rattle.std.specs.Prelude.{◌≡◌, replicate};
ghost use Rattle.rules.specs.Plan.{origin as Plan·origin};
ghost use Rattle.accept.specs.Loads.{the_load};
ghost use Rattle.arrivals.specs.State.{planning, state_of};
ghost use Rattle.queues.specs.Queues.{Follows, most};
ghost use Rattle.start.specs.Next.{at_first};

use accept::accepted::Load;
use arrivals::state::{Core, Planner, Tables};
use rules::mode::Mode;
use waiting::Waiting;

// The core before anything has arrived: no block, no round and no turn, and no stage has run.
#[tactic(auto, unfolding(rules::specs::Plan::none_yet, crate::specs::Next::at_first))]
fn nothing() -> Core
    ensures { result ≡ at_first }
{
    Core::default()
}

// The planner at tick 0, with the arrivals of that tick. Whatever the tables had is forgotten, where it lies: tables that were made
// here would be copied to the caller's, which a small load would feel most.
pub fn origin(load: &Load<'_>, tables: &mut Tables) -> Planner
    ensures state { state_of (planning result tables.new) (replicate most 0) ≡ Plan·origin (the_load load.now) }
    ensures follows { Follows (the_load load.now) (replicate most 0) tables.new.queues }
{
    let mut planner = Planner {
        mode: Mode::Idle,
        core: nothing(),
    };
    tables.list = Waiting::new();
    tables.queues.link(load);
    tables.gate = [0; 64];
    arrivals::up_to(load, &mut planner, tables, 0);
    planner
}
