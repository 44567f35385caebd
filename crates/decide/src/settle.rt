// Settling the planner at a tick: the turn is tested, and an idle planner takes the head of the list, or wakes at the next arrival.
ghost use Rattle.std.specs.Prelude.{◌≡◌, [], ◌∷◌, ◌<◌};
ghost use Rattle.rules.specs.declared.mode.Mode.TheVariants.{Idle};
ghost use Rattle.rules.specs.Plan.{readied, rejoined, taken, tested as Plan·tested, woken};
ghost use Rattle.waiting.specs.Entries.{entries_of, Room};
ghost use Rattle.accept.specs.Loads.{the_load};
ghost use Rattle.arrivals.specs.Room.{StandsAt};
ghost use Rattle.arrivals.specs.State.{Becomes, BecomesBy, CoreBecomes, planning, settled_in};
ghost use Rattle.decide.specs.Room.{CallFits, Settles, Takes};

use accept::accepted::Load;
use arrivals::state::{Planner, Tables};
use rules::entry::Entry;
use rules::mode::{HeldFlow, Mode};

// The turn ended with a block still waiting: the flow joins the tail with its excess.
#[tactic(auto, unfolding(rules::specs::Plan::rejoined, rules::specs::Plan::with_line, rules::specs::Plan::with_round))]
fn rejoin(planner: &mut Planner, tables: &mut Tables, flow: usize, excess: u64)
    requires { Room (entries_of tables.old.list) }
    ensures { CoreBecomes (λ c. rejoined c flow excess) (planning planner.old tables.old) (planning planner.new tables.new) }
{
    tables.list.join(Entry { flow, excess });
    planner.core.round = accounts::noted(planner.core.round, excess);
}

// A turn goes on while a block of the flow has arrived and the balance is 0 or more. An idle planner and a held flow stay as they
// are.
fn test_turn(load: &Load<'_>, planner: &mut Planner, tables: &mut Tables)
    requires settles { Settles (the_load load.now) (planning planner.old tables.old) }
    ensures { BecomesBy (the_load load.now) (Plan·tested (the_load load.now) planner.old.mode)
        (planning planner.old tables.old) (planning planner.new tables.new) }
{
    let Mode::InTurn(turn) = planner.mode else {
        return;
    };
    if planner.core.next <= tables.queues.oldest(turn.flow) {
        planner.mode = Mode::Idle;
    } else if turn.allowance < turn.spent {
        planner.mode = Mode::Idle;
        rejoin(planner, tables, turn.flow, turn.spent - turn.allowance);
    }
}

// The flow that has left the list is called to its turn, and is held from this tick on. It was the head of those that wait, so it
// counts where a round opens.
#[tactic(auto, unfolding(rules::specs::Plan::taken, rules::specs::Plan::state, rules::specs::Plan::with_line, rules::specs::Plan::with_round))]
fn call(planner: &mut Planner, tables: &Tables, entry: Entry)
    requires { CallFits (planning planner.old tables.now) }
    ensures { Becomes (λ c. taken c (entry ∷ entries_of tables.now.list)) (planning planner.old tables.now) (planning planner.new tables.now) }
{
    planner.mode = Mode::Holds(HeldFlow {
        flow: entry.flow,
        excess: entry.excess,
        ready: planner.core.clock,
    });
    planner.core.round = accounts::called(planner.core.round, tables.list.len() as u64 + 1);
}

// The list is empty, so the planner goes on to the next arrival, if one is to come: only the clock moves.
fn wake(load: &Load<'_>, planner: &mut Planner, tables: &mut Tables)
    requires stands { StandsAt (the_load load.now) (planning planner.old tables.old) }
    requires idle { planner.old.mode ≡ Idle }
    ensures { CoreBecomes (λ c. woken (the_load load.now) c []) (planning planner.old tables.old) (planning planner.new tables.new) }
{
    if planner.core.next < load.counts.blocks {
        arrivals::up_to(
            load,
            planner,
            tables,
            arrivals::arrival(load.blocks, planner.core.next),
        );
    }
}

// The head of the list is taken, and the planner stays idle where there is none.
fn take_head(planner: &mut Planner, tables: &mut Tables)
    requires fits { CallFits (planning planner.old tables.old) }
    requires idle { planner.old.mode ≡ Idle }
    ensures { Becomes (λ c. taken c (entries_of tables.old.list)) (planning planner.old tables.old) (planning planner.new tables.new) }
{
    if let Some(entry) = tables.list.take() {
        call(planner, tables, entry);
    }
}

// The ready tick: the head of the list is taken; where the list is empty, the planner goes on to the next arrival instead.
fn ready(load: &Load<'_>, planner: &mut Planner, tables: &mut Tables)
    requires takes { Takes (the_load load.now) (planning planner.old tables.old) }
    requires idle { planner.old.mode ≡ Idle }
    ensures { Becomes (readied (the_load load.now)) (planning planner.old tables.old) (planning planner.new tables.new) }
{
    let Some(entry) = tables.list.take() else {
        wake(load, planner, tables);
        return take_head(planner, tables);
    };
    call(planner, tables, entry);
}

// What the planner does next at this tick: it goes on with a turn, or holds the flow that is taken; it is idle only where nothing
// is left to start.
pub fn settle(load: &Load<'_>, planner: &mut Planner, tables: &mut Tables)
    requires settles { Settles (the_load load.now) (planning planner.old tables.old) }
    ensures { BecomesBy (the_load load.now) (settled_in (the_load load.now) planner.old.mode)
        (planning planner.old tables.old) (planning planner.new tables.new) }
{
    test_turn(load, planner, tables);
    if let Mode::Idle = planner.mode {
        ready(load, planner, tables);
    }
}
