// One start.
ghost use Rattle.std.specs.Prelude.{◌≡◌, List, ℕ, ◌≤◌, ◌<◌, IfNone, IfSome};
ghost use Rattle.dominant.specs.Dominant.{dominant_time};
ghost use Rattle.rules.specs.declared.mode.Mode.TheVariants.{Holds};
ghost use Rattle.rules.specs.Load.{block_at};
ghost use Rattle.rules.specs.Plan.{after as Plan·after, begun, row_of, started, step as Plan·step, up_to};
ghost use Rattle.accept.specs.Loads.{the_load};
ghost use Rattle.queues.specs.Queues.{Follows, oldest_in};
ghost use Rattle.arrivals.specs.declared.state.Tables.{Tables};
ghost use Rattle.arrivals.specs.Room.{StandsAt};
ghost use Rattle.arrivals.specs.State.{CoreBecomes, core_of, planning, state_of};
ghost use Rattle.start.specs.Next.{Answers, oldest_started, past};
ghost use Rattle.start.specs.Starting.{Due, HeldFits, Starts, Steps, Timed, TurnStarts};

use accept::accepted::Load;
use arrivals::state::{Planner, Tables};
use decide::settle;
use rows::stages;
use rules::mode::{HeldFlow, Mode, Turn};
use rules::row::Row;

// A start: its row, and the dominant time of its block.
#[derive(Clone, Copy, Debug, PartialEq, Eq)]
pub struct Start {
    pub row: Row,
    pub time: u64,
}

// The block at a place of the table starts at the clock. Its dominant time and stage are found once, and the time is handed on.
#[tactic(auto, unfolding(rules::specs::Plan::row_of))]
fn start_at(load: &Load<'_>, planner: &Planner, turn: Turn, hold: u64, place: usize) -> Start
    requires { (place < load.now.counts.blocks) × Timed planner.now.core }
    ensures row { (t : Tables) (from : List ℕ) → result.row ≡ row_of (the_load load.now) (core_of (planning planner.now t) from) turn hold place }
    ensures time { result.time ≡ dominant_time (block_at load.now.blocks.now place) }
{
    let block = load.block(place);
    let peak = dominant::highest(block);
    let core = &planner.core;
    Start {
        row: Row {
            block: place as u64,
            flow: turn.flow as u64,
            round: core.round.number,
            turn: core.turns,
            balance: turn.allowance.saturating_sub(turn.spent),
            hold,
            stage: u64::from(peak.stage),
            way: stages::pass(load.counts.stages, core.way, core.clock, block),
        },
        time: u64::from(peak.time),
    }
}

// The start of the oldest block of the flow in its turn, where one waits.
fn due(load: &Load<'_>, planner: &Planner, tables: &Tables, turn: Turn, hold: u64) -> Option<Start>
    requires { TurnStarts (the_load load.now) turn (planning planner.now tables.now) }
    ensures none { IfNone result (planner.now.core.next ≤ oldest_in tables.now.queues turn.flow) }
    ensures some { IfSome result (Due (the_load load.now) (planning planner.now tables.now) turn) }
    ensures row { IfSome result
        (λ s. (from : List ℕ) → s.row ≡ row_of (the_load load.now) (core_of (planning planner.now tables.now) from) turn hold s.row.block) }
{
    let place = tables.queues.oldest(turn.flow);
    if planner.core.next <= place {
        return None;
    }
    Some(start_at(load, planner, turn, hold, place))
}

// The planner after a start: the block's dominant time is spent, its flow's queue moves on, and the clock is where stage 1 is free
// again.
fn after(load: &Load<'_>, planner: &mut Planner, tables: &mut Tables, turn: Turn, start: Start)
    requires starts { TurnStarts (the_load load.now) turn (planning planner.old tables.old) }
    requires due { Due (the_load load.now) (planning planner.old tables.old) turn start }
    ensures { (from : List ℕ) → Follows (the_load load.now) from tables.old.queues
        → (state_of (planning planner.new tables.new) (past from start.row)
        ≡ Plan·after (the_load load.now) (core_of (planning planner.old tables.old) from) turn tables.old.gate start.row)
        × Follows (the_load load.now) (past from start.row) tables.new.queues }
{
    planner.mode = Mode::InTurn(Turn {
        spent: turn.spent + start.time,
        ..turn
    });
    tables.queues.start(turn.flow, start.row.block as usize);
    planner.core.way = start.row.way;
    arrivals::up_to(load, planner, tables, start.row.way.one.finish);
}

// The oldest block of the flow in its turn starts, where one waits: in a turn that goes on there is no hold. It has two callers, and
// where it is not made part of them a plan takes 1.6 times as long.
#[inline(always)]
fn start_oldest(
    load: &Load<'_>,
    planner: &mut Planner,
    tables: &mut Tables,
    turn: Turn,
    hold: u64,
) -> Option<Start>
    requires { TurnStarts (the_load load.now) turn (planning planner.old tables.old) }
    ensures { (from : List ℕ) → Follows (the_load load.now) from tables.old.queues
        → Answers (the_load load.now) (planning planner.old tables.old) result (planning planner.new tables.new) from
        (oldest_started (the_load load.now) (core_of (planning planner.old tables.old) from) turn hold) }
{
    let start = due(load, planner, tables, turn, hold)?;
    after(load, planner, tables, turn, start);
    Some(start)
}

// The clock moves to the end of the hold, and the turn is counted.
fn hold_until(load: &Load<'_>, planner: &mut Planner, tables: &mut Tables, tick: u64)
    requires { StandsAt (the_load load.now) (planning planner.old tables.old) × (planner.old.core.turns < 1_000_000) }
    ensures { CoreBecomes (λ c. begun (up_to (the_load load.now) planner.old.mode tick c))
        (planning planner.old tables.old) (planning planner.new tables.new) }
{
    arrivals::up_to(load, planner, tables, tick);
    planner.core.turns += 1;
}

// The flow is held until the first block of its previous turn, if it ever had one, has started at the last stage; its next turn will
// wait for the first block of this one.
fn hold(
    load: &Load<'_>,
    planner: &mut Planner,
    tables: &mut Tables,
    held: HeldFlow,
) -> Option<Start>
    requires mode { planner.old.mode ≡ Holds held }
    requires starts { Starts (the_load load.now) (Holds held) (planning planner.old tables.old)
        × (planner.old.core.turns < 1_000_000) × HeldFits held tables.old.gate }
    ensures { (from : List ℕ) → Follows (the_load load.now) from tables.old.queues
        → Answers (the_load load.now) (planning planner.old tables.old) result (planning planner.new tables.new) from
        (started (the_load load.now) (Holds held) (core_of (planning planner.old tables.old) from)) }
{
    let tick = stages::later(held.ready, tables.gate[held.flow]);
    let turn = Turn {
        flow: held.flow,
        allowance: planner.core.round.credit,
        spent: held.excess,
    };
    hold_until(load, planner, tables, tick);
    let start = start_oldest(load, planner, tables, turn, tick - held.ready)?;
    tables.gate[turn.flow] = stages::last_start(load.counts.stages, start.row.way);
    Some(start)
}

// The next start, or that nothing is left to start.
pub fn step(load: &Load<'_>, planner: &mut Planner, tables: &mut Tables) -> Option<Start>
    requires steps { Steps (the_load load.now) (planning planner.old tables.old) }
    ensures { (from : List ℕ) → Follows (the_load load.now) from tables.old.queues
        → Answers (the_load load.now) (planning planner.old tables.old) result (planning planner.new tables.new) from
        (Plan·step (the_load load.now) (state_of (planning planner.old tables.old) from)) }
{
    settle::settle(load, planner, tables);
    match planner.mode {
        Mode::Idle => None,
        Mode::Holds(held) => hold(load, planner, tables, held),
        Mode::InTurn(turn) => start_oldest(load, planner, tables, turn, 0),
    }
}
