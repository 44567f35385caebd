// Arrivals up to a tick: a flow joins the list when a block of its arrives and it is neither listed, held nor in its turn. Beside
// them the planner's state and its tables.
#![tactic(auto)]

ghost use Rattle.std.specs.Prelude.{◌≡◌, ◌<◌};
ghost use Rattle.rules.specs.Load.{block_at};
ghost use Rattle.rules.specs.Plan.{arrived, busy as Plan·busy, up_to};
ghost use Rattle.rules.specs.Waiting.{Lists};
ghost use Rattle.waiting.specs.Entries.{entries_of, most};
ghost use Rattle.accept.specs.Loads.{the_load};
ghost use Rattle.arrivals.specs.Room.{HasBlock, StandsAt, TellsOf};
ghost use Rattle.arrivals.specs.State.{CoreBecomes, planning};

pub mod state;

use crate::state::{Planner, Tables};
use accept::accepted::Load;
use load::block::Block;
use rules::entry::Entry;
use rules::mode::Mode;

// Whether a flow is held or in its turn.
#[tactic(auto, unfolding(rules::specs::Plan::busy))]
fn busy(mode: Mode, flow: usize) -> bool
    ensures { result ≡ Plan·busy mode flow }
{
    match mode {
        Mode::Idle => false,
        Mode::Holds(held) => held.flow == flow,
        Mode::InTurn(turn) => turn.flow == flow,
    }
}

// A block of a flow arrives, the next one. Where an older one waits, the flow is known already: the list is not searched.
fn arrive(planner: &Planner, tables: &mut Tables, flow: usize)
    requires in_range { (flow < most) × Lists most (entries_of tables.old.list) }
    requires tells { TellsOf (planning planner.now tables.old) flow }
    ensures { planning planner.now tables.new
        ≡ record (planning planner.now tables.old) { list = arrived planner.now.mode flow (entries_of tables.old.list) } }
{
    if tables.queues.oldest(flow) < planner.core.next || busy(planner.mode, flow) {
        return;
    }
    tables.list.join(Entry { flow, excess: 0 });
}

// The tick at which a block arrives. It is a function of its own since docs/PROMISES.md promises its theorem by name,
// `arrival_once`.
#[tactic(auto, unfolding(rules::specs::Load::block_at))]
pub fn arrival(blocks: &[u32], block: usize) -> u64
    requires { HasBlock blocks.now block }
    ensures { result ≡ (block_at blocks.now block).arrival }
{
    u64::from(Block::at(&blocks[6 * block..]).arrival)
}

// The clock moves to a tick, with the arrivals up to it.
pub fn up_to(load: &Load<'_>, planner: &mut Planner, tables: &mut Tables, tick: u64)
    requires stands { StandsAt (the_load load.now) (planning planner.old tables.old) }
    ensures { CoreBecomes (up_to (the_load load.now) planner.old.mode tick) (planning planner.old tables.old) (planning planner.new tables.new) }
{
    planner.core.clock = tick;
    // By its place, from which on the next call goes on.
    for place in planner.core.next..load.counts.blocks {
        let block = load.block(place);
        if tick < u64::from(block.arrival) {
            return;
        }
        arrive(planner, tables, block.flow as usize);
        planner.core.next = place + 1;
    }
}
