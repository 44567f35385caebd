// The planner: one load's timetable by Multi-Resource Round Robin. `crates/rules/specs/Plan.antt` is the definition of the plan.
#![tactic(auto)]

ghost use Rattle.rules.specs.Calls.{Plans};

use accept::accepted;
use arrivals::state::Tables;
use load::counts::Counts;
use load::refusal::Refusal;
use progress::record;
use progress::tally::Tally;
use rows::row;
use rules::answer::Summary;
use rules::record::FlowRecord;
use start::{origin, step};

// The first `limit` blocks of the plan, or all of them: their rows, the flows' records, and the counts.
// The parameters are the call's own, which C hands over one by one; the blocks and the rows stay flat words, as C lends them.
pub fn plan(
    counts: Counts,
    limit: u64,
    blocks: &[u32],
    flows: &mut [FlowRecord],
    rows: &mut [u64],
) -> Result<Summary, Refusal>
    ensures { Plans counts limit blocks.now flows.old rows.old result flows.new rows.new }
{
    let load = accepted::accept(counts, limit, blocks, flows.len(), rows.len())?;
    record::empty(&mut flows[..counts.flows]);
    let mut tables = Tables::new();
    let mut planner = origin::origin(&load, &mut tables);
    let mut tally = Tally::default();
    let listed = accept::listed(limit, counts.blocks);
    for i in 0..listed {
        // By the turns before it a start tells whether it begins one.
        let turns = planner.core.turns;
        let Some(start) = step::step(&load, &mut planner, &mut tables) else {
            // This is never reached: there is a start for each block that is listed.
            break;
        };
        // By its place in the table: of one that is lent in chunks a proof would know the length alone, and not the words.
        row::write(&mut rows[15 * i..], start.row);
        record::note(flows, turns, start.row, start.time);
        tally.count(start.row.hold);
    }
    Ok(tally.summary(counts.stages, listed, planner.core))
}
