// The flow table, one record for each flow: emptied before the first start, and then each start is noted in its flow's.
ghost use Rattle.std.specs.Prelude.{◌≡◌, ◌<◌, get_or, length, ltb, replicate};
ghost use Rattle.rules.specs.Counts.{one, unlisted};
ghost use Rattle.progress.specs.Records.{Fits, noted};

use rules::record::FlowRecord;
use rules::row::Row;

// Empties each record.
#[tactic(auto, unfolding(rules::specs::Counts::unlisted))]
pub fn empty(flows: &mut [FlowRecord])
    ensures { flows.new ≡ replicate (length flows.old) unlisted }
{
    flows.fill(FlowRecord::default());
}

// Notes a row in its flow's record, after one of the turn `before`: its block, the turn if the row is its first, and the block's
// dominant time.
#[tactic(auto, using(crate::proofs::Running::one_bool), unfolding(rules::specs::Counts::added, rules::specs::Counts::unlisted))]
pub fn note(flows: &mut [FlowRecord], before: u64, row: Row, time: u64)
    requires flow { row.flow < length flows.old }
    requires fits { Fits (get_or flows.old row.flow unlisted) (one (ltb before row.turn)) time }
    ensures { flows.new ≡ noted flows.old before row time }
{
    let record = &mut flows[row.flow as usize];
    record.blocks += 1;
    record.turns += u64::from(before < row.turn);
    record.time += time;
}
