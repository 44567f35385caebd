// The calls for programs in C and Rust, as a static library: `examples/xarbulest.h` declares them. Nothing is decided here. What
// the crates answer as an enum, a struct or a part of a slice cannot cross the boundary, so it is written as a number and
// words that the caller lends. Counts are lent as arrays of just their length, which leaves no length to be tested.
#![tactic(auto)]

ghost use Rattle.std.specs.Prelude.{◌≡◌};
ghost use Rattle.load.specs.Refusals.{verdict_number};
ghost use Rattle.loadfile.specs.Calls.{soundness};
ghost use Rattle.export.specs.Calls.{Names, PlansInWords, ReadsInWords};

use load::counts::Counts;
use rules::record::FlowRecord;

// The soundness call: document 01's number, 0 for a sound file.
#[unsafe(no_mangle)]
pub extern "C" fn xarbulest_sound(file: &[u8]) -> u64
    ensures { result ≡ verdict_number (soundness file.now) }
{
    load::refusal::number(loadfile::sound(file))
}

// The reader: the number, and in `counts` stages, flows and blocks.
#[unsafe(no_mangle)]
pub extern "C" fn xarbulest_read(file: &[u8], table: &mut [u32], counts: &mut [u64; 3]) -> u64
    ensures { ReadsInWords file.now table.old result table.new counts.new }
{
    words::put(loadfile::read(file, table), counts)
}

// The name call: the length of the name that is shown for a flow. The name is copied into the room, since a part of a slice
// cannot be handed back; a name that is longer than the room leaves it as it was.
#[tactic(auto, using(crate::proofs::Copied::name_copied, crate::proofs::Copied::name_too_long))]
#[unsafe(no_mangle)]
pub extern "C" fn xarbulest_name<'a>(
    file: &'a [u8],
    standing: &'a [u8],
    flow: usize,
    room: &mut [u8],
) -> usize
    ensures { Names file.now standing.now flow room.old result room.new }
{
    let name = loadfile::name(file, standing, flow);
    if room.len() < name.len() {
        return name.len();
    }
    room[..name.len()].copy_from_slice(name);
    name.len()
}

// The plan call: the number, and in `counts` blocks listed, turns, rounds, turns held, held ticks and the end.
#[tactic(auto, using(words::proofs::Said::put_plan))]
#[unsafe(no_mangle)]
pub extern "C" fn xarbulest_plan(
    stages: usize,
    flows: usize,
    blocks: usize,
    limit: u64,
    table: &[u32],
    records: &mut [FlowRecord],
    rows: &mut [u64],
    counts: &mut [u64; 6],
) -> u64
    ensures { PlansInWords (record { stages = stages; flows = flows; blocks = blocks }) limit
        table.now records.old rows.old result records.new rows.new counts.new }
{
    let asked = Counts {
        stages,
        flows,
        blocks,
    };
    words::put(mr3::plan(asked, limit, table, records, rows), counts)
}
