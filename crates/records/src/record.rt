// One record. Each function gets the bytes from the record's length byte on: the rest of the file, or the record alone.
ghost use Rattle.std.specs.Prelude.{◌≡◌, ◌+◌, ◌*◌, ◌≤◌, length};
ghost use Rattle.records.specs.Records.{block_in, block_record, flow_record, name_bytes, time_in};
ghost use Rattle.records.specs.Records.{measure as Layout·measure};
ghost use Rattle.records.specs.Answers.{block_found};

use crate::bytes::{four, two};
use load::block::Block;
use load::counts::Counts;
use load::refusal::Refusal;

// The byte after the record, whose length byte must be from least to most.
#[tactic(auto, unfolding(crate::specs::Records::measure, crate::specs::Records::stop_if))]
pub fn measure(rest: &[u8], least: usize, most: usize) -> Result<usize, Refusal>
    ensures { result ≡ Layout·measure least most rest.now }
{
    let size = usize::from(*rest.first().ok_or(Refusal::Record)?);
    if !(least..=most).contains(&size) || rest.len() <= size {
        return Err(Refusal::Record);
    }
    Ok(1 + size)
}

// Whether each byte is from 33 to 126.
fn printable(name: &[u8]) -> bool
    ensures { result ≡ name_bytes name.now }
{
    name.iter().all(|byte| (33..=126).contains(byte))
}

// A flow's record: 5, then 6.
#[tactic(auto, using(crate::proofs::Records::flow_laws))]
pub fn flow(rest: &[u8]) -> Result<usize, Refusal>
    ensures { result ≡ flow_record rest.now }
{
    let next = measure(rest, 0, 31)?;
    if printable(&rest[1..next]) {
        Ok(next)
    } else {
        Err(Refusal::NameByte)
    }
}

#[tactic(auto, unfolding(crate::specs::Records::time_in))]
fn time(rest: &[u8], stages: usize, stage: usize) -> u32
    requires { (7 + 4 * stages ≤ length rest.now) × (1 ≤ stage) × (stage ≤ 4) }
    ensures { result ≡ time_in stages stage rest.now }
{
    if stages < stage {
        0
    } else {
        four(rest, 3 + 4 * stage)
    }
}

// The block in a record that is whole. The caller knows that it is, and `From` could not ask it.
#[tactic(auto, unfolding(crate::specs::Records::block_in))]
pub fn fields(rest: &[u8], stages: usize) -> Block
    requires { 7 + 4 * stages ≤ length rest.now }
    ensures { result ≡ block_in stages rest.now }
{
    Block {
        flow: u32::from(two(rest, 1)),
        arrival: four(rest, 3),
        time1: time(rest, stages, 1),
        time2: time(rest, stages, 2),
        time3: time(rest, stages, 3),
        time4: time(rest, stages, 4),
    }
}

// A block's record below a block that arrives at `above` (0 for the first): 5, then 8 to 11. It asks only what it needs, so no type
// of counts serves here and where all are tested.
#[tactic(auto, using(crate::proofs::Records::measure_within), unfolding(crate::specs::Records::block_record, crate::specs::Records::block_measured, crate::specs::Records::unless, crate::specs::Answers::block_found))]
pub fn block(rest: &[u8], counts: Counts, above: u32) -> Result<Block, Refusal>
    requires { counts.stages ≤ 4 }
    ensures { result ≡ block_found (block_record counts above rest.now) }
{
    let size = 6 + 4 * counts.stages;
    measure(rest, size, size)?;
    let block = fields(rest, counts.stages);
    limits::block::test(counts, above, block)?;
    Ok(block)
}
