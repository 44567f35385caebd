// Which plan calls are refused: tests 3, 4, 7 and then, block by block, 8 to 11, by the functions that the file reader uses too.
#![tactic(auto)]

ghost use Rattle.std.specs.Prelude.{◌≡◌, ◌*◌, ◌≤◌, min, length};
ghost use Rattle.rules.specs.Calls.{blocks_verdict, plan_verdict, short as Calls·short};

pub mod accepted;

use load::block::Block;
use load::counts::Counts;
use load::refusal::Refusal;

// How many blocks the plan will list.
pub fn listed(limit: u64, blocks: usize) -> usize
    ensures { result ≡ min limit blocks }
{
    limit.min(blocks as u64) as usize
}

// Whether a table that is lent is too short.
// The parameters are the call's own arguments, which C hands over one by one.
#[tactic(auto, unfolding(rules::specs::Calls::short))]
fn short(
    counts: Counts,
    limit: u64,
    block_words: usize,
    flow_records: usize,
    row_words: usize,
) -> bool
    requires { (counts.flows ≤ 64) × (counts.blocks ≤ 1024) }
    ensures { result ≡ Calls·short counts limit block_words flow_records row_words }
{
    block_words < 6 * counts.blocks
        || flow_records < counts.flows
        || row_words < 15 * listed(limit, counts.blocks)
}

// Tests 8 to 11, block by block. Counts and blocks are apart, as the call has them: a `Load` is what passes.
fn test_blocks(counts: Counts, blocks: &[u32]) -> Result<(), Refusal>
    requires { (counts.blocks ≤ 1024) × (6 * counts.blocks ≤ length blocks.now) }
    ensures { result ≡ blocks_verdict counts 0 counts.blocks blocks.now }
{
    let mut above = 0;
    for words in blocks.chunks_exact(6).take(counts.blocks) {
        let block = Block::at(words);
        limits::block::test(counts, above, block)?;
        above = block.arrival;
    }
    Ok(())
}

// The verdict of a call: the refusal that applies first, or none.
// The parameters are the call's own arguments, which C hands over one by one.
#[tactic(auto, unfolding(rules::specs::Calls::plan_verdict, rules::specs::Calls::and_then, load::specs::Refusals::given))]
pub fn test(
    counts: Counts,
    limit: u64,
    blocks: &[u32],
    flow_records: usize,
    row_words: usize,
) -> Result<(), Refusal>
    ensures { result ≡ plan_verdict counts limit blocks.now flow_records row_words }
{
    limits::counts::test(counts)?;
    if short(counts, limit, blocks.len(), flow_records, row_words) {
        return Err(Refusal::ShortTable);
    }
    test_blocks(counts, blocks)
}
