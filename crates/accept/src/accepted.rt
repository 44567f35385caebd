// The load that a plan call works on, with the proof that the call accepts it: who has such a load need not test it again.
ghost use Rattle.std.specs.Prelude.{◌≡◌, ◌<◌, Err, IfErr, IfOk, Ok, OnOk};
ghost use Rattle.rules.specs.Calls.{plan_verdict};
ghost use Rattle.rules.specs.Load.{block_at, load_of};
ghost use Rattle.rules.specs.Within.{Accepted};

use load::block::Block;
use load::counts::Counts;
use load::refusal::Refusal;

// The counts and the block table of a load that the plan call accepts.
// The table stays flat words, as C lends it.
#[derive(Clone, Copy)]
pub struct Load<'a> {
    pub counts: Counts,
    pub blocks: &'a [u32],
    pub ghost accepted: { Accepted (load_of counts blocks.now) },
}

impl<'a> Load<'a> {
    // The block at a place of the table.
    #[tactic(auto, unfolding(rules::specs::Load::block_at))]
    pub fn block(&self, place: usize) -> Block
        requires { place < self.now.counts.blocks }
        ensures { result ≡ block_at self.now.blocks.now place }
    {
        Block::at(&self.blocks[6 * place..])
    }
}

// The load of a call, where every test is passed, and else the refusal that applies first.
// The parameters are the call's own arguments, which C hands over one by one.
#[tactic(auto, using(rules::proofs::Accepting::accepted))]
pub fn accept<'a>(
    counts: Counts,
    limit: u64,
    blocks: &'a [u32],
    flow_records: usize,
    row_words: usize,
) -> Result<Load<'a>, Refusal>
    ensures accepted { OnOk result (plan_verdict counts limit blocks.now flow_records row_words ≡ Ok tt) }
    ensures lent { IfOk result (λ load. (load.counts ≡ counts) × (load.blocks.now ≡ blocks.now)) }
    ensures refused { IfErr result (λ why. plan_verdict counts limit blocks.now flow_records row_words ≡ Err why) }
{
    crate::test(counts, limit, blocks, flow_records, row_words)?;
    Ok(Load { counts, blocks })
}
