// The tests of a block.
ghost use Rattle.std.specs.Prelude.{◌≡◌, ℕ, ltb};
ghost use Rattle.limits.specs.Tests.{is_all_zero, block_verdict, is_over_limit, is_time_over};

use load::block::Block;
use load::counts::Counts;
use load::refusal::Refusal;

// The most that a time at a stage may be: its limit, or 0 where the load lacks the stage.
#[tactic(auto, unfolding(crate::specs::Tests::is_time_over))]
fn most(stages: usize, stage: usize) -> u32
    ensures { (time : ℕ) → ltb result time ≡ is_time_over stages stage time }
{
    if stages < stage { 0 } else { 10_000_000 }
}

// Whether a time at a stage is above its limit, or above 0 where the load lacks the stage.
fn time_over(stages: usize, stage: usize, time: u32) -> bool
    ensures { result ≡ is_time_over stages stage time }
{
    most(stages, stage) < time
}

#[tactic(auto, unfolding(crate::specs::Tests::is_over_limit))]
fn over_limit(stages: usize, block: Block) -> bool
    ensures { result ≡ is_over_limit stages block }
{
    1_000_000_000 < block.arrival
        || time_over(stages, 1, block.time1)
        || time_over(stages, 2, block.time2)
        || time_over(stages, 3, block.time3)
        || time_over(stages, 4, block.time4)
}

#[tactic(auto, unfolding(crate::specs::Tests::is_all_zero))]
fn all_zero(block: Block) -> bool
    ensures { result ≡ is_all_zero block }
{
    block.time1 == 0 && block.time2 == 0 && block.time3 == 0 && block.time4 == 0
}

// Tests 8 to 11 of a block below one that arrives at `above` (0 for the first).
#[tactic(auto, unfolding(crate::specs::Tests::block_verdict, load::specs::Refusals::given))]
pub fn test(counts: Counts, above: u32, block: Block) -> Result<(), Refusal>
    ensures { result ≡ block_verdict counts above block }
{
    if counts.flows <= block.flow as usize {
        return Err(Refusal::NoSuchFlow);
    }
    if over_limit(counts.stages, block) {
        return Err(Refusal::OverLimit);
    }
    if all_zero(block) {
        return Err(Refusal::AllZero);
    }
    if block.arrival < above {
        return Err(Refusal::OutOfOrder);
    }
    Ok(())
}
