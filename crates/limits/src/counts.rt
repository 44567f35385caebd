// The tests of the counts.
ghost use Rattle.std.specs.Prelude.{◌≡◌};
ghost use Rattle.limits.specs.Tests.{counts_verdict};

use load::counts::Counts;
use load::refusal::Refusal;

// Tests 3 and 4.
#[tactic(auto, unfolding(crate::specs::Tests::counts_verdict, load::specs::Refusals::given))]
pub fn test(counts: Counts) -> Result<(), Refusal>
    ensures { result ≡ counts_verdict counts }
{
    if !(1..=4).contains(&counts.stages) {
        return Err(Refusal::Stages);
    }
    if 64 < counts.flows || 1024 < counts.blocks {
        return Err(Refusal::TooMany);
    }
    Ok(())
}
