// The dominant time and stage of a block.
#![tactic(auto)]

ghost use Rattle.std.specs.Prelude.{cond, ◌≡◌, max, leb};
ghost use Rattle.dominant.specs.Dominant.{dominant_time, dominant_stage};

use load::block::Block;

// A time, and the stage that has it.
#[derive(Clone, Copy, Debug, PartialEq, Eq)]
pub struct Peak {
    pub time: u32,
    pub stage: u32,
}

impl Peak {
    // The greater of this peak and a later stage's time; of equals the later stage's.
    // By hand for the promise that the library built answers what is proved: LLVM built `max` over a derived order wrongly in a loop.
    fn or_later(self, time: u32, stage: u32) -> Peak
        ensures { (result.time ≡ max self.time time) × (result.stage ≡ cond (leb self.time time) stage self.stage) }
    {
        if self.time <= time {
            Peak { time, stage }
        } else {
            self
        }
    }
}

// The largest stage time, and the highest numbered stage that has it. Both come of one pass over the times.
pub fn highest(block: Block) -> Peak
    ensures { (result.time ≡ dominant_time block) × (result.stage ≡ dominant_stage block) }
{
    let first = Peak {
        time: block.time1,
        stage: 1,
    };
    first
        .or_later(block.time2, 2)
        .or_later(block.time3, 3)
        .or_later(block.time4, 4)
}
