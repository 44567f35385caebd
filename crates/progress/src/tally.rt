// What is counted of the rows that are listed.
ghost use Rattle.std.specs.Prelude.{◌≡◌, ◌+◌, ◌^◌, ◌<◌, ltb};
ghost use Rattle.rules.specs.Counts.{one};
ghost use Rattle.progress.specs.Tally.{summary_of};

use arrivals::state::Core;
use rows::stages;
use rules::answer::Summary;

// How many turns were held, and for how many ticks in all. Turns, rounds and the end are read off the planner.
#[derive(Clone, Copy, Debug, Default, PartialEq, Eq)]
pub struct Tally {
    pub held: u64,
    pub ticks: u64,
}

impl Tally {
    // A row with this hold is listed.
    #[tactic(auto, using(crate::proofs::Running::one_bool))]
    pub fn count(&mut self, hold: u64)
        requires held { self.old.held + one (ltb 0 hold) < 2 ^ 64 }
        requires ticks { self.old.ticks + hold < 2 ^ 64 }
        ensures held { self.new.held ≡ self.old.held + one (ltb 0 hold) }
        ensures ticks { self.new.ticks ≡ self.old.ticks + hold }
    {
        self.held += u64::from(0 < hold);
        self.ticks += hold;
    }

    // The counts of so many rows, where the planner is after the last of them.
    pub fn summary(self, stages: usize, blocks: usize, core: Core) -> Summary
        ensures { result ≡ summary_of stages blocks core self }
    {
        Summary {
            blocks: blocks as u64,
            turns: core.turns,
            rounds: core.round.number,
            held: self.held,
            ticks: self.ticks,
            end: stages::last_finish(stages, core.way),
        }
    }
}
