// An answer as document 01's number, with what it counts written into lent words. A refusal counts nothing.
#![tactic(auto)]

ghost use Rattle.std.specs.Prelude.{◌≡◌, ℕ, List};
ghost use Rattle.load.specs.Refusals.{number_in};
ghost use Rattle.words.specs.Words.{count_words, summary_words, words_in};

use load::counts::Counts;
use load::refusal::Refusal;
use rules::answer::Summary;

// What an answer counts, in N words.
pub trait InWords<const N: usize>: Copy {
    ghost in_words: { Self → List ℕ };

    fn in_words(self) -> [u64; N]
        ensures { result ≡ in_words self };
}

// The reader's: stages, flows and blocks.
impl InWords<3> for Counts {
    ghost in_words = { count_words };

    fn in_words(self) -> [u64; 3] {
        [self.stages as u64, self.flows as u64, self.blocks as u64]
    }
}

// The plan call's: blocks listed, turns, rounds, turns held, held ticks and the end.
impl InWords<6> for Summary {
    ghost in_words = { summary_words };

    fn in_words(self) -> [u64; 6] {
        [
            self.blocks,
            self.turns,
            self.rounds,
            self.held,
            self.ticks,
            self.end,
        ]
    }
}

// Document 01's number for an answer. What the answer counts is written into the words: zeros after a refusal.
pub fn put<const N: usize, T: InWords<N>>(answer: Result<T, Refusal>, words: &mut [u64; N]) -> u64
    ensures number { result ≡ number_in answer }
    ensures counts { words.new ≡ words_in T.in_words N answer }
{
    match answer {
        Ok(counted) => {
            *words = counted.in_words();
            0
        }
        Err(why) => {
            words.fill(0);
            why.number()
        }
    }
}
