// A block: six words in a block table.
ghost use Rattle.std.specs.Prelude.{◌≡◌, ◌++◌, ◌≤◌, length, drop};
ghost use Rattle.load.specs.Blocks.{block_of, words_of};

// Times of stages that the load lacks are 0. The definitions of the plan name the four times one by one, so they are no array.
#[derive(Clone, Copy, Debug, PartialEq, Eq)]
pub struct Block {
    pub flow: u32,
    pub arrival: u32,
    pub time1: u32,
    pub time2: u32,
    pub time3: u32,
    pub time4: u32,
}

impl Block {
    // The block at the start of these words. The caller knows that six are there, and `From` could not ask it.
    #[tactic(auto, unfolding(crate::specs::Blocks::block_of))]
    pub fn at(words: &[u32]) -> Block
        requires { 6 ≤ length words.now }
        ensures { result ≡ block_of words.now }
    {
        Block {
            flow: words[0],
            arrival: words[1],
            time1: words[2],
            time2: words[3],
            time3: words[4],
            time4: words[5],
        }
    }

    // The six words, in a table's order.
    #[tactic(auto, unfolding(crate::specs::Blocks::words_of))]
    pub fn words(self) -> [u32; 6]
        ensures { result ≡ words_of self }
    {
        [
            self.flow,
            self.arrival,
            self.time1,
            self.time2,
            self.time3,
            self.time4,
        ]
    }

    // Writes the block over the first six words. The caller knows that they are there.
    pub fn put(self, words: &mut [u32])
        requires { 6 ≤ length words.old }
        ensures { words.new ≡ words_of self ++ drop 6 words.old }
    {
        words[..6].copy_from_slice(&self.words());
    }
}
