// The flows' queues: each flow's blocks that aren't started, in the order of the table. They are links through the blocks, made in
// one pass over the table, so no block is ever searched for.
#![tactic(auto)]

ghost use Rattle.std.specs.Prelude.{◌≡◌, ◌<◌, replicate};
ghost use Rattle.rules.specs.Load.{load_of};
ghost use Rattle.queues.specs.Queues.{advanced, Follows, most, none, oldest_in, unlinked};

use accept::accepted::Load;

// The place past all blocks stands for none, so one comparison with how many have arrived tells whether a block waits.
pub const NONE: u32 = 1024;

// For each flow the place of its oldest block, and for each block the place of the next one of its flow. Any words are such queues.
#[derive(Clone, Copy, Debug, PartialEq, Eq)]
pub struct Queues {
    pub oldest: [u32; 64],
    pub next: [u32; 1024],
}

impl Queues {
    // No block is linked. For a caller that asks for a flow's oldest block before a load is linked.
    #[tactic(auto, unfolding(crate::specs::Queues::unlinked))]
    pub fn new() -> Queues
        ensures { result ≡ unlinked }
    {
        Queues {
            oldest: [NONE; 64],
            next: [NONE; 1024],
        }
    }

    // Links all blocks, from the last to the first: what was the oldest block of a flow comes next after the one before it. Whatever
    // was linked before is forgotten, where it lies: queues that were made for each call would be copied to their place.
    pub fn link(&mut self, load: &Load<'_>)
        ensures { Follows (load_of load.now.counts load.now.blocks.now) (replicate most 0) self.new }
    {
        self.oldest = [NONE; 64];
        // By its place, which is what is linked.
        for place in (0..load.counts.blocks).rev() {
            let flow = load.block(place).flow as usize;
            self.next[place] = self.oldest[flow];
            self.oldest[flow] = place as u32;
        }
    }

    // The oldest block of a flow that isn't started.
    // It is a place and no `Option`: 1024 stands for none, so a caller's one comparison with how many have arrived does for both.
    pub fn oldest(&self, flow: usize) -> usize
        requires { flow < most }
        ensures { result ≡ oldest_in self.now flow }
    {
        self.oldest[flow] as usize
    }

    // The oldest block of a flow starts, and the one that it is linked to is the oldest then.
    pub fn start(&mut self, flow: usize, block: usize)
        requires { (flow < most) × (block < none) }
        ensures { self.new ≡ advanced self.old flow block }
    {
        self.oldest[flow] = self.next[block];
    }
}
