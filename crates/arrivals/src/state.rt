// The planner between two starts: idle, or it holds a flow, or it is in a flow's turn with a balance; and the tables beside it.
ghost use Rattle.arrivals.specs.State.{Empty};

use queues::Queues;
use rules::mode::Mode;
use rules::round::Round;
use rules::stages::Way;
use waiting::Waiting;

// What goes on whatever the mode: the clock, how many blocks of the table have arrived, the round, the turns begun, and the way
// of the block started last.
#[derive(Clone, Copy, Debug, Default, PartialEq, Eq)]
pub struct Core {
    pub clock: u64,
    pub next: usize,
    pub round: Round,
    pub turns: u64,
    pub way: Way,
}

// The planner has no invariant: what a function asks of it holds where that is called, and would ask more of every other. A load is
// handed on beside it, since a load stays as it is.
#[derive(Clone, Copy, Debug, PartialEq, Eq)]
pub struct Planner {
    pub mode: Mode,
    pub core: Core,
}

// What the planner keeps of the flows: the list of those that wait, their queues, and for each its gate, the tick before which its
// next turn does not start. They stand beside mode and core, and not in one struct with them: in a struct with arrays that are
// indexed LLVM keeps all in memory, and a plan takes 1.2 times as long.
#[derive(Clone, Copy, Debug, PartialEq, Eq)]
pub struct Tables {
    pub list: Waiting,
    pub queues: Queues,
    pub gate: [u64; 64],
}

impl Tables {
    // Before the first arrival: nobody waits, and no flow has had a turn. The queues are any, since `link` makes them a load's.
    pub fn new() -> Tables
        ensures { Empty result }
    {
        Tables {
            list: Waiting::new(),
            queues: Queues {
                oldest: [0; 64],
                next: [0; 1024],
            },
            gate: [0; 64],
        }
    }
}
