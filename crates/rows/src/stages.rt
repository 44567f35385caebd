// A block's way through the stages.
ghost use Rattle.std.specs.Prelude.{◌≡◌, ◌+◌, ◌≤◌, max};
ghost use Rattle.rules.specs.Stages.{last_run, way_of};
ghost use Rattle.rules.specs.Within.{WayWithin};

use load::block::Block;
use rules::stages::{Span, Way};

// The later of two ticks.
// It is a function of its own since docs/PROMISES.md promises its theorem by name, `later_once`.
pub fn later(a: u64, b: u64) -> u64
    ensures { result ≡ max a b }
{
    a.max(b)
}

// The run at a later stage: after its own finish at the stage before and the previous block's finish at this one.
fn run_after(own: u64, before: u64, time: u32) -> Span
    requires { (own ≤ 4_000_000_000_000) × (before ≤ 4_000_000_000_000) }
    ensures { (result.start ≡ max own before) × (result.finish ≡ max own before + time) }
{
    let start = later(own, before);
    Span {
        start,
        finish: start + u64::from(time),
    }
}

// The way of a block that starts at a tick, after a block whose way was `before`. It ends at the load's last stage: at those that the
// load lacks there is no run.
// The runs are four fields and no array, since the definition of the plan names the four.
#[tactic(auto, unfolding(rules::specs::Stages::way_of, rules::specs::Stages::later_run))]
pub fn pass(stages: usize, before: Way, start: u64, block: Block) -> Way
    requires { (start ≤ 1_000_000_000_000) × (WayWithin before 1_000_000_000_000) }
    ensures { result ≡ way_of stages before start block }
{
    let one = Span {
        start,
        finish: start + u64::from(block.time1),
    };
    let mut way = Way {
        one,
        ..Way::default()
    };
    if stages < 2 {
        return way;
    }
    way.two = run_after(way.one.finish, before.two.finish, block.time2);
    if stages < 3 {
        return way;
    }
    way.three = run_after(way.two.finish, before.three.finish, block.time3);
    if stages < 4 {
        return way;
    }
    way.four = run_after(way.three.finish, before.four.finish, block.time4);
    way
}

// The run at the last stage.
#[tactic(auto, unfolding(rules::specs::Stages::last_run, rules::specs::Stages::run_at))]
fn last(stages: usize, way: Way) -> Span
    ensures { result ≡ last_run stages way }
{
    match stages {
        1 => way.one,
        2 => way.two,
        3 => way.three,
        _ => way.four,
    }
}

// The tick at which the run at the last stage starts.
// It is a function of its own since docs/PROMISES.md promises its theorem by name, `last_start_once`.
pub fn last_start(stages: usize, way: Way) -> u64
    ensures { result ≡ (last_run stages way).start }
{
    last(stages, way).start
}

// The tick at which the run at the last stage ends.
// It is a function of its own since docs/PROMISES.md promises its theorem by name, `last_finish_once`.
pub fn last_finish(stages: usize, way: Way) -> u64
    ensures { result ≡ (last_run stages way).finish }
{
    last(stages, way).finish
}
