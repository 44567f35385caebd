// A block's way through the stages.

// A run at one stage.
#[derive(Clone, Copy, Debug, Default, PartialEq, Eq)]
pub struct Span {
    pub start: u64,
    pub finish: u64,
}

// The runs of a block at the four stages; start and finish are 0 at those that the load lacks. They are four
// fields and no array, since the definition of the plan names the four.
#[derive(Clone, Copy, Debug, Default, PartialEq, Eq)]
pub struct Way {
    pub one: Span,
    pub two: Span,
    pub three: Span,
    pub four: Span,
}
