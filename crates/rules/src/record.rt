// A flow's record: blocks listed, turns begun, sum of their dominant times.
#[repr(C)]
#[derive(Clone, Copy, Debug, Default, PartialEq, Eq)]
pub struct FlowRecord {
    pub blocks: u64,
    pub turns: u64,
    pub time: u64,
}
