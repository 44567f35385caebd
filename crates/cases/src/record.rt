// The flow records that a plan's case lends: what stands in them before the call, and their words after it.
use rules::record::FlowRecord;

// Room for as many records as a case can lend.
pub type Flows = [FlowRecord; 128];

// Word i of the records, three for each, is 5,000,000,000 + i, so that a line shows which words the call wrote.
// They are marked where they lie: an array of the words, made into records one by one, would be zeroed and copied again and again.
pub fn marked() -> Flows {
    let mut flows = [FlowRecord::default(); 128];
    let mut mark: u64 = 5_000_000_000;
    for flow in &mut flows {
        *flow = FlowRecord {
            blocks: mark,
            turns: mark.wrapping_add(1),
            time: mark.wrapping_add(2),
        };
        mark = mark.wrapping_add(3);
    }
    flows
}

// Writes three words for each record, as far as there is room for them.
pub fn write(words: &mut [[u64; 3]], flows: &[FlowRecord]) {
    for (words, flow) in words.iter_mut().zip(flows) {
        *words = [flow.blocks, flow.turns, flow.time];
    }
}
