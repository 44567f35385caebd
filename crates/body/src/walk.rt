// The records one after the other.
// Each function asks only what it needs, `own_name` no stages and `table::fill` no header, so no one type serves all.
ghost use Rattle.std.specs.Prelude.{◌≡◌, ◌≤◌, length};
ghost use Rattle.records.specs.Records.{block_records, flow_records};
ghost use Rattle.records.specs.Answers.{walk_of};
ghost use Rattle.records.specs.Parts.{IsPart};
ghost use Rattle.body.specs.Body.{body_walk, own_name_of};

use load::counts::Counts;
use load::refusal::Refusal;
use records::record;

// The byte after so many flow records, which start at byte 10.
#[tactic(auto, using(crate::proofs::Walks::flows_laws))]
fn flows(file: &[u8], count: usize) -> Result<usize, Refusal>
    requires { 10 ≤ length file.now }
    ensures { result ≡ walk_of (flow_records file.now count 10) }
{
    let mut at = 10;
    for _ in 0..count {
        at += record::flow(&file[at..])?;
    }
    Ok(at)
}

// The byte after the block records, which start at `from`.
#[tactic(auto, using(crate::proofs::Walks::blocks_end), unfolding(records::specs::Answers::walk_of))]
fn blocks(file: &[u8], counts: Counts, from: usize) -> Result<usize, Refusal>
    requires { (counts.stages ≤ 4) × (from ≤ length file.now) }
    ensures { result ≡ walk_of (block_records file.now counts 0 counts.blocks from) }
{
    let size = 7 + 4 * counts.stages;
    let mut at = from;
    let mut above = 0;
    for _ in 0..counts.blocks {
        above = record::block(&file[at..], counts, above)?.arrival;
        at += size;
    }
    Ok(at)
}

// Where the block records start in a file with a good header, if every record is sound and nothing follows.
#[tactic(auto, using(crate::proofs::Walks::flows_within), unfolding(crate::specs::Body::body_walk, crate::specs::Body::body_blocks, crate::specs::Body::body_end, records::specs::Records::stop_if))]
pub fn body(file: &[u8], counts: Counts) -> Result<usize, Refusal>
    requires { (counts.stages ≤ 4) × (10 ≤ length file.now) }
    ensures { result ≡ body_walk counts file.now }
{
    let from = flows(file, counts.flows)?;
    let end = blocks(file, counts, from)?;
    if end == file.len() {
        Ok(from)
    } else {
        Err(Refusal::Record)
    }
}

// The name in a flow's record of a sound file: the part of the file after the record's length byte.
#[tactic(auto, using(crate::proofs::Walks::own_name_laws), unfolding(crate::specs::Body::own_name_of, crate::specs::Body::name_after, crate::specs::Body::name_at, records::specs::Parts::bytes_in, records::specs::Parts::place_in))]
pub fn own_name(file: &[u8], flow: usize) -> &[u8]
    requires { 10 ≤ length file.now }
    ensures { IsPart file.entry (own_name_of file.now flow) result }
{
    let Ok(at) = flows(file, flow) else {
        return &file[..0];
    };
    let rest = &file[at..];
    let Ok(next) = record::measure(rest, 0, 31) else {
        return &file[..0];
    };
    &rest[1..next]
}
