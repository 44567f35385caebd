// Load files of version 1: the soundness call, the reader and the name call. `specs/Layout.antt` says what the bytes mean
// and in which order a file is refused; the three contracts go by that one definition.
#![tactic(auto)]

ghost use Rattle.std.specs.Prelude.{◌≡◌};
ghost use Rattle.loadfile.specs.Calls.{Reads, Shows, soundness};

use body::{table, walk};
use load::counts::Counts;
use load::refusal::Refusal;
use records::standing;

// The soundness call.
#[tactic(auto, using(crate::proofs::Body::sound_laws), unfolding(crate::specs::Calls::soundness, records::specs::Answers::verdict_of))]
pub fn sound(file: &[u8]) -> Result<(), Refusal>
    ensures { result ≡ soundness file.now }
{
    header::test(file)?;
    walk::body(file, header::counts(file))?;
    Ok(())
}

// The reader: tests everything, and only then writes the block table.
#[tactic(auto, using(crate::proofs::Files::read_laws))]
pub fn read(file: &[u8], table: &mut [u32]) -> Result<Counts, Refusal>
    ensures { Reads file.now table.old result table.new }
{
    header::test(file)?;
    let counts = header::counts(file);
    if table.len() < 6 * counts.blocks {
        return Err(Refusal::ShortTable);
    }
    let from = walk::body(file, counts)?;
    table::fill(file, counts, from, table);
    Ok(counts)
}

// The name call: the part of the file or of the standing list that is shown for a flow.
#[tactic(auto, using(crate::proofs::Shown::sound_long))]
pub fn name<'a>(file: &'a [u8], standing: &'a [u8], flow: usize) -> &'a [u8]
    ensures { Shows file.entry standing.entry flow result }
{
    if sound(file).is_err() || header::counts(file).flows <= flow {
        return &standing[..0];
    }
    let own = walk::own_name(file, flow);
    if own.is_empty() {
        standing::entry(standing, flow)
    } else {
        own
    }
}
