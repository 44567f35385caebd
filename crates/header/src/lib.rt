// The header of a load file: the ten bytes before the records.
#![tactic(auto)]

ghost use Rattle.std.specs.Prelude.{◌≡◌, ◌≤◌, length};
ghost use Rattle.header.specs.Header.{counts_in, header_verdict};

use load::counts::Counts;
use load::refusal::Refusal;
use records::bytes::{four, two};

// The counts that a file of at least ten bytes gives, good or not. The caller knows that they are there, which `From` could not ask,
// and a type of files with a header would ask more of those who read records alone.
#[tactic(auto, unfolding(crate::specs::Header::counts_in))]
pub fn counts(file: &[u8]) -> Counts
    requires { 10 ≤ length file.now }
    ensures { result ≡ counts_in file.now }
{
    Counts {
        stages: usize::from(file[5]),
        flows: usize::from(two(file, 6)),
        blocks: usize::from(two(file, 8)),
    }
}

// Tests 1, 2, 3 and 4.
#[tactic(auto, unfolding(crate::specs::Header::header_verdict, load::specs::Refusals::given))]
pub fn test(file: &[u8]) -> Result<(), Refusal>
    ensures { result ≡ header_verdict file.now }
{
    if file.first() != Some(&1) {
        return Err(Refusal::Version);
    }
    if file.len() < 10 || four(file, 1) as usize != file.len() - 5 {
        return Err(Refusal::FileLength);
    }
    limits::counts::test(counts(file))
}
