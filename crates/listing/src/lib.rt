// What is printed of a load file, made whole before a byte of it is written. `specs/Listing.antt` has its lines.
#![tactic(auto)]

ghost use Rattle.std.specs.Prelude.{◌≡◌, IfErr, OnOk};
ghost use Rattle.line.specs.Pages.{Put};
ghost use Rattle.lines.specs.Lines.{refused_line};
ghost use Rattle.listing.specs.Listing.{Makes, listing};

use line::Page;
use load::refusal::Refusal;
use rules::record::FlowRecord;

// Puts the lines of the file's plan, or says why the file is refused. The tables have room for 1,024 blocks and 512 rows; the plan
// call is asked for the first 512 blocks, and lent just the words of the blocks that were read. Of the flow records nothing is printed.
fn plan(file: &[u8], page: &mut Page) -> Result<(), Refusal>
    ensures lines { OnOk result (Put page.old (listing file.now) page.new) }
    ensures refused { IfErr result
        (λ why. (listing file.now ≡ refused_line why) × (page.new ≡ page.old)) }
{
    let mut blocks = [0u32; 6_144];
    let mut flows = [FlowRecord::default(); 64];
    let mut rows = [0u64; 7_680];
    let counts = loadfile::read(file, &mut blocks)?;
    let words = 6 * counts.blocks;
    let summary = mr3::plan(counts, 512, &blocks[..words], &mut flows, &mut rows)?;
    lines::counts(page, summary);
    lines::rows(page, file, counts.stages, summary.blocks, &rows);
    Ok(())
}

// Makes the listing on a page, which has nothing else then. The room behind the listing stays as it was.
pub fn make(file: &[u8], page: &mut Page)
    ensures { Makes file.now page.old page.new }
{
    page.clear();
    if let Err(why) = plan(file, page) {
        lines::refused(page, why);
    }
}
