// The block table, once the whole file is found sound.
ghost use Rattle.std.specs.Prelude.{Ok, ◌≡◌, ◌++◌, ◌*◌, ◌≤◌, drop, length};
ghost use Rattle.records.specs.Records.{block_records};
ghost use Rattle.records.specs.Answers.{list_of, walk_of};
ghost use Rattle.body.specs.Body.{table_words};

use load::counts::Counts;
use records::record;

// Writes the blocks whose records start at `from`, and leaves the room beyond them. It asks only what it needs: a type of files
// with a header would ask more.
pub fn fill(file: &[u8], counts: Counts, from: usize, table: &mut [u32])
    requires in_range { (counts.stages ≤ 4) × (from ≤ length file.now) × (6 * counts.blocks ≤ length table.old) }
    requires sound { walk_of (block_records file.now counts 0 counts.blocks from) ≡ Ok (length file.now) }
    ensures { table.new
        ≡ table_words (list_of (block_records file.now counts 0 counts.blocks from)) ++ drop (6 * counts.blocks) table.old }
{
    let size = 7 + 4 * counts.stages;
    // The table isn't lent out in chunks of six, since a proof would know the length alone of what a chunk leaves.
    for (place, record) in file[from..].chunks_exact(size).enumerate() {
        record::fields(record, counts.stages).put(&mut table[6 * place..]);
    }
}
