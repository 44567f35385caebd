// The plan call in a case of the battery: the tables that are lent to it, and the call.
#![tactic(auto)]

use cases::parameters::Parameters;
use cases::{BadCase, answer, parameters, record, table};
use line::Page;

// Lends just the records and the words that the parameters give. The case is bad where there are fewer.
fn lend(
    out: &mut Page,
    given: Parameters,
    blocks: &[u32],
    rows: &mut [u64],
) -> Result<(), BadCase> {
    let mut flows = record::marked();
    let flows = flows.get_mut(..given.flow_records).ok_or(BadCase)?;
    let rows = rows.get_mut(..given.row_words).ok_or(BadCase)?;
    table::mark(rows, 6_000_000_000);
    let planned = mr3::plan(given.counts, given.limit, blocks, flows, rows);
    answer::put(out, b"plan", planned);
    answer::put_tables(out, flows, rows);
    Ok(())
}

// Runs the case and puts its line. It is bad where the parameters aren't 40 bytes, the block table isn't whole words, or there is no
// room for a table.
pub fn run(
    out: &mut Page,
    given: &[u8],
    blocks: &[u8],
    table: &mut [u32],
    rows: &mut [u64],
) -> Result<(), BadCase> {
    let given = <[u8; 40]>::try_from(given).map_err(|_| BadCase)?;
    if blocks.len() % 4 != 0 {
        return Err(BadCase);
    }
    let table = table.get_mut(..blocks.len() / 4).ok_or(BadCase)?;
    parameters::fill(table, blocks);
    lend(out, Parameters::from(given), table, rows)
}
