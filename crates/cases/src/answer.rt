// How a call's answer is shown, and what a plan's case shows beside it.
ghost use Rattle.std.specs.Prelude.{◌≤◌, length};

use crate::{record, table};
use line::Page;
use load::refusal::Refusal;
use rules::record::FlowRecord;
use words::InWords;

// The call's word, the answer's number, and what the answer counts: six words at most.
pub fn put<const N: usize, T: InWords<N>>(out: &mut Page, call: &[u8], answer: Result<T, Refusal>)
    requires { N ≤ 6 }
{
    let mut counts = [0; N];
    let number = words::put(answer, &mut counts);
    out.text(call);
    out.spaced(number);
    for &count in &counts {
        out.spaced(count);
    }
}

// The records lent and the rows.
pub fn put_tables(out: &mut Page, flows: &[FlowRecord], rows: &[u64])
    requires { length flows.now ≤ 128 }
{
    let mut words = [[0; 3]; 128];
    record::write(&mut words, flows);
    out.text(b" |");
    table::put(out, words[..flows.len()].as_flattened());
    out.text(b" |");
    table::put(out, rows);
}
