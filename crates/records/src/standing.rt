// The standing list of names that a caller lends: length byte, name, repeated.
ghost use Rattle.std.specs.Prelude.{◌≡◌, ◌-◌, ◌≤◌, length, IfNone, IfSome};
ghost use Rattle.records.specs.Standing.{entry as Calls·entry};
ghost use Rattle.records.specs.Parts.{IsPart, empty};

use std::ops::Range;

// Where the name of the entry with this number lies, if the list has all its bytes.
#[tactic(auto, using(crate::proofs::Entries::passing), unfolding(crate::specs::Standing::entry))]
fn place(list: &[u8], number: usize) -> Option<Range<usize>>
    ensures some { IfSome result (λ part. Calls·entry list.now number ≡ record { from = part.start; size = part.end - part.start }) }
    ensures within { IfSome result (λ part. (part.start ≤ part.end) × (part.end ≤ length list.now)) }
    ensures none { IfNone result (Calls·entry list.now number ≡ empty) }
{
    let mut at = 0;
    for _ in 0..number {
        at += 1 + usize::from(*list.get(at)?);
    }
    let start = at + 1;
    let end = start + usize::from(*list.get(at)?);
    if list.len() < end {
        return None;
    }
    Some(start..end)
}

// The entry with this number, or the empty part at the list's start where the list ends before the entry's last byte.
pub fn entry(list: &[u8], number: usize) -> &[u8]
    ensures { IsPart list.entry (Calls·entry list.now number) result }
{
    match place(list, number) {
        Some(part) => &list[part],
        None => &list[..0],
    }
}
