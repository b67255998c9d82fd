// The parent of each span of a trace, found through a keyed list of the span numbers.
ghost use Rattle.std.specs.Prelude.{◌≡◌, ℕ, ◌≤◌, length, IfOk, OnErr, OnOk, nat_eq};
ghost use Rattle.keyed.specs.Keyed.{value_of};
ghost use Rattle.keyed.specs.Used.{used};
ghost use Rattle.listing.specs.Parents.{first_with, Parents, Found, Few};

use crate::row::SpanRow;
use keyed::list::{Entry, KeyedList, Shortage};
use keyed::sameness::Equality;
use std::alloc::{AllocError, Global};

// Puts the place of each span under its number, from the last span to the first: so the first span of a number stays.
fn index_spans(spans: &[SpanRow], list: &mut KeyedList<'_, u64, usize>)
    requires empty { list.old.len ≡ 0 }
    requires room { length spans.now ≤ length list.old.entries.now }
    ensures { (id : ℕ) → value_of nat_eq id (used list.new) ≡ first_with id spans.now }
{
    for (i, span) in spans.iter().enumerate().rev() {
        let _ = list.put(span.span_id, i, &Equality);
    }
}

// Finds the place of each span's parent: the first span of the trace whose number is the span's parent number.
// It needs an entry of memory and a place for the answer for each span, and refuses exactly where there are fewer; then all memory is as it was.
pub fn find_parents(
    spans: &[SpanRow],
    memory: &mut [Entry<u64, usize>],
    parents: &mut [Option<usize>],
) -> Result<(), Shortage>
    ensures found { OnOk result (Found spans.now (length memory.old) parents.old parents.new) }
    ensures refused { OnErr result (Few spans.now (length memory.old) parents.old parents.new) }
    ensures untouched { OnErr result (memory.new ≡ memory.old) }
{
    if memory.len() < spans.len() || parents.len() < spans.len() {
        return Err(Shortage);
    }
    let mut list = KeyedList::new(memory);
    index_spans(spans, &mut list);
    // By index: `parents.iter_mut().zip(spans)` was tried, and a proof then knows nothing of the parents after the loop.
    for (i, span) in spans.iter().enumerate() {
        parents[i] = list.get(span.parent_id, &Equality);
    }
    Ok(())
}

// The same in memory that is allocated for it.
pub fn list_parents(heap: Global, spans: &[SpanRow]) -> Result<Vec<Option<usize>>, AllocError>
    ensures { IfOk result (λ v. Parents spans.now v.items) }
{
    let mut memory = vec![in heap; Entry::default(); spans.len()]?;
    let mut parents = vec![in heap; None; spans.len()]?;
    let _ = find_parents(spans, memory.as_mut_slice(), parents.as_mut_slice());
    Ok(parents)
}
