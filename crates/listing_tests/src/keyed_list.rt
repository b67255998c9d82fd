// A keyed list of span numbers, and the parents that are found through it.
use keyed::list::{Entry, KeyedList, Shortage};
use keyed::sameness::Equality;
use listing::parents::list_parents;
use listing::row::SpanRow;
use std::test::Fail;

#[test]
fn known_key_keeps_its_place(rt: HostRuntime) {
    let mut memory = [Entry::<u64, u32>::default(); 2];
    let mut list = KeyedList::new(&mut memory);
    assert_eq!(rt; list.put(7, 1, &Equality), Ok(0));
    assert_eq!(rt; list.put(9, 2, &Equality), Ok(1));
    assert_eq!(rt; list.put(7, 3, &Equality), Ok(0));
    assert_eq!(rt; list.len(), 2);
    assert_eq!(rt; list.get(7, &Equality), Some(3));
    assert_eq!(rt; list.find(9, &Equality), Some(1));
    assert_eq!(rt; list.find(8, &Equality), None);
}

#[test]
fn full_list_refuses_new_keys_only(rt: HostRuntime) {
    let mut memory = [Entry::<u64, u32>::default(); 1];
    let mut list = KeyedList::new(&mut memory);
    assert_eq!(rt; list.put(7, 1, &Equality), Ok(0));
    assert_eq!(rt; list.put(8, 2, &Equality), Err(Shortage));
    assert_eq!(rt; Shortage.number(), 6);
    assert_eq!(rt; list.get(8, &Equality), None);
    assert_eq!(rt; list.put(7, 5, &Equality), Ok(0));
    assert_eq!(rt; list.get(7, &Equality), Some(5));
}

fn row(span_id: u64, parent_id: u64) -> SpanRow {
    SpanRow {
        trace_id: 1,
        span_id,
        parent_id,
        ..SpanRow::default()
    }
}

#[test]
fn parents_are_first_spans(rt: HostRuntime) -> Result<(), Fail> {
    let rows = [row(5, 9), row(9, 0), row(9, 9), row(0, 5), row(3, 4)];
    let parents = list_parents(rt.alloc(), &rows)?;
    let expected = [Some(1), Some(3), Some(1), Some(0), None];
    assert_eq!(rt; parents.as_slice(), expected.as_slice());
    Ok(())
}
