// Whole payloads, and each refusal of a listing.
use spanlist::list::list_payload;
use std::alloc::Global;
use std::iter;
use std::test::Fail;

// One trace of one span with `span_id` 7 and `duration` -1.
const NOTE: &[u8] = b"\x91\x91\x82\xA7span_id\x07\xA8duration\xFF";

// Nothing where there is a listing, or the number of the refusal.
fn listed(heap: Global, payload: &[u8]) -> Result<(), Option<u8>> {
    list_payload(heap, payload)
        .map(|_| ())
        .map_err(|refusal| refusal.number())
}

#[test]
fn lists_the_note(rt: HostRuntime) -> Result<(), Fail> {
    let heap = rt.alloc();
    let lines = list_payload(heap, NOTE).map_err(|_| Fail::new("refused"))?;
    assert_eq!(rt; lines.len(), 1);
    for line in lines.iter() {
        let text = format!(in heap; "{line}")?;
        assert_eq!(rt; text.as_str(), "0,0,0,7,0,0,-1,0,-1");
    }
    Ok(())
}

#[test]
fn refuses_damaged_payloads(rt: HostRuntime) {
    let heap = rt.alloc();
    let refused: [(&[u8], u8); 6] = [
        (b"\x91\x91\x81\xA7span_id\xFF", 1),
        (b"\x91\x91\x81\xA7span_id\xA0", 2),
        (b"", 3),
        (b"\x91\x91\x81\xA2x", 4),
        (b"\x91\x91\x81\xA3\xED\xA0\x80", 5),
        (b"\xDD\xFF\xFF\xFF\xFF", 3),
    ];
    for (payload, number) in refused {
        assert_eq!(rt; listed(heap, payload), Err(Some(number)));
    }
}

#[test]
fn cut_notes_are_refused(rt: HostRuntime) {
    // By its ends: the end is what differs from one payload to the next.
    for end in 0..NOTE.len() {
        assert!(rt; listed(rt.alloc(), &NOTE[..end]).is_err());
    }
}

// A payload of so many empty traces, or of one trace of so many empty spans.
fn empty_ones(heap: Global, head: &[u8], count: usize, each: u8) -> Result<Vec<u8>, Fail> {
    let mut payload = Vec::new(heap);
    payload.extend_from_slice(head)?;
    payload.extend(iter::repeat_n(each, count))?;
    Ok(payload)
}

#[test]
fn tables_are_limited(rt: HostRuntime) -> Result<(), Fail> {
    let heap = rt.alloc();
    let payloads: [(&[u8], usize, u8, Result<(), Option<u8>>); 5] = [
        // traces
        (b"\xDC\x00\x40", 64, 0x90, Ok(())),
        (b"\xDC\x00\x41", 65, 0x90, Err(Some(6))),
        // spans
        (b"\x91\xDC\x02\x00", 512, 0x80, Ok(())),
        (b"\x91\xDC\x02\x01", 513, 0x80, Err(Some(6))),
        // a fault behind the limit comes first
        (b"\x91\xDC\x02\x02", 513, 0x80, Err(Some(3))),
    ];
    for (head, count, each, answer) in payloads {
        let payload = empty_ones(heap, head, count, each)?;
        assert_eq!(rt; listed(heap, payload.as_slice()), answer);
    }
    Ok(())
}

#[test]
fn input_is_limited(rt: HostRuntime) -> Result<(), Fail> {
    let heap = rt.alloc();
    for (count, answer) in [(65_535, Ok(())), (65_536, Err(Some(8)))] {
        let long = empty_ones(heap, b"\x90", count, 0x00)?;
        assert_eq!(rt; listed(heap, long.as_slice()), answer);
    }
    Ok(())
}
