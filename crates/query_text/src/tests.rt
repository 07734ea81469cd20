//! What no clause says: that parsing succeeds with ample memory, and worked examples.
use crate::{Cause, MOST_CALLERS, ParseFault, Totals, parse_script, write_soak};
use ql_base::MemSink;
use std::alloc::{AllocError, Global};

#[test]
fn a_script_is_read(rt: HostRuntime) -> Result<(), AllocError> {
    let text = b"cells 2\ncaller\nput 0 7 5\nmove 0 1 7 2";
    let Ok(script) = parse_script(rt.alloc(), text) else {
        return Err(AllocError);
    };
    assert_eq!(rt; script.cells(), 2);
    assert_eq!(rt; script.callers().count(), 1);
    Ok(())
}

#[test]
fn the_first_bad_line_is_blamed(rt: HostRuntime) {
    let fault = parse_script(rt.alloc(), b"cells 1\ncaller\nget 0 01\nfrob\n").err();
    let expected = ParseFault::Refused {
        line: 3,
        cause: Cause::BadNumber,
    };
    assert_eq!(rt; fault, Some(expected));
}

// The text of one cell and so many callers that ask nothing.
fn idle_callers(alloc: Global, callers: u64) -> Result<Vec<u8>, AllocError> {
    let mut text = Vec::new(alloc);
    text.extend_from_slice(b"cells 1")?;
    for _ in 0..callers {
        text.extend_from_slice(b"\ncaller")?;
    }
    Ok(text)
}

#[test]
fn the_last_caller_that_may_be_is_taken(rt: HostRuntime) -> Result<(), AllocError> {
    let Ok(script) = parse_script(rt.alloc(), &idle_callers(rt.alloc(), MOST_CALLERS)?) else {
        return Err(AllocError);
    };
    assert_eq!(rt; script.callers().count(), MOST_CALLERS);
    Ok(())
}

#[test]
fn one_caller_more_is_refused(rt: HostRuntime) -> Result<(), AllocError> {
    let fault = parse_script(rt.alloc(), &idle_callers(rt.alloc(), MOST_CALLERS + 1)?).err();
    let expected = ParseFault::Refused {
        line: MOST_CALLERS + 2,
        cause: Cause::TooManyCallers,
    };
    assert_eq!(rt; fault, Some(expected));
    Ok(())
}

#[test]
fn a_soak_is_told(rt: HostRuntime) -> Result<(), AllocError> {
    let totals = Totals {
        queries: 16,
        writes: 4,
        reads: 8,
        refused: 0,
        jobs: 4,
        sum: 18_446_744_073_709_551_619,
        ledger: 5,
    };
    let Ok(mut sink) = MemSink::with_room(rt.alloc(), 200, Vec::new(rt.alloc())) else {
        return Err(AllocError);
    };
    assert_eq!(rt; write_soak(&mut sink, 16, &totals), Ok(()));
    let text =
        b"soak 16\nqueries 16\nwrites 4\nreads 8\nrefused 0\njobs 4\nsum 18446744073709551619\nledger 5\nend\n";
    assert_eq!(rt; sink.written(), text.as_slice());
    Ok(())
}
