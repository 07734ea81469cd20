//! What no clause says: that a soak is made with ample memory, and worked examples.
use crate::make_soak;
use query_text::Query;
use std::alloc::AllocError;

#[test]
fn a_soak_is_made(rt: HostRuntime) -> Result<(), AllocError> {
    let Ok(script) = make_soak(rt.alloc(), 17) else {
        return Err(AllocError);
    };
    assert_eq!(rt; script.cells(), 8);
    let callers = script.callers();
    if callers.count() != 4 {
        return Err(AllocError);
    }
    let first = [
        Query::Get { cell: 0, key: 0 },
        Query::Add {
            cell: 0,
            key: 5,
            delta: 5,
        },
        Query::Len { cell: 0 },
        Query::Give { key: 15, n: 1 },
        Query::Get { cell: 1, key: 4 },
    ];
    assert_eq!(rt; callers.queries(0), first.as_slice());
    assert_eq!(rt; callers.queries(3).len(), 4);
    Ok(())
}
