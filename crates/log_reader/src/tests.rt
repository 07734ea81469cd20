//! What no clause says: that reading succeeds with ample memory, and worked examples.
ghost use Rattle.std.specs.Prelude.{◌<◌, length};

use crate::{LogFault, read_log};
use query_text::{LedgerTold, Outcome, Query, Reply, Said};
use std::alloc::AllocError;

// Whether these are the replies to the first caller.
fn has_told(outcome: &Outcome, told: &[Reply]) -> bool
    requires { 0 < length outcome.now }
{
    let replies = outcome.replies(0);
    if replies.len() != told.len() {
        return false;
    }
    for i in 0..told.len() {
        if replies[i].reply() != told[i] {
            return false;
        }
    }
    true
}

#[test]
fn a_log_is_read_back(rt: HostRuntime) -> Result<(), AllocError> {
    let log =
        b"querylog 1\ncells 1 rows 1024 callers 1\nmap 1 0 0 put 0 7 5 = new\nmap 2 0 1 get 0 7 = some 5\nmap 3 0 2 del 0 7 = old 5\nmap 4 0 3 get 0 7 = none\nqueries 4\nwrites 2\nreads 2\nrefused 0\njobs 0\nend\n";
    let Ok(read) = read_log(rt.alloc(), log) else {
        return Err(AllocError);
    };
    assert_eq!(rt; read.rows, 1024);
    assert_eq!(rt; read.script.cells(), 1);
    let callers = read.script.callers();
    if callers.count() == 0 || read.outcome.count() == 0 {
        return Err(AllocError);
    }
    let asked = [
        Query::Put {
            cell: 0,
            key: 7,
            value: 5,
        },
        Query::Get { cell: 0, key: 7 },
        Query::Del { cell: 0, key: 7 },
        Query::Get { cell: 0, key: 7 },
    ];
    assert_eq!(rt; callers.queries(0), asked.as_slice());
    let told = [
        Reply::Placed {
            place: 1,
            said: Said::New,
        },
        Reply::Placed {
            place: 2,
            said: Said::Found(5),
        },
        Reply::Placed {
            place: 3,
            said: Said::Old(5),
        },
        Reply::Placed {
            place: 4,
            said: Said::Absent,
        },
    ];
    assert!(rt; has_told(&read.outcome, &told));
    Ok(())
}

#[test]
fn a_log_without_its_end_is_none(rt: HostRuntime) {
    let log =
        b"querylog 1\ncells 1 rows 1024 callers 1\nmap 1 0 0 put 0 7 5 = new\nmap 2 0 1 get 0 7 = some 5\nmap 3 0 2 del 0 7 = old 5\nmap 4 0 3 get 0 7 = none\nqueries 4\nwrites 2\nreads 2\nrefused 0\njobs 0\n";
    assert_eq!(rt; read_log(rt.alloc(), log).err(), Some(LogFault::NotALog));
}

#[test]
fn refusals_and_jobs_are_read_back(rt: HostRuntime) -> Result<(), AllocError> {
    let log =
        b"querylog 1\ncells 1 rows 16 callers 1\nref 0 0 getby 0 7 5 = late 9\njob 0 0 1 give 7 3 = now 3\njob 1 0 2 audit = sum 18446744073709551619\nqueries 3\nwrites 0\nreads 0\nrefused 1\njobs 2\nend\n";
    let Ok(read) = read_log(rt.alloc(), log) else {
        return Err(AllocError);
    };
    if read.outcome.count() == 0 {
        return Err(AllocError);
    }
    let told = [
        Reply::Late { now: 9 },
        Reply::Job {
            at: 0,
            result: Ok(LedgerTold::Now(3)),
        },
        Reply::Job {
            at: 1,
            result: Ok(LedgerTold::Sum(18_446_744_073_709_551_619)),
        },
    ];
    assert!(rt; has_told(&read.outcome, &told));
    Ok(())
}
