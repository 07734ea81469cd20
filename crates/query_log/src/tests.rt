//! What no clause says: that asking succeeds with ample memory. Every reply of every query comes up once, worked out by
//! hand.
ghost use Rattle.std.specs.Prelude.{◌≡◌, length, IsFalse, OnOk};
ghost use Rattle.query_rules.specs.Grammar.{TakesBelow};
ghost use Rattle.query_rules.specs.History.{asks_ledger};
ghost use Rattle.query_rules.specs.Verbs.{arity, query_of};
ghost use Rattle.query_log.specs.Plain.{cell_count};

use crate::{Ledger, LedgerAct, LedgerEntry, LedgerFault, LedgerJob, LedgerOut, PlainMaps};
use combine_job::job::Room;
use combine_job::once::OnceJob;
use combine_job::parcel::Kept;
use combine_job::run::run_kept;
use ql_base::NoMemory;
use query_rules::{Said, Verb};

// Asks the query with these numbers.
fn ask(maps: &mut PlainMaps, verb: Verb, numbers: &[u64]) -> Result<Said, NoMemory>
    requires numbers { length numbers.now ≡ arity verb }
    requires cells { TakesBelow (cell_count maps.old) (query_of verb numbers.now) }
    requires of_maps { IsFalse (asks_ledger (query_of verb numbers.now)) }
    ensures { OnOk result (cell_count maps.new ≡ cell_count maps.old) }
{
    maps.ask(&verb.query(numbers))
}

#[test]
fn a_key_is_put_found_and_taken_out(rt: HostRuntime) -> Result<(), NoMemory> {
    let mut maps = PlainMaps::make(rt.alloc(), 1, 1)?;
    assert_eq!(rt; ask(&mut maps, Verb::Get, &[0, 7])?, Said::Absent);
    assert_eq!(rt; ask(&mut maps, Verb::Put, &[0, 7, 5])?, Said::New);
    assert_eq!(rt; ask(&mut maps, Verb::Put, &[0, 8, 5])?, Said::Full);
    assert_eq!(rt; ask(&mut maps, Verb::Put, &[0, 7, 6])?, Said::Old(5));
    assert_eq!(rt; ask(&mut maps, Verb::Get, &[0, 7])?, Said::Found(6));
    assert_eq!(rt; ask(&mut maps, Verb::Len, &[0])?, Said::Count(1));
    assert_eq!(rt; ask(&mut maps, Verb::Del, &[0, 7])?, Said::Old(6));
    assert_eq!(rt; ask(&mut maps, Verb::Del, &[0, 7])?, Said::Absent);
    Ok(())
}

#[test]
fn tries_and_deadlines_are_the_plain_queries(rt: HostRuntime) -> Result<(), NoMemory> {
    let mut maps = PlainMaps::make(rt.alloc(), 1, 1)?;
    assert_eq!(rt; ask(&mut maps, Verb::TryGet, &[0, 7])?, Said::Absent);
    assert_eq!(rt; ask(&mut maps, Verb::TryPut, &[0, 7, 5])?, Said::New);
    assert_eq!(rt; ask(&mut maps, Verb::TryPut, &[0, 8, 5])?, Said::Full);
    assert_eq!(rt; ask(&mut maps, Verb::TryPut, &[0, 7, 6])?, Said::Old(5));
    assert_eq!(rt; ask(&mut maps, Verb::TryGet, &[0, 7])?, Said::Found(6));
    assert_eq!(rt; ask(&mut maps, Verb::GetBy, &[0, 8, 0])?, Said::Absent);
    assert_eq!(rt; ask(&mut maps, Verb::GetBy, &[0, 7, 0])?, Said::Found(6));
    assert_eq!(rt; ask(&mut maps, Verb::PutBy, &[0, 8, 1, 0])?, Said::Full);
    assert_eq!(rt; ask(&mut maps, Verb::PutBy, &[0, 7, 1, 0])?, Said::Old(6));
    Ok(())
}

#[test]
fn numbers_are_added_compared_and_counted(rt: HostRuntime) -> Result<(), NoMemory> {
    let mut maps = PlainMaps::make(rt.alloc(), 1, 2)?;
    assert_eq!(rt; ask(&mut maps, Verb::Add, &[0, 1, 5])?, Said::Now(5));
    assert_eq!(rt; ask(&mut maps, Verb::Add, &[0, 1, u64::MAX])?, Said::Over);
    assert_eq!(rt;
        ask(&mut maps, Verb::Add, &[0, 1, u64::MAX - 5])?,
        Said::Now(u64::MAX)
    );
    assert_eq!(rt; ask(&mut maps, Verb::Cas, &[0, 2, 0, 1])?, Said::Absent);
    assert_eq!(rt;
        ask(&mut maps, Verb::Cas, &[0, 1, 5, 1])?,
        Said::No(u64::MAX)
    );
    assert_eq!(rt; ask(&mut maps, Verb::Cas, &[0, 1, u64::MAX, 6])?, Said::Yes);
    assert_eq!(rt;
        ask(&mut maps, Verb::PutLen, &[0, 2, 6])?,
        Said::NewCount(2)
    );
    assert_eq!(rt;
        ask(&mut maps, Verb::PutLen, &[0, 1, 7])?,
        Said::OldCount(6, 2)
    );
    assert_eq!(rt; ask(&mut maps, Verb::PutLen, &[0, 3, 1])?, Said::Full);
    assert_eq!(rt; ask(&mut maps, Verb::Add, &[0, 3, 1])?, Said::Full);
    Ok(())
}

#[test]
fn a_move_takes_from_one_cell_and_gives_to_another(rt: HostRuntime) -> Result<(), NoMemory> {
    let mut maps = PlainMaps::make(rt.alloc(), 2, 1)?;
    assert_eq!(rt; ask(&mut maps, Verb::Put, &[0, 1, 5])?, Said::New);
    assert_eq!(rt; ask(&mut maps, Verb::Move, &[0, 1, 1, 9])?, Said::Short(5));
    assert_eq!(rt; ask(&mut maps, Verb::Move, &[0, 1, 1, 2])?, Said::Moved);
    assert_eq!(rt;
        ask(&mut maps, Verb::Both, &[0, 1, 1])?,
        Said::Pair(Some(3), Some(2))
    );
    assert_eq!(rt; ask(&mut maps, Verb::Put, &[1, 1, u64::MAX])?, Said::Old(2));
    assert_eq!(rt; ask(&mut maps, Verb::Move, &[0, 1, 1, 1])?, Said::Over);
    assert_eq!(rt; ask(&mut maps, Verb::Del, &[1, 1])?, Said::Old(u64::MAX));
    assert_eq!(rt; ask(&mut maps, Verb::PutBy, &[1, 2, 0, 0])?, Said::New);
    assert_eq!(rt; ask(&mut maps, Verb::Move, &[0, 1, 1, 1])?, Said::Full);
    assert_eq!(rt; ask(&mut maps, Verb::Move, &[0, 0, 1, 1])?, Said::Same);
    assert_eq!(rt; ask(&mut maps, Verb::Both, &[1, 1, 2])?, Said::Same);
    Ok(())
}

// A job of caller 0.
fn job(index: u64, act: LedgerAct) -> LedgerJob
    ensures { result ≡ record { caller = 0; index = index; act = act } }
{
    LedgerJob {
        caller: 0,
        index,
        act,
    }
}

#[test]
fn a_ledger_tells_every_result(rt: HostRuntime) -> Result<(), NoMemory> {
    let mut ledger = Ledger::make(rt.alloc(), 2, 10)?;
    let jobs = [
        (LedgerAct::Take { key: 1, n: 1 }, Err(LedgerFault::Short(0))),
        (LedgerAct::Take { key: 1, n: 0 }, Ok(LedgerOut::Now(0))),
        (LedgerAct::Give { key: 1, n: 10 }, Ok(LedgerOut::Now(10))),
        (LedgerAct::Take { key: 1, n: 4 }, Ok(LedgerOut::Now(6))),
        (LedgerAct::Take { key: 1, n: 9 }, Err(LedgerFault::Short(6))),
        (
            LedgerAct::Give {
                key: 1,
                n: u64::MAX,
            },
            Err(LedgerFault::Over),
        ),
        (
            LedgerAct::Give {
                key: 2,
                n: u64::MAX,
            },
            Ok(LedgerOut::Now(u64::MAX)),
        ),
        (LedgerAct::Give { key: 3, n: 1 }, Err(LedgerFault::Full)),
        (
            LedgerAct::Audit,
            Ok(LedgerOut::Sum(18_446_744_073_709_551_621)),
        ),
    ];
    for (act, result) in jobs.iter() {
        if 0 < ledger.room() {
            let index = ledger.history().len() as u64;
            assert_eq!(rt; ledger.run_plain(job(index, *act)), *result);
        }
    }
    assert_eq!(rt; ledger.room(), 1);
    assert_eq!(rt; ledger.history().len(), 9);
    let last = LedgerEntry {
        caller: 0,
        index: 8,
        act: LedgerAct::Audit,
        result: Ok(LedgerOut::Sum(18_446_744_073_709_551_621)),
    };
    assert_eq!(rt; ledger.history().last().copied(), Some(last));
    Ok(())
}

#[test]
fn a_kept_ledger_counts_a_refused_job(rt: HostRuntime) -> Result<(), NoMemory> {
    let mut kept = Kept {
        value: Ledger::make(rt.alloc(), 1, 2)?,
        ran: 0,
    };
    assert_eq!(rt; Room::room(&kept.value), 2);
    let take = LedgerAct::Take { key: 1, n: 4 };
    let answer = run_kept(&mut kept, job(0, take));
    assert_eq!(rt; answer.at, 0);
    assert_eq!(rt; answer.result, Err(LedgerFault::Short(0)));
    assert_eq!(rt; kept.ran, 1);
    assert_eq!(rt; kept.value.history().len(), 1);
    let again = OnceJob::new(|ledger: &mut Ledger| ledger.run_plain(job(1, take)));
    let answer = run_kept(&mut kept, again);
    assert_eq!(rt; answer.at, 1);
    assert_eq!(rt; answer.result, Err(LedgerFault::Short(0)));
    assert_eq!(rt; kept.ran, 2);
    Ok(())
}
