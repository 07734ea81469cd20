//! What no clause says: that queries that nothing is in the way of are granted, and that a held cell refuses. Places
//! are worked out by hand: write number w stands at 2w + 1, and a read after w writes at 2w.
ghost use Rattle.std.specs.Prelude.{◌≡◌, ◌<◌, length, IsFalse, IfOk};
ghost use Rattle.dist_mutex.specs.Passes.{dist_view, IsAtRest, IsDistPassOf};
ghost use Rattle.hall.specs.Passes.{view, IsPassOf, cargo_of, shape_of};
ghost use Rattle.query_log.specs.Plain.{cell_count};
ghost use Rattle.query_rules.specs.Grammar.{TakesBelow};
ghost use Rattle.query_rules.specs.History.{asks_ledger};
ghost use Rattle.query_rules.specs.Verbs.{arity, query_of};
ghost use Rattle.map_cargo.specs.Steps.{Suits, IsIdle};

use crate::ask;
use crate::holding::{hold_for_reading, hold_for_writing, leave_reading, leave_writing};
use dist_mutex::mutex::DistMutex;
use dist_mutex::pass::DistPass;
use hall::{Hall, Pass, Policy};
use map_cargo::MapCargo;
use ql_base::{ListClock, NoMemory};
use query_log::{Ledger, LedgerFault, LedgerJob, LedgerOut, PlainMaps};
use query_rules::{Query, Reply, Said, Verb};
use shared_mutex::{announce, retract};
use std::alloc::Global;
use std::process::Abort;
use std::sync::Wait;

// The hall, and the ledger's lock.
struct Locks {
    hall: Hall<MapCargo>,
    dist: DistMutex<Ledger, LedgerJob>,
}

// The passes of one caller, with its clock.
struct Asker {
    pass: Pass<MapCargo>,
    dist_pass: DistPass<Ledger, LedgerJob>,
    clock: ListClock,
}

// A hall of two cells for two seats, with more writes than a test asks, and its first pass.
fn open(alloc: Global, policy: Policy) -> Result<(Hall<MapCargo>, Pass<MapCargo>), NoMemory>
    ensures pass { IfOk result (λ t. IsPassOf t.0 t.1) }
    ensures idle { IfOk result (λ t. IsIdle (view t.1)) }
    ensures suits { IfOk result (λ t. Suits t.0) }
    ensures cells { IfOk result (λ t. ((shape_of t.0).locks ≡ 2) × ((cargo_of t.0).cells ≡ 2)) }
    ensures numbers { IfOk result (λ t. ((view t.1).number ≡ 0) × ((view t.1).span ≡ 2) × ((view t.1).quota ≡ 20)) }
{
    let cargo = MapCargo {
        cells: 2,
        rows: 4,
        writes: 20,
    };
    match Hall::make(alloc, 2, 1, policy, 2, 20, cargo) {
        Ok(made) => Ok(made),
        Err(_) => Err(NoMemory),
    }
}

// A lock of two nodes over an empty ledger with room for four jobs, and its first pass.
fn open_ledger(
    alloc: Global,
) -> Result<(DistMutex<Ledger, LedgerJob>, DistPass<Ledger, LedgerJob>), NoMemory>
    ensures pass { IfOk result (λ t. IsDistPassOf t.0 t.1 × IsAtRest t.1) }
    ensures numbers { IfOk result (λ t. ((dist_view t.1).number ≡ 0) × ((dist_view t.1).spare ≡ 1) × ((dist_view t.1).quota ≡ 4)) }
{
    let ledger = Ledger::make(alloc, 1, 4)?;
    match DistMutex::make(alloc, 2, 4, 64, ledger) {
        Ok(made) => Ok(made),
        Err(_) => Err(NoMemory),
    }
}

// Both locks, and a caller with the first pass of each, whose clock answers these.
fn open_both(alloc: Global, policy: Policy, answers: Vec<u64>) -> Result<(Locks, Asker), NoMemory>
    requires { 0 < length answers.items }
    ensures pass { IfOk result (λ t. IsPassOf t.0.hall t.1.pass × IsIdle (view t.1.pass)) }
    ensures hall { IfOk result (λ t. Suits t.0.hall × ((shape_of t.0.hall).locks ≡ 2) × ((cargo_of t.0.hall).cells ≡ 2)) }
    ensures dist { IfOk result (λ t. IsDistPassOf t.0.dist t.1.dist_pass × IsAtRest t.1.dist_pass) }
    ensures number { IfOk result (λ t. (dist_view t.1.dist_pass).number ≡ (view t.1.pass).number) }
    ensures spare { IfOk result (λ t. (view t.1.pass).span ≡ 2) }
{
    let (hall, pass) = open(alloc, policy)?;
    let (dist, dist_pass) = open_ledger(alloc)?;
    let asker = Asker {
        pass,
        dist_pass,
        clock: ListClock::new(answers),
    };
    Ok((Locks { hall, dist }, asker))
}

// Asks while both quotas last.
fn ask_next<R: Abort + Wait>(
    rt: &R,
    locks: &Locks,
    asker: &mut Asker,
    index: u64,
    query: &Query,
) -> Reply
    requires pass { IsPassOf locks.now.hall asker.old.pass × IsIdle (view asker.old.pass) }
    requires hall { Suits locks.now.hall × ((shape_of locks.now.hall).locks ≡ 2) × ((cargo_of locks.now.hall).cells ≡ 2) }
    requires dist { IsDistPassOf locks.now.dist asker.old.dist_pass × IsAtRest asker.old.dist_pass }
    requires number { (dist_view asker.old.dist_pass).number ≡ (view asker.old.pass).number }
    requires cells { TakesBelow 2 query.now }
    ensures pass { IsPassOf locks.now.hall asker.new.pass × IsIdle (view asker.new.pass) }
    ensures dist { IsDistPassOf locks.now.dist asker.new.dist_pass × IsAtRest asker.new.dist_pass }
    ensures number { (dist_view asker.new.dist_pass).number ≡ (view asker.new.pass).number }
{
    if asker.pass.quota() == 0 || asker.dist_pass.quota() == 0 {
        rt.abort();
    }
    ask(
        rt,
        &locks.hall,
        &mut asker.pass,
        &locks.dist,
        &mut asker.dist_pass,
        &mut asker.clock,
        index,
        query,
    )
}

// Asks the maps behind the locks and the plain maps the query with these numbers: both say the same, at this place.
fn both_say<R: Abort + Wait>(
    rt: &R,
    locks: &Locks,
    asker: &mut Asker,
    maps: &mut PlainMaps,
    verb: Verb,
    numbers: &[u64],
    place: u64,
)
    requires pass { IsPassOf locks.now.hall asker.old.pass × IsIdle (view asker.old.pass) }
    requires hall { Suits locks.now.hall × ((shape_of locks.now.hall).locks ≡ 2) × ((cargo_of locks.now.hall).cells ≡ 2) }
    requires dist { IsDistPassOf locks.now.dist asker.old.dist_pass × IsAtRest asker.old.dist_pass }
    requires number { (dist_view asker.old.dist_pass).number ≡ (view asker.old.pass).number }
    requires maps { cell_count maps.old ≡ 2 }
    requires numbers { length numbers.now ≡ arity verb }
    requires cells { TakesBelow 2 (query_of verb numbers.now) }
    requires of_maps { IsFalse (asks_ledger (query_of verb numbers.now)) }
    ensures pass { IsPassOf locks.now.hall asker.new.pass × IsIdle (view asker.new.pass) }
    ensures dist { IsDistPassOf locks.now.dist asker.new.dist_pass × IsAtRest asker.new.dist_pass }
    ensures number { (dist_view asker.new.dist_pass).number ≡ (view asker.new.pass).number }
    ensures maps { cell_count maps.new ≡ 2 }
{
    let query = verb.query(numbers);
    let reply = ask_next(rt, locks, asker, place, &query);
    match maps.ask(&query) {
        Ok(said) => assert_eq!(rt; reply, Reply::Placed { place, said }),
        Err(_) => rt.abort(),
    }
}

// Asks the job with this index: it is told this, at this position.
fn ledger_says<R: Abort + Wait>(
    rt: &R,
    locks: &Locks,
    asker: &mut Asker,
    query: Query,
    at: u64,
    told: Result<LedgerOut, LedgerFault>,
)
    requires pass { IsPassOf locks.now.hall asker.old.pass × IsIdle (view asker.old.pass) }
    requires hall { Suits locks.now.hall × ((shape_of locks.now.hall).locks ≡ 2) × ((cargo_of locks.now.hall).cells ≡ 2) }
    requires dist { IsDistPassOf locks.now.dist asker.old.dist_pass × IsAtRest asker.old.dist_pass }
    requires number { (dist_view asker.old.dist_pass).number ≡ (view asker.old.pass).number }
    requires cells { TakesBelow 2 query }
    ensures pass { IsPassOf locks.now.hall asker.new.pass × IsIdle (view asker.new.pass) }
    ensures dist { IsDistPassOf locks.now.dist asker.new.dist_pass × IsAtRest asker.new.dist_pass }
    ensures number { (dist_view asker.new.dist_pass).number ≡ (view asker.new.pass).number }
{
    let reply = ask_next(rt, locks, asker, at, &query);
    assert_eq!(rt; reply, Reply::Job { at, result: told });
}

// How many jobs ran on the ledger, at the end.
fn finish<R: Abort>(rt: &R, locks: Locks, asker: Asker) -> u64
    requires dist { IsDistPassOf locks.dist asker.dist_pass × IsAtRest asker.dist_pass }
{
    let Locks { hall: _, dist } = locks;
    let Asker {
        pass: _,
        dist_pass,
        clock: _,
    } = asker;
    let (kept, _retired) = dist.close(dist_pass);
    let Some(kept) = kept else { rt.abort() };
    assert_eq!(rt; kept.value.history().len() as u64, kept.ran);
    kept.ran
}

// Each query of one cell that waits, once.
#[test]
fn one_cell_says_what_plain_maps_say(rt: HostRuntime) -> Result<(), NoMemory> {
    let mut maps = PlainMaps::make(rt.alloc(), 2, 4)?;
    let (locks, mut asker) = open_both(rt.alloc(), Policy::WritePriority, vec![in rt.alloc(); 9]?)?;
    both_say(&rt, &locks, &mut asker, &mut maps, Verb::Put, &[0, 7, 5], 1);
    both_say(&rt, &locks, &mut asker, &mut maps, Verb::Get, &[0, 7], 2);
    both_say(&rt, &locks, &mut asker, &mut maps, Verb::Len, &[0], 2);
    both_say(&rt, &locks, &mut asker, &mut maps, Verb::Add, &[0, 7, 3], 3);
    both_say(
        &rt,
        &locks,
        &mut asker,
        &mut maps,
        Verb::Cas,
        &[0, 7, 8, 9],
        5,
    );
    both_say(
        &rt,
        &locks,
        &mut asker,
        &mut maps,
        Verb::PutLen,
        &[0, 8, 1],
        7,
    );
    both_say(&rt, &locks, &mut asker, &mut maps, Verb::Del, &[0, 8], 9);
    assert_eq!(rt; finish(&rt, locks, asker), 0);
    Ok(())
}

// The queries of two cells, and those that may be refused.
#[test]
fn two_cells_say_what_plain_maps_say(rt: HostRuntime) -> Result<(), NoMemory> {
    let mut maps = PlainMaps::make(rt.alloc(), 2, 4)?;
    let (locks, mut asker) = open_both(rt.alloc(), Policy::WritePriority, vec![in rt.alloc(); 9]?)?;
    both_say(
        &rt,
        &locks,
        &mut asker,
        &mut maps,
        Verb::TryPut,
        &[0, 7, 9],
        1,
    );
    both_say(
        &rt,
        &locks,
        &mut asker,
        &mut maps,
        Verb::Move,
        &[0, 1, 7, 4],
        3,
    );
    both_say(
        &rt,
        &locks,
        &mut asker,
        &mut maps,
        Verb::Both,
        &[0, 1, 7],
        4,
    );
    both_say(&rt, &locks, &mut asker, &mut maps, Verb::TryGet, &[1, 7], 4);
    both_say(
        &rt,
        &locks,
        &mut asker,
        &mut maps,
        Verb::PutBy,
        &[1, 9, 2, 0],
        5,
    );
    both_say(
        &rt,
        &locks,
        &mut asker,
        &mut maps,
        Verb::GetBy,
        &[1, 9, 0],
        6,
    );
    assert_eq!(rt; finish(&rt, locks, asker), 0);
    Ok(())
}

// The jobs of one pass: what each leaves of the one account.
#[test]
fn jobs_keep_one_account(rt: HostRuntime) -> Result<(), NoMemory> {
    let (locks, mut asker) = open_both(rt.alloc(), Policy::WritePriority, vec![in rt.alloc(); 9]?)?;
    let give = Query::Give { key: 1, n: 10 };
    ledger_says(&rt, &locks, &mut asker, give, 0, Ok(LedgerOut::Now(10)));
    let take = Query::Take { key: 1, n: 4 };
    ledger_says(&rt, &locks, &mut asker, take, 1, Ok(LedgerOut::Now(6)));
    let more = Query::Take { key: 1, n: 9 };
    ledger_says(&rt, &locks, &mut asker, more, 2, Err(LedgerFault::Short(6)));
    ledger_says(
        &rt,
        &locks,
        &mut asker,
        Query::Audit,
        3,
        Ok(LedgerOut::Sum(6)),
    );
    assert_eq!(rt; asker.dist_pass.quota(), 0);
    assert_eq!(rt; finish(&rt, locks, asker), 4);
    Ok(())
}

// Asks, and gets this reply.
fn is_told<R: Abort + Wait>(
    rt: &R,
    locks: &Locks,
    asker: &mut Asker,
    query: &Query,
    expected: Reply,
)
    requires pass { IsPassOf locks.now.hall asker.old.pass × IsIdle (view asker.old.pass) }
    requires hall { Suits locks.now.hall × ((shape_of locks.now.hall).locks ≡ 2) × ((cargo_of locks.now.hall).cells ≡ 2) }
    requires dist { IsDistPassOf locks.now.dist asker.old.dist_pass × IsAtRest asker.old.dist_pass }
    requires number { (dist_view asker.old.dist_pass).number ≡ (view asker.old.pass).number }
    requires cells { TakesBelow 2 query.now }
    ensures pass { IsPassOf locks.now.hall asker.new.pass × IsIdle (view asker.new.pass) }
    ensures dist { IsDistPassOf locks.now.dist asker.new.dist_pass × IsAtRest asker.new.dist_pass }
    ensures number { (dist_view asker.new.dist_pass).number ≡ (view asker.new.pass).number }
{
    let reply = ask_next(rt, locks, asker, 0, query);
    assert_eq!(rt; reply, expected);
}

// Asks cell 0 each query that may be refused, with the deadline 5, and gets these replies.
fn four_are_told<R: Abort + Wait>(rt: &R, locks: &Locks, asker: &mut Asker, expected: [Reply; 4])
    requires pass { IsPassOf locks.now.hall asker.old.pass × IsIdle (view asker.old.pass) }
    requires hall { Suits locks.now.hall × ((shape_of locks.now.hall).locks ≡ 2) × ((cargo_of locks.now.hall).cells ≡ 2) }
    requires dist { IsDistPassOf locks.now.dist asker.old.dist_pass × IsAtRest asker.old.dist_pass }
    requires number { (dist_view asker.old.dist_pass).number ≡ (view asker.old.pass).number }
    ensures pass { IsPassOf locks.now.hall asker.new.pass × IsIdle (view asker.new.pass) }
    ensures dist { IsDistPassOf locks.now.dist asker.new.dist_pass × IsAtRest asker.new.dist_pass }
    ensures number { (dist_view asker.new.dist_pass).number ≡ (view asker.new.pass).number }
{
    let [try_get, try_put, get_by, put_by] = expected;
    let (cell, key, value, deadline) = (0, 7, 1, 5);
    is_told(rt, locks, asker, &Query::TryGet { cell, key }, try_get);
    is_told(
        rt,
        locks,
        asker,
        &Query::TryPut { cell, key, value },
        try_put,
    );
    let query = Query::GetBy {
        cell,
        key,
        deadline,
    };
    is_told(rt, locks, asker, &query, get_by);
    let query = Query::PutBy {
        cell,
        key,
        value,
        deadline,
    };
    is_told(rt, locks, asker, &query, put_by);
}

// The replies beside a seat that holds the cell for writing.
fn beside_a_writer<R: Abort + Wait>(
    rt: &R,
    alloc: Global,
    policy: Policy,
    expected: [Reply; 4],
) -> Result<(), NoMemory> {
    let (locks, mut asker) = open_both(alloc, policy, vec![in alloc; 3, 5, 4, 9]?)?;
    let mut writer = locks.hall.split(&mut asker.pass, 1, 0);
    let held = hold_for_writing(rt, &locks.hall, &mut writer, 0);
    four_are_told(rt, &locks, &mut asker, expected);
    leave_writing(&locks.hall, &mut writer, held);
    assert_eq!(rt; finish(rt, locks, asker), 0);
    Ok(())
}

// The replies beside a seat that holds the cell for reading.
fn beside_a_reader<R: Abort + Wait>(
    rt: &R,
    alloc: Global,
    policy: Policy,
    expected: [Reply; 4],
) -> Result<(), NoMemory> {
    let (locks, mut asker) = open_both(alloc, policy, vec![in alloc; 3, 5, 4, 9]?)?;
    let mut reader = locks.hall.split(&mut asker.pass, 1, 0);
    let held = hold_for_reading(rt, &locks.hall, &mut reader, 0);
    four_are_told(rt, &locks, &mut asker, expected);
    leave_reading(&locks.hall, &mut reader, held);
    assert_eq!(rt; finish(rt, locks, asker), 0);
    Ok(())
}

// The replies beside a seat that announced a writer, and stopped there.
fn beside_a_paused_writer<R: Abort + Wait>(
    rt: &R,
    alloc: Global,
    policy: Policy,
    expected: [Reply; 4],
) -> Result<(), NoMemory> {
    let (locks, mut asker) = open_both(alloc, policy, vec![in alloc; 3, 5, 4, 9]?)?;
    let mut writer = locks.hall.split(&mut asker.pass, 1, 0);
    let Ok(announced) = announce(&locks.hall, &mut writer, 0) else {
        rt.abort()
    };
    four_are_told(rt, &locks, &mut asker, expected);
    retract(&locks.hall, &mut writer, announced);
    assert_eq!(rt; finish(rt, locks, asker), 0);
    Ok(())
}

const ALL_REFUSED: [Reply; 4] = [
    Reply::Busy,
    Reply::Busy,
    Reply::Late { now: 5 },
    Reply::Late { now: 9 },
];

const READS_PLACED: [Reply; 4] = [
    Reply::Placed {
        place: 0,
        said: Said::Absent,
    },
    Reply::Busy,
    Reply::Placed {
        place: 0,
        said: Said::Absent,
    },
    Reply::Late { now: 5 },
];

#[test]
fn a_writer_refuses_all(rt: HostRuntime) -> Result<(), NoMemory> {
    beside_a_writer(&rt, rt.alloc(), Policy::WritePriority, ALL_REFUSED)?;
    beside_a_writer(&rt, rt.alloc(), Policy::ReadPriority, ALL_REFUSED)
}

#[test]
fn a_reader_refuses_writers(rt: HostRuntime) -> Result<(), NoMemory> {
    beside_a_reader(&rt, rt.alloc(), Policy::WritePriority, READS_PLACED)?;
    beside_a_reader(&rt, rt.alloc(), Policy::ReadPriority, READS_PLACED)
}

// Under read priority a reader enters beside a writer that only announced itself.
#[test]
fn a_paused_writer_refuses_by_policy(rt: HostRuntime) -> Result<(), NoMemory> {
    beside_a_paused_writer(&rt, rt.alloc(), Policy::WritePriority, ALL_REFUSED)?;
    beside_a_paused_writer(&rt, rt.alloc(), Policy::ReadPriority, READS_PLACED)
}
