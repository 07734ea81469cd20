//! What no clause says: that the words are those that are meant, and how often the clock is asked.
ghost use Rattle.std.specs.Prelude.{◌≡◌, ◌≢◌, ◌<◌, ℕ};
ghost use Rattle.hall.specs.Passes.{view, IsPassOf, shape_of};
ghost use Rattle.hall.specs.Slotting.{HasNonePending};
ghost use Rattle.hall.specs.Views.{standing};
ghost use Rattle.hall.specs.declared.view.Standing.TheVariants.{Away, Exclusive};
ghost use Rattle.map_cargo.specs.History.{IsSettled, IsRested};
ghost use Rattle.map_cargo.specs.Steps.{Gained, IsIdle};
ghost use Rattle.sync_cell.specs.Within.{KeepsModes};

use crate::{
    ReadPtr, UpgradePtr, WritePtr, move_from_upgrade_to_read, move_from_upgrade_to_write,
    move_from_write_to_upgrade, rlock, rlock_until, try_rlock, try_ulock, try_wlock, ulock,
    ulock_until, unlock_read, unlock_write, with_rlock, with_ulock, with_wlock, wlock, wlock_until,
};
use hall::{Form, Hall, Pass, Policy, TryFault, Why, Word};
use map_cargo::MapCargo;
use ql_base::{Clock, ListClock};
use shared_mutex::{announce, retract};
use std::alloc::AllocError;
use std::process::Abort;
use std::sync::Wait;
use std::thread::{self, Threads};
use timed_wait::Late;

const ONE: u64 = 4294967296;

// Waits for cell 0 and holds it for writing.
fn hold<R: Wait>(rt: &R, hall: &Hall<MapCargo>, pass: &mut Pass<MapCargo>) -> WritePtr
    requires pass { IsPassOf hall.now pass.old }
    requires lock { 0 < (shape_of hall.now).locks }
    requires idle { IsIdle (view pass.old) }
    ensures pass { IsPassOf hall.now pass.new }
    ensures held { (result.guard.lock ≡ 0) × (standing (view pass.new) 0 ≡ Exclusive) }
    ensures others { (k : ℕ) → k ≢ 0 → standing (view pass.new) k ≡ Away }
    ensures gained { Gained 0 (view pass.old) (view pass.new) }
{
    wlock(rt, hall, pass, 0)
}

// The same by a deadline that is past: cell 0 has to be free.
fn hold_at_once<A: Abort + Wait>(
    rt: &A,
    hall: &Hall<MapCargo>,
    pass: &mut Pass<MapCargo>,
    clock: &mut ListClock,
) -> WritePtr
    requires pass { IsPassOf hall.now pass.old }
    requires lock { 0 < (shape_of hall.now).locks }
    requires idle { IsIdle (view pass.old) }
    ensures pass { IsPassOf hall.now pass.new }
    ensures held { (result.guard.lock ≡ 0) × (standing (view pass.new) 0 ≡ Exclusive) }
    ensures others { (k : ℕ) → k ≢ 0 → standing (view pass.new) k ≡ Away }
    ensures gained { Gained 0 (view pass.old) (view pass.new) }
{
    match wlock_until(rt, hall, pass, 0, clock, 0) {
        Ok(ptr) => ptr,
        Err(_) => rt.abort(),
    }
}

// Gives a cell back that was held for writing: the pass is idle again.
fn give_back(hall: &Hall<MapCargo>, pass: &mut Pass<MapCargo>, ptr: WritePtr)
    requires pass { IsPassOf hall.now pass.old }
    requires cell { ptr.guard.lock < (shape_of hall.now).locks }
    requires held { standing (view pass.old) ptr.guard.lock ≡ Exclusive }
    requires others { (k : ℕ) → k ≢ ptr.guard.lock → standing (view pass.old) k ≡ Away }
    requires settled { IsSettled ptr.guard.lock (view pass.old).part }
    requires rested { IsRested (view pass.old).part }
    ensures pass { IsPassOf hall.now pass.new }
    ensures idle { IsIdle (view pass.new) }
{
    unlock_write(hall, pass, ptr);
}

// A call to read cell 0 that has to be late so.
fn no_reader<A: Abort + Wait>(
    rt: &A,
    hall: &Hall<MapCargo>,
    pass: &mut Pass<MapCargo>,
    clock: &mut ListClock,
    expected: Late<TryFault>,
)
    requires pass { IsPassOf hall.now pass.old × (0 < (shape_of hall.now).locks) }
    requires away { standing (view pass.old) 0 ≡ Away }
    requires clear { HasNonePending (view pass.old) }
    ensures pass { IsPassOf hall.now pass.new × (standing (view pass.new) 0 ≡ Away) }
    ensures clear { HasNonePending (view pass.new) }
{
    match rlock_until(rt, hall, pass, 0, clock, expected.deadline) {
        Ok(_) => rt.abort(),
        Err(late) => assert_eq!(rt; late, expected),
    }
}

// A call to write cell 0 that has to be late so.
fn no_writer<A: Abort + Wait>(
    rt: &A,
    hall: &Hall<MapCargo>,
    pass: &mut Pass<MapCargo>,
    clock: &mut ListClock,
    expected: Late<TryFault>,
)
    requires pass { IsPassOf hall.now pass.old × (0 < (shape_of hall.now).locks) }
    requires away { standing (view pass.old) 0 ≡ Away }
    ensures pass { IsPassOf hall.now pass.new × (standing (view pass.new) 0 ≡ Away) }
    ensures clear { HasNonePending (view pass.old) → HasNonePending (view pass.new) }
{
    match wlock_until(rt, hall, pass, 0, clock, expected.deadline) {
        Ok(_) => rt.abort(),
        Err(late) => assert_eq!(rt; late, expected),
    }
}

// A call for upgrade of cell 0 that has to be late so.
fn no_upgrade<A: Abort + Wait>(
    rt: &A,
    hall: &Hall<MapCargo>,
    pass: &mut Pass<MapCargo>,
    clock: &mut ListClock,
    expected: Late<TryFault>,
)
    requires pass { IsPassOf hall.now pass.old × (0 < (shape_of hall.now).locks) }
    requires away { standing (view pass.old) 0 ≡ Away }
    ensures pass { IsPassOf hall.now pass.new × (standing (view pass.new) 0 ≡ Away) }
    ensures clear { HasNonePending (view pass.old) → HasNonePending (view pass.new) }
{
    match ulock_until(rt, hall, pass, 0, clock, expected.deadline) {
        Ok(_) => rt.abort(),
        Err(late) => assert_eq!(rt; late, expected),
    }
}

// A try to write cell 0 that has to be refused so.
fn no_try<A: Abort>(rt: &A, hall: &Hall<MapCargo>, pass: &mut Pass<MapCargo>, expected: TryFault)
    requires pass { IsPassOf hall.now pass.old × (0 < (shape_of hall.now).locks) }
    requires away { standing (view pass.old) 0 ≡ Away }
    ensures pass { IsPassOf hall.now pass.new × (standing (view pass.new) 0 ≡ Away) }
    ensures clear { HasNonePending (view pass.old) → HasNonePending (view pass.new) }
{
    match try_wlock(hall, pass, 0) {
        Ok(_) => rt.abort(),
        Err(fault) => assert_eq!(rt; fault, expected),
    }
}

// Beside a writer: late at the first answer that isn't below the deadline. The answer that comes next shows how many
// tries there were. The clocks rise, fall and jump.
#[test]
#[tactic(auto, using(hall::specs::SlotLaws::none_pending_looked))]
fn readers_are_late(rt: HostRuntime) -> Result<(), AllocError> {
    let cargo = MapCargo {
        cells: 1,
        rows: 1,
        writes: 1,
    };
    let made = Hall::make(rt.alloc(), 1, 32, Policy::WritePriority, 2, 0, cargo);
    let Ok((hall, first)) = made else { rt.abort() };
    let mut writer = first;
    let mut reader = hall.split(&mut writer, 1, 0);
    let mut even = ListClock::new(vec![in rt.alloc(); 0, 3, 5, 4]?);
    let mut same = ListClock::new(vec![in rt.alloc(); 0, 3, 5, 4]?);
    let mut falling = ListClock::new(vec![in rt.alloc(); 9, 3]?);
    let mut jumping = ListClock::new(vec![in rt.alloc(); 6, 2, 6, 7, 1]?);
    let ptr = hold(&rt, &hall, &mut writer);
    assert_eq!(rt; hall.load(&mut reader, 0), Word(8));
    let fault = TryFault::Busy { word: Word(8) };

    let (now, deadline) = (5, 5);
    no_reader(
        &rt,
        &hall,
        &mut reader,
        &mut even,
        Late {
            now,
            deadline,
            fault,
        },
    );
    assert_eq!(rt; even.now(), 4);

    no_upgrade(
        &rt,
        &hall,
        &mut reader,
        &mut same,
        Late {
            now,
            deadline,
            fault,
        },
    );
    assert_eq!(rt; same.now(), 4);

    let (now, deadline) = (9, 4);
    no_reader(
        &rt,
        &hall,
        &mut reader,
        &mut falling,
        Late {
            now,
            deadline,
            fault,
        },
    );
    assert_eq!(rt; falling.now(), 3);

    let (now, deadline) = (7, 7);
    no_reader(
        &rt,
        &hall,
        &mut reader,
        &mut jumping,
        Late {
            now,
            deadline,
            fault,
        },
    );
    assert_eq!(rt; jumping.now(), 1);

    give_back(&hall, &mut writer, ptr);
    Ok(())
}

// A free cell is taken past the deadline too, and the clock isn't asked.
#[test]
fn a_free_cell_is_taken(rt: HostRuntime) -> Result<(), AllocError> {
    let cargo = MapCargo {
        cells: 1,
        rows: 1,
        writes: 1,
    };
    let made = Hall::make(rt.alloc(), 1, 32, Policy::WritePriority, 2, 0, cargo);
    let Ok((hall, first)) = made else { rt.abort() };
    let mut pass = first;
    let mut other = hall.split(&mut pass, 1, 0);
    let mut clock = ListClock::new(vec![in rt.alloc(); 7, 8]?);
    match rlock_until(&rt, &hall, &mut other, 0, &mut clock, 0) {
        Ok(ptr) => {
            assert_eq!(rt; ptr.cell(), 0);
            let why = Why::NoDefer { word: Word(0) };
            assert_eq!(rt; ptr.guard.form, Form::Inline { why });
            assert_eq!(rt; hall.load(&mut other, 0), Word(ONE));
            unlock_read(&hall, &mut other, ptr);
        }
        Err(_) => rt.abort(),
    }
    let ptr = hold_at_once(&rt, &hall, &mut pass, &mut clock);
    assert_eq!(rt; ptr.cell(), 0);
    assert_eq!(rt; hall.load(&mut other, 0), Word(8));
    give_back(&hall, &mut pass, ptr);
    assert_eq!(rt; hall.load(&mut other, 0), Word(0));
    assert_eq!(rt; clock.now(), 7, "the clock was asked");
    Ok(())
}

// A writer that is late beside a reader leaves the reader's word, and readers may defer again.
#[test]
fn a_late_writer_is_away(rt: HostRuntime) -> Result<(), AllocError> {
    let cargo = MapCargo {
        cells: 1,
        rows: 1,
        writes: 1,
    };
    let made = Hall::make(rt.alloc(), 1, 32, Policy::WritePriority, 2, 0, cargo);
    let Ok((hall, first)) = made else { rt.abort() };
    let mut reader = first;
    let mut writer = hall.split(&mut reader, 1, 0);
    let mut clock = ListClock::new(vec![in rt.alloc(); 1, 6, 2]?);
    let held = rlock(&rt, &hall, &mut reader, 0);
    let fault = TryFault::Busy {
        word: Word(ONE + 4),
    };
    let (now, deadline) = (6, 6);
    no_writer(
        &rt,
        &hall,
        &mut writer,
        &mut clock,
        Late {
            now,
            deadline,
            fault,
        },
    );
    assert_eq!(rt; clock.now(), 2);
    assert_eq!(rt; hall.load(&mut writer, 0), Word(4294967297));
    no_try(&rt, &hall, &mut writer, fault);
    unlock_read(&hall, &mut reader, held);
    Ok(())
}

// After an announcement was taken back readers defer: the cell is held for reading by a token in a slot, and its word
// isn't written. A writer that comes moves the token into the count, finds the reader there, and leaves it there.
#[test]
fn a_reader_defers(rt: HostRuntime) {
    let cargo = MapCargo {
        cells: 1,
        rows: 1,
        writes: 1,
    };
    let made = Hall::make(rt.alloc(), 1, 32, Policy::WritePriority, 2, 0, cargo);
    let Ok((hall, first)) = made else { rt.abort() };
    let mut writer = first;
    let mut reader = hall.split(&mut writer, 1, 0);
    let Ok(announced) = announce(&hall, &mut writer, 0) else {
        rt.abort()
    };
    retract(&hall, &mut writer, announced);
    let held = rlock(&rt, &hall, &mut reader, 0);
    assert_eq!(rt; held.guard.form, Form::Deferred { slot: 2 });
    assert_eq!(rt; hall.load(&mut writer, 0), Word(1));
    let fault = TryFault::Busy {
        word: Word(ONE + 4),
    };
    no_try(&rt, &hall, &mut writer, fault);
    assert_eq!(rt; hall.load(&mut writer, 0), Word(ONE + 1));
    unlock_read(&hall, &mut reader, held);
    assert_eq!(rt;
        with_rlock(&rt, &hall, &mut reader, 0, look_as_reader),
        Word(1)
    );
    assert_eq!(rt; hall.load(&mut writer, 0), Word(1));
}

// A seat stops after it announced a writer. Under write priority nobody gets in: each try is refused for the word 4,
// and each wait is late with it, at the clock's answer. After it took the announcement back, readers and writers get
// in.
#[test]
fn a_paused_writer_under_write_priority(rt: HostRuntime) -> Result<(), AllocError> {
    let cargo = MapCargo {
        cells: 1,
        rows: 1,
        writes: 1,
    };
    let made = Hall::make(rt.alloc(), 1, 32, Policy::WritePriority, 2, 0, cargo);
    let Ok((hall, first)) = made else { rt.abort() };
    let mut paused = first;
    let mut other = hall.split(&mut paused, 1, 0);
    let mut clock = ListClock::new(vec![in rt.alloc(); 2, 5, 9, 3, 8, 1]?);
    let Ok(announced) = announce(&hall, &mut paused, 0) else {
        rt.abort()
    };
    let fault = TryFault::Busy { word: Word(4) };
    match try_rlock(&hall, &mut other, 0) {
        Ok(_) => rt.abort(),
        Err(found) => assert_eq!(rt; found, fault),
    }
    no_try(&rt, &hall, &mut other, fault);
    let (now, deadline) = (9, 7);
    no_reader(
        &rt,
        &hall,
        &mut other,
        &mut clock,
        Late {
            now,
            deadline,
            fault,
        },
    );
    let (now, deadline) = (8, 7);
    no_writer(
        &rt,
        &hall,
        &mut other,
        &mut clock,
        Late {
            now,
            deadline,
            fault,
        },
    );
    assert_eq!(rt; clock.now(), 1);

    retract(&hall, &mut paused, announced);
    match rlock_until(&rt, &hall, &mut other, 0, &mut clock, 0) {
        Ok(ptr) => unlock_read(&hall, &mut other, ptr),
        Err(_) => rt.abort(),
    }
    match try_rlock(&hall, &mut other, 0) {
        Ok(ptr) => unlock_read(&hall, &mut other, ptr),
        Err(_) => rt.abort(),
    }
    Ok(())
}

// Under read priority readers pass the announced writer, and another writer doesn't. After it took the announcement
// back, a writer gets in.
#[test]
fn a_paused_writer_under_read_priority(rt: HostRuntime) -> Result<(), AllocError> {
    let cargo = MapCargo {
        cells: 1,
        rows: 1,
        writes: 1,
    };
    let made = Hall::make(rt.alloc(), 1, 32, Policy::ReadPriority, 3, 0, cargo);
    let Ok((hall, first)) = made else { rt.abort() };
    let mut writer = first;
    let mut paused = hall.split(&mut writer, 1, 0);
    let mut other = hall.split(&mut writer, 1, 0);
    let mut clock = ListClock::new(vec![in rt.alloc(); 1, 2]?);
    let Ok(announced) = announce(&hall, &mut paused, 0) else {
        rt.abort()
    };
    match try_rlock(&hall, &mut other, 0) {
        Ok(ptr) => unlock_read(&hall, &mut other, ptr),
        Err(_) => rt.abort(),
    }
    no_try(&rt, &hall, &mut other, TryFault::Busy { word: Word(4) });
    retract(&hall, &mut paused, announced);
    let ptr = hold_at_once(&rt, &hall, &mut writer, &mut clock);
    give_back(&hall, &mut writer, ptr);
    assert_eq!(rt; clock.now(), 1, "the clock was asked");
    Ok(())
}

// The word of a cell that is held for reading.
fn look_as_reader(hall: &Hall<MapCargo>, pass: &mut Pass<MapCargo>, ptr: &ReadPtr) -> Word
    requires pass { IsPassOf hall.now pass.old }
    requires cell { ptr.now.guard.lock < (shape_of hall.now).locks }
    ensures pass { IsPassOf hall.now pass.new }
    ensures modes { KeepsModes (view pass.old) (view pass.new) }
    ensures stands { standing (view pass.new) ptr.now.guard.lock ≡ standing (view pass.old) ptr.now.guard.lock }
{
    hall.load(pass, ptr.cell())
}

// The word of a cell that is held for writing.
fn look_as_writer(hall: &Hall<MapCargo>, pass: &mut Pass<MapCargo>, ptr: &WritePtr) -> Word
    requires pass { IsPassOf hall.now pass.old }
    requires cell { ptr.now.guard.lock < (shape_of hall.now).locks }
    ensures pass { IsPassOf hall.now pass.new }
    ensures modes { KeepsModes (view pass.old) (view pass.new) }
    ensures stands { standing (view pass.new) ptr.now.guard.lock ≡ standing (view pass.old) ptr.now.guard.lock }
    ensures part { (view pass.new).part ≡ (view pass.old).part }
{
    hall.load(pass, ptr.cell())
}

// The word of a cell that is held in upgrade mode.
fn look_as_upgrader(hall: &Hall<MapCargo>, pass: &mut Pass<MapCargo>, ptr: &UpgradePtr) -> Word
    requires pass { IsPassOf hall.now pass.old }
    requires cell { ptr.now.guard.lock < (shape_of hall.now).locks }
    ensures pass { IsPassOf hall.now pass.new }
    ensures modes { KeepsModes (view pass.old) (view pass.new) }
    ensures stands { standing (view pass.new) ptr.now.guard.lock ≡ standing (view pass.old) ptr.now.guard.lock }
{
    hall.load(pass, ptr.cell())
}

// What is done sees the cell held, and afterwards the cell is free.
#[test]
fn something_is_done_while_a_cell_is_held(rt: HostRuntime) {
    let cargo = MapCargo {
        cells: 1,
        rows: 1,
        writes: 1,
    };
    let made = Hall::make(rt.alloc(), 1, 32, Policy::WritePriority, 1, 0, cargo);
    let Ok((hall, first)) = made else { rt.abort() };
    let mut pass = first;
    assert_eq!(rt;
        with_rlock(&rt, &hall, &mut pass, 0, look_as_reader),
        Word(ONE)
    );
    assert_eq!(rt;
        with_ulock(&rt, &hall, &mut pass, 0, look_as_upgrader),
        Word(2)
    );
    assert_eq!(rt;
        with_wlock(&rt, &hall, &mut pass, 0, look_as_writer),
        Word(8)
    );
    assert_eq!(rt; hall.load(&mut pass, 0), Word(0));
}

// Beside an upgrade holder a reader gets in, and no second one that wants upgrade.
fn beside_upgrade<A: Abort>(rt: &A, hall: &Hall<MapCargo>, other: &mut Pass<MapCargo>)
    requires pass { IsPassOf hall.now other.old × (0 < (shape_of hall.now).locks) }
    requires away { standing (view other.old) 0 ≡ Away }
    requires clear { HasNonePending (view other.old) }
    ensures pass { IsPassOf hall.now other.new × (standing (view other.new) 0 ≡ Away) }
{
    match try_ulock(hall, other, 0) {
        Ok(_) => rt.abort(),
        Err(fault) => assert_eq!(rt; fault, TryFault::Busy { word: Word(2) }),
    }
    match try_rlock(hall, other, 0) {
        Ok(ptr) => {
            assert_eq!(rt; hall.load(other, 0), Word(ONE + 2));
            unlock_read(hall, other, ptr);
        }
        Err(_) => rt.abort(),
    }
}

// Takes upgrade, goes on to write, back to upgrade, and on to read, and gives the cell back.
fn rise_and_fall<A: Abort + Wait>(
    rt: &A,
    hall: &Hall<MapCargo>,
    pass: &mut Pass<MapCargo>,
    other: &mut Pass<MapCargo>,
)
    requires pass { IsPassOf hall.now pass.old × (0 < (shape_of hall.now).locks) }
    requires idle { IsIdle (view pass.old) }
    requires other { IsPassOf hall.now other.old × (standing (view other.old) 0 ≡ Away) }
    requires clear { HasNonePending (view other.old) }
    ensures pass { IsPassOf hall.now pass.new × (standing (view pass.new) 0 ≡ Away) }
    ensures other { IsPassOf hall.now other.new × (standing (view other.new) 0 ≡ Away) }
{
    let upgraded = ulock(rt, hall, pass, 0);
    beside_upgrade(rt, hall, other);
    let written = move_from_upgrade_to_write(rt, hall, pass, upgraded);
    assert_eq!(rt; hall.load(pass, 0), Word(8));
    let upgraded = move_from_write_to_upgrade(hall, pass, written);
    assert_eq!(rt; hall.load(pass, 0), Word(2));
    let read = move_from_upgrade_to_read(hall, pass, upgraded);
    assert_eq!(rt; read.guard.form, Form::Lowered);
    assert_eq!(rt; hall.load(pass, 0), Word(ONE));
    unlock_read(hall, pass, read);
}

// A cell in each of its modes, one after the other.
#[test]
fn from_mode_to_mode(rt: HostRuntime) {
    let cargo = MapCargo {
        cells: 1,
        rows: 1,
        writes: 1,
    };
    let made = Hall::make(rt.alloc(), 1, 32, Policy::WritePriority, 2, 0, cargo);
    let Ok((hall, first)) = made else { rt.abort() };
    let mut pass = first;
    let mut other = hall.split(&mut pass, 1, 0);
    rise_and_fall(&rt, &hall, &mut pass, &mut other);
    assert_eq!(rt; hall.load(&mut pass, 0), Word(0));
}

// Holds cell 0 for writing again and again, by way of upgrade.
fn rise_often<R: Wait>(rt: &R, hall: &Hall<MapCargo>, pass: &mut Pass<MapCargo>, times: u32)
    requires pass { IsPassOf hall.now pass.old × (0 < (shape_of hall.now).locks) }
    requires idle { IsIdle (view pass.old) }
    ensures pass { IsPassOf hall.now pass.new × IsIdle (view pass.new) }
{
    for _ in 0..times {
        let ptr = rise(rt, hall, pass);
        give_back(hall, pass, ptr);
    }
}

// Takes upgrade of cell 0, and goes on to write.
fn rise<R: Wait>(rt: &R, hall: &Hall<MapCargo>, pass: &mut Pass<MapCargo>) -> WritePtr
    requires pass { IsPassOf hall.now pass.old }
    requires lock { 0 < (shape_of hall.now).locks }
    requires idle { IsIdle (view pass.old) }
    ensures pass { IsPassOf hall.now pass.new }
    ensures held { (result.guard.lock ≡ 0) × (standing (view pass.new) 0 ≡ Exclusive) }
    ensures others { (k : ℕ) → k ≢ 0 → standing (view pass.new) k ≡ Away }
    ensures settled { IsSettled 0 (view pass.new).part × IsRested (view pass.new).part }
{
    let ptr = ulock(rt, hall, pass, 0);
    move_from_upgrade_to_write(rt, hall, pass, ptr)
}

// Holds cell 0 for writing again and again.
fn write_often<R: Wait>(rt: &R, hall: &Hall<MapCargo>, pass: &mut Pass<MapCargo>, times: u32)
    requires pass { IsPassOf hall.now pass.old × (0 < (shape_of hall.now).locks) }
    requires idle { IsIdle (view pass.old) }
    ensures pass { IsPassOf hall.now pass.new × IsIdle (view pass.new) }
{
    for _ in 0..times {
        let ptr = hold(rt, hall, pass);
        give_back(hall, pass, ptr);
    }
}

fn by_two_threads<R: Threads + Wait + Sync>(
    rt: &R,
    hall: &Hall<MapCargo>,
    mut left: Pass<MapCargo>,
    mut right: Pass<MapCargo>,
) -> (Pass<MapCargo>, Pass<MapCargo>)
    requires left { IsPassOf hall.now left × IsIdle (view left) }
    requires right { IsPassOf hall.now right × IsIdle (view right) }
    requires lock { 0 < (shape_of hall.now).locks }
    ensures left { IsPassOf hall.now result.0 × IsIdle (view result.0) }
    ensures right { IsPassOf hall.now result.1 × IsIdle (view result.1) }
{
    thread::join(
        rt,
        move || -> Pass<MapCargo>
            requires { IsPassOf hall.now left × IsIdle (view left) × (0 < (shape_of hall.now).locks) }
            ensures { IsPassOf hall.entry.now result × IsIdle (view result) }
        {
            write_often(rt, hall, &mut left, 1000);
            left
        },
        move || -> Pass<MapCargo>
            requires { IsPassOf hall.now right × IsIdle (view right) × (0 < (shape_of hall.now).locks) }
            ensures { IsPassOf hall.entry.now result × IsIdle (view result) }
        {
            rise_often(rt, hall, &mut right, 1000);
            right
        },
    )
}

// Two threads that wait for one cell end by themselves, and leave it free. One comes by way of upgrade.
#[test]
fn two_writers(rt: HostRuntime) {
    let cargo = MapCargo {
        cells: 1,
        rows: 1,
        writes: 1,
    };
    let made = Hall::make(rt.alloc(), 1, 4, Policy::WritePriority, 2, 0, cargo);
    let Ok((hall, first)) = made else { rt.abort() };
    let mut first = first;
    let second = hall.split(&mut first, 1, 0);
    let (left, right) = by_two_threads(&rt, &hall, first, second);
    let mut left = left;
    hall.join(&mut left, right);
    let word = hall.load(&mut left, 0);
    assert!(rt; word.count() == 0 && !word.upgrade() && !word.begun() && !word.held());
}
