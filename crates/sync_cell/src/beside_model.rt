//! The cells and the plain model side by side: each sequence of four calls of three seats, under both policies. After
//! each call the seat's role, and the cell's word, are those of the model.
//!
//! A call that waits is made only where the model lets it through at once: one thread makes all calls. In the model a
//! call to write is a writer's announcement, its try to finish, and where that is refused its retraction.
ghost use Rattle.std.specs.Prelude.{◌≡◌, ◌<◌};
ghost use Rattle.hall.specs.Passes.{view, shape_of};
ghost use Rattle.hall.specs.declared.guards.Form.TheVariants.{Lowered};
ghost use Rattle.lock_model.specs.Locks.{upgrade_role, exclusive_role};
ghost use Rattle.lock_model.specs.declared.model.Mode.TheVariants as modes;
ghost use Rattle.lock_model.specs.declared.model.Role.TheVariants.{Outside, Holds};
ghost use Rattle.shared_mutex.specs.Beside.{HasRole};
ghost use Rattle.sync_cell.specs.Beside.{HasCell, IsSettledFor};

use crate::{
    ReadPtr, UpgradePtr, WritePtr, move_from_upgrade_to_read, move_from_upgrade_to_write,
    move_from_write_to_read, move_from_write_to_upgrade, try_rlock, try_ulock, try_wlock,
    unlock_read, unlock_upgrade_ptr, unlock_write,
};
use hall::{ExclusiveGuard, Form, Hall, Mode, Pass, Policy, SharedGuard, UpgradeGuard, Word};
use lock_model::{Act, Event, ModelLock, Role};
use map_cargo::MapCargo;
use std::process::Abort;
use std::sync::Wait;

const SEATS: u32 = 3;

// Of each role at most.
const CALLS: u32 = 3;

const STEPS: u32 = 4;
// (SEATS * CALLS) ^ STEPS
const SEQUENCES: u32 = 6_561;

const READ: Role = Role::Holds(Mode::Shared);

const UPGRADE: Role = Role::Holds(Mode::Upgrade);

const WRITE: Role = Role::Holds(Mode::Exclusive);

// A seat's role; where it is a reader's, `form` is what its pointer says.
#[derive(Clone, Copy)]
struct Stand {
    role: Role,
    form: Form,
}

impl Stand {
    // In a role that isn't a reader's.
    fn at(role: Role) -> Stand
        ensures { result ≡ record { role = role; form = Lowered } }
    {
        Stand {
            role,
            form: Form::Lowered,
        }
    }
}

fn upgrade_ptr() -> UpgradePtr
    ensures { result.guard.lock ≡ 0 }
{
    UpgradePtr {
        guard: UpgradeGuard { lock: 0 },
    }
}

fn write_ptr() -> WritePtr
    ensures { result.guard.lock ≡ 0 }
{
    WritePtr {
        guard: ExclusiveGuard { lock: 0 },
    }
}

// The acts of a call that goes on to write. It says whether they all were allowed.
fn model_writes(model: &mut ModelLock, seat: u64) -> bool {
    let announced = model.apply(Event {
        seat,
        act: Act::Announce,
    });
    if announced.is_err() {
        return false;
    }
    let taken = model.apply(Event {
        seat,
        act: Act::TakeExclusive,
    });
    if taken.is_err() {
        let _ = model.apply(Event {
            seat,
            act: Act::Retract,
        });
    }
    taken.is_ok()
}

// The same call, made of the model. It says whether it was allowed.
fn model_call(model: &mut ModelLock, seat: u64, number: u32) -> bool {
    let act = match (model.role(seat), number) {
        (Role::Outside, 0) => Act::EnterShared,
        (Role::Outside, 1) => Act::EnterUpgrade,
        (Role::Outside | UPGRADE, 2) => return model_writes(model, seat),
        (UPGRADE, 1) => Act::UpgradeToShared,
        (WRITE, 1) => Act::ExclusiveToShared,
        (WRITE, 2) => Act::ExclusiveToUpgrade,
        (_, 0) => Act::Leave,
        _ => return false,
    };
    model.apply(Event { seat, act }).is_ok()
}

fn read(hall: &Hall<MapCargo>, pass: &mut Pass<MapCargo>) -> Stand
    requires role { HasCell hall.now pass.old Outside Lowered }
    requires cell { 0 < (shape_of hall.now).locks }
    ensures role { HasCell hall.now pass.new result.role result.form }
{
    match try_rlock(hall, pass, 0) {
        Ok(
            ReadPtr {
                guard: SharedGuard { lock: _, form },
            },
        ) => Stand {
            role: Role::Holds(Mode::Shared),
            form,
        },
        Err(_) => Stand::at(Role::Outside),
    }
}

fn upgrade(hall: &Hall<MapCargo>, pass: &mut Pass<MapCargo>) -> Stand
    requires role { HasCell hall.now pass.old Outside Lowered }
    requires cell { 0 < (shape_of hall.now).locks }
    ensures role { HasRole hall.now pass.new result.role result.form }
    ensures settled { IsSettledFor result.role (view pass.new).part }
{
    match try_ulock(hall, pass, 0) {
        Ok(
            UpgradePtr {
                guard: UpgradeGuard { lock: _ },
            },
        ) => Stand {
            role: Role::Holds(Mode::Upgrade),
            form: Form::Lowered,
        },
        Err(_) => Stand::at(Role::Outside),
    }
}

fn write(hall: &Hall<MapCargo>, pass: &mut Pass<MapCargo>) -> Stand
    requires role { HasCell hall.now pass.old Outside Lowered }
    requires cell { 0 < (shape_of hall.now).locks }
    ensures role { HasRole hall.now pass.new result.role result.form }
    ensures settled { IsSettledFor result.role (view pass.new).part }
{
    match try_wlock(hall, pass, 0) {
        Ok(
            WritePtr {
                guard: ExclusiveGuard { lock: _ },
            },
        ) => Stand {
            role: Role::Holds(Mode::Exclusive),
            form: Form::Lowered,
        },
        Err(_) => Stand::at(Role::Outside),
    }
}

// A reader leaves.
fn leave(hall: &Hall<MapCargo>, pass: &mut Pass<MapCargo>, form: Form) -> Stand
    requires role { HasCell hall.now pass.old (Holds modes.Shared) form }
    requires cell { 0 < (shape_of hall.now).locks }
    ensures role { HasCell hall.now pass.new result.role result.form }
{
    let guard = SharedGuard { lock: 0, form };
    unlock_read(hall, pass, ReadPtr { guard });
    Stand::at(Role::Outside)
}

// Goes on from upgrade to write, where nobody is in its way.
fn rise<R: Wait>(rt: &R, hall: &Hall<MapCargo>, pass: &mut Pass<MapCargo>) -> Stand
    requires role { HasCell hall.now pass.old upgrade_role Lowered }
    requires cell { 0 < (shape_of hall.now).locks }
    ensures role { HasRole hall.now pass.new result.role result.form }
    ensures settled { IsSettledFor result.role (view pass.new).part }
{
    let WritePtr {
        guard: ExclusiveGuard { lock: _ },
    } = move_from_upgrade_to_write(rt, hall, pass, upgrade_ptr());
    Stand {
        role: Role::Holds(Mode::Exclusive),
        form: Form::Lowered,
    }
}

// Goes from write to upgrade.
fn fall(hall: &Hall<MapCargo>, pass: &mut Pass<MapCargo>) -> Stand
    requires role { HasCell hall.now pass.old exclusive_role Lowered }
    requires cell { 0 < (shape_of hall.now).locks }
    ensures role { HasRole hall.now pass.new result.role result.form }
    ensures settled { IsSettledFor result.role (view pass.new).part }
{
    let UpgradePtr {
        guard: UpgradeGuard { lock: _ },
    } = move_from_write_to_upgrade(hall, pass, write_ptr());
    Stand {
        role: Role::Holds(Mode::Upgrade),
        form: Form::Lowered,
    }
}

// A reader from a stronger mode.
fn reads(ptr: ReadPtr) -> Stand
    ensures { result ≡ record { role = Holds modes.Shared; form = ptr.guard.form } }
{
    let ReadPtr {
        guard: SharedGuard { lock: _, form },
    } = ptr;
    Stand { role: READ, form }
}

// The call of a seat that is outside.
fn from_outside(hall: &Hall<MapCargo>, pass: &mut Pass<MapCargo>, number: u32) -> Stand
    requires role { HasCell hall.now pass.old Outside Lowered }
    requires cell { 0 < (shape_of hall.now).locks }
    ensures role { HasCell hall.now pass.new result.role result.form }
{
    match number {
        0 => read(hall, pass),
        1 => upgrade(hall, pass),
        _ => write(hall, pass),
    }
}

// The call of an upgrade holder. One to go on to write is made where it is allowed.
fn from_upgrade<R: Wait>(
    rt: &R,
    hall: &Hall<MapCargo>,
    pass: &mut Pass<MapCargo>,
    number: u32,
    allowed: bool,
) -> Stand
    requires role { HasCell hall.now pass.old upgrade_role Lowered }
    requires cell { 0 < (shape_of hall.now).locks }
    ensures role { HasCell hall.now pass.new result.role result.form }
{
    match number {
        0 => {
            unlock_upgrade_ptr(hall, pass, upgrade_ptr());
            Stand::at(Role::Outside)
        }
        1 => reads(move_from_upgrade_to_read(hall, pass, upgrade_ptr())),
        _ if allowed => rise(rt, hall, pass),
        _ => Stand::at(UPGRADE),
    }
}

// The call of a writer.
fn from_write(hall: &Hall<MapCargo>, pass: &mut Pass<MapCargo>, number: u32) -> Stand
    requires role { HasCell hall.now pass.old exclusive_role Lowered }
    requires cell { 0 < (shape_of hall.now).locks }
    ensures role { HasCell hall.now pass.new result.role result.form }
{
    match number {
        0 => {
            unlock_write(hall, pass, write_ptr());
            Stand::at(Role::Outside)
        }
        1 => reads(move_from_write_to_read(hall, pass, write_ptr())),
        _ => fall(hall, pass),
    }
}

// Makes the seat's call. One that waits is made where it is allowed.
fn call<R: Wait>(
    rt: &R,
    hall: &Hall<MapCargo>,
    pass: &mut Pass<MapCargo>,
    stand: Stand,
    number: u32,
    allowed: bool,
) -> Stand
    requires role { HasCell hall.now pass.old stand.role stand.form }
    requires cell { 0 < (shape_of hall.now).locks }
    ensures role { HasCell hall.now pass.new result.role result.form }
{
    match stand.role {
        Role::Outside => from_outside(hall, pass, number),
        Role::Holds(Mode::Shared) if number == 0 => leave(hall, pass, stand.form),
        Role::Holds(Mode::Upgrade) => from_upgrade(rt, hall, pass, number, allowed),
        Role::Holds(Mode::Exclusive) => from_write(hall, pass, number),
        _ => stand,
    }
}

// The cell's word, which a look leaves.
fn look(hall: &Hall<MapCargo>, pass: &mut Pass<MapCargo>, stand: Stand) -> Word
    requires role { HasCell hall.now pass.old stand.role stand.form }
    requires cell { 0 < (shape_of hall.now).locks }
    ensures role { HasRole hall.now pass.new stand.role stand.form }
    ensures settled { IsSettledFor stand.role (view pass.new).part }
{
    let _same = stand;
    hall.load(pass, 0)
}

// The word has the bits of the roles in the model. Where readers may defer, some of them may stand in slots; else its
// count is that of the readers.
fn shows<A: Abort>(rt: &A, word: Word, model: &ModelLock) {
    let roles = [model.role(0), model.role(1), model.role(2)];
    let readers = roles.iter().filter(|role| **role == READ).count();
    assert_eq!(rt; word.held(), roles.contains(&WRITE));
    assert_eq!(rt; word.upgrade(), roles.contains(&UPGRADE));
    assert!(rt; !word.begun());
    match usize::try_from(word.count()) {
        Ok(counted) if word.may_defer() => assert!(rt; counted <= readers),
        Ok(counted) => assert_eq!(rt; counted, readers),
        Err(_) => rt.abort(),
    }
}

// One call, made with the cell and with the model.
fn event<R: Abort + Wait>(
    rt: &R,
    hall: &Hall<MapCargo>,
    pass: &mut Pass<MapCargo>,
    model: &mut ModelLock,
    stand: Stand,
    number: u32,
) -> Stand
    requires role { HasCell hall.now pass.old stand.role stand.form }
    requires cell { 0 < (shape_of hall.now).locks }
    ensures role { HasCell hall.now pass.new result.role result.form }
{
    let seat = pass.number();
    let allowed = model_call(model, seat, number);
    let after = call(rt, hall, pass, stand, number, allowed);
    assert_eq!(rt;
        allowed,
        after.role != stand.role,
        "call {number} of {seat}"
    );
    assert_eq!(rt; model.role(seat), after.role, "call {number} of {seat}");
    shows(rt, look(hall, pass, after), model);
    after
}

// Gives back what the seat has.
fn end<R: Abort + Wait>(
    rt: &R,
    hall: &Hall<MapCargo>,
    pass: &mut Pass<MapCargo>,
    model: &mut ModelLock,
    stand: Stand,
)
    requires role { HasCell hall.now pass.old stand.role stand.form }
    requires cell { 0 < (shape_of hall.now).locks }
    ensures role { HasCell hall.now pass.new Outside Lowered }
{
    if stand.role == Role::Outside {
        return;
    }
    let after = event(rt, hall, pass, model, stand, 0);
    if after.role != Role::Outside {
        rt.abort()
    }
}

// The digits of `code` say which seat makes which call; then each seat ends.
fn sequence<R: Abort + Wait>(
    rt: &R,
    hall: &Hall<MapCargo>,
    one: &mut Pass<MapCargo>,
    two: &mut Pass<MapCargo>,
    three: &mut Pass<MapCargo>,
    model: &mut ModelLock,
    code: u32,
)
    requires one { HasCell hall.now one.old Outside Lowered }
    requires two { HasCell hall.now two.old Outside Lowered }
    requires three { HasCell hall.now three.old Outside Lowered }
    requires cell { 0 < (shape_of hall.now).locks }
    ensures one { HasCell hall.now one.new Outside Lowered }
    ensures two { HasCell hall.now two.new Outside Lowered }
    ensures three { HasCell hall.now three.new Outside Lowered }
{
    let mut stands = (
        Stand::at(Role::Outside),
        Stand::at(Role::Outside),
        Stand::at(Role::Outside),
    );
    let mut rest = code;
    for _ in 0..STEPS {
        let number = rest / SEATS % CALLS;
        match rest % SEATS {
            0 => stands.0 = event(rt, hall, one, model, stands.0, number),
            1 => stands.1 = event(rt, hall, two, model, stands.1, number),
            _ => stands.2 = event(rt, hall, three, model, stands.2, number),
        }
        rest /= SEATS * CALLS;
    }
    end(rt, hall, one, model, stands.0);
    end(rt, hall, two, model, stands.1);
    end(rt, hall, three, model, stands.2);
}

#[test]
fn every_sequence_of_four_calls(rt: HostRuntime) {
    for policy in [Policy::WritePriority, Policy::ReadPriority] {
        let cargo = MapCargo {
            cells: 1,
            rows: 1,
            writes: 1,
        };
        let made = Hall::make(rt.alloc(), 1, 4, policy, 3, 0, cargo);
        let Ok((hall, first)) = made else { rt.abort() };
        let mut one = first;
        let mut two = hall.split(&mut one, 1, 0);
        let mut three = hall.split(&mut one, 1, 0);
        let mut model = ModelLock::new(rt.alloc(), policy);
        for code in 0..SEQUENCES {
            sequence(&rt, &hall, &mut one, &mut two, &mut three, &mut model, code);
        }
    }
}
