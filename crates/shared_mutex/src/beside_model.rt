//! The lock and the plain model side by side: each sequence of four events of three seats, under both policies. After
//! each event the seat's role, and the lock's word, are those of the model. What a seat's guard says is carried beside
//! its role.
ghost use Rattle.std.specs.Prelude.{◌≡◌, ◌<◌, true, false};
ghost use Rattle.lock_model.specs.declared.model.Role.TheVariants.{Outside};
ghost use Rattle.hall.specs.declared.guards.Form.TheVariants.{Lowered};
ghost use Rattle.hall.specs.Passes.{shape_of};
ghost use Rattle.shared_mutex.specs.Beside.{HasRole, IsIdle};

use crate::{announce, retract, try_finish, try_lock_shared, unlock, unlock_shared};
use apply_deferred::scan;
use hall::{Announced, ExclusiveGuard, Form, Hall, Mode, NoCargo, Pass, Policy, SharedGuard, Word};
use lock_model::{Act, Event, ModelLock, Role};
use std::process::Abort;

const SEATS: u32 = 3;

const ACTS: u32 = 5;

const STEPS: u32 = 4;
// (SEATS * ACTS) ^ STEPS
const SEQUENCES: u32 = 50_625;

const WRITER: Role = Role::Announces {
    from_upgrade: false,
};

// A seat's role; where it is a reader's, `form` is what its guard says.
#[derive(Clone, Copy)]
struct Stand {
    role: Role,
    form: Form,
}

impl Stand {
    // A role with no guard of a reader.
    fn of(role: Role) -> Stand
        ensures { result ≡ record { role = role; form = Lowered } }
    {
        Stand {
            role,
            form: Form::Lowered,
        }
    }
}

fn act_of(number: u32) -> Act {
    match number % ACTS {
        0 => Act::EnterShared,
        1 => Act::Announce,
        2 => Act::TakeExclusive,
        3 => Act::Retract,
        _ => Act::Leave,
    }
}

fn announced() -> Announced
    ensures { result ≡ record { lock = 0; swept = true; from_upgrade = false } }
{
    Announced {
        lock: 0,
        swept: true,
        from_upgrade: false,
    }
}

// The seat's role says what an `Announced` says.
fn noted(announced: Announced) -> Role
    ensures { result ≡ WRITER }
{
    let Announced {
        lock: _,
        swept: _,
        from_upgrade: _,
    } = announced;
    WRITER
}

// Makes the seat's call for an act, where its role has one, and answers what the seat is afterwards.
fn call(hall: &Hall<NoCargo>, pass: &mut Pass<NoCargo>, stand: Stand, act: Act) -> Stand
    requires role { HasRole hall.now pass.old stand.role stand.form }
    requires lock { 0 < (shape_of hall.now).locks }
    ensures { HasRole hall.now pass.new result.role result.form }
{
    match (act, stand.role) {
        (Act::EnterShared, Role::Outside) => enter(hall, pass),
        (Act::Announce, Role::Outside) => match announce(hall, pass, 0) {
            Ok(mut announced) => {
                scan(hall, pass, &mut announced);
                Stand::of(noted(announced))
            }
            Err(_) => Stand::of(Role::Outside),
        },
        (
            Act::TakeExclusive,
            Role::Announces {
                from_upgrade: false,
            },
        ) => match try_finish(hall, pass, announced()) {
            Ok(ExclusiveGuard { lock: _ }) => Stand::of(Role::Holds(Mode::Exclusive)),
            Err((announced, _)) => Stand::of(noted(announced)),
        },
        (
            Act::Retract,
            Role::Announces {
                from_upgrade: false,
            },
        ) => {
            retract(hall, pass, announced());
            Stand::of(Role::Outside)
        }
        (Act::Leave, Role::Holds(Mode::Shared)) => {
            let form = stand.form;
            unlock_shared(hall, pass, SharedGuard { lock: 0, form });
            Stand::of(Role::Outside)
        }
        (Act::Leave, Role::Holds(Mode::Exclusive)) => {
            unlock(hall, pass, ExclusiveGuard { lock: 0 });
            Stand::of(Role::Outside)
        }
        _ => stand,
    }
}

fn enter(hall: &Hall<NoCargo>, pass: &mut Pass<NoCargo>) -> Stand
    requires role { HasRole hall.now pass.old Outside Lowered }
    requires lock { 0 < (shape_of hall.now).locks }
    ensures { HasRole hall.now pass.new result.role result.form }
{
    match try_lock_shared(hall, pass, 0) {
        Ok(SharedGuard { lock: _, form }) => Stand {
            role: Role::Holds(Mode::Shared),
            form,
        },
        Err(_) => Stand::of(Role::Outside),
    }
}

// The word has the bits of the roles in the model. Beside an announced writer, which has swept, its count is that of
// the readers; else some of them may stand in slots.
fn shows<A: Abort>(rt: &A, word: Word, model: &ModelLock) {
    let roles = [model.role(0), model.role(1), model.role(2)];
    let readers = roles
        .iter()
        .filter(|role| **role == Role::Holds(Mode::Shared))
        .count();
    assert_eq!(rt; word.held(), roles.contains(&Role::Holds(Mode::Exclusive)));
    assert_eq!(rt; word.begun(), roles.contains(&WRITER));
    assert!(rt; !word.upgrade());
    match usize::try_from(word.count()) {
        Ok(counted) if word.may_defer() => assert!(rt; counted <= readers),
        Ok(counted) => assert_eq!(rt; counted, readers),
        Err(_) => rt.abort(),
    }
}

// One event, made with the lock and with the model.
fn event<A: Abort>(
    rt: &A,
    hall: &Hall<NoCargo>,
    pass: &mut Pass<NoCargo>,
    model: &mut ModelLock,
    stand: Stand,
    act: Act,
) -> Stand
    requires role { HasRole hall.now pass.old stand.role stand.form }
    requires lock { 0 < (shape_of hall.now).locks }
    ensures { HasRole hall.now pass.new result.role result.form }
{
    let seat = pass.number();
    let after = call(hall, pass, stand, act);
    let allowed = model.apply(Event { seat, act }).is_ok();
    assert_eq!(rt; allowed, after.role != stand.role, "{act:?} of {seat}");
    assert_eq!(rt; model.role(seat), after.role, "{act:?} of {seat}");
    shows(rt, hall.load(pass, 0), model);
    after
}

// Gives back what the seat has, by the event that its role has for it.
fn end<A: Abort>(
    rt: &A,
    hall: &Hall<NoCargo>,
    pass: &mut Pass<NoCargo>,
    model: &mut ModelLock,
    stand: Stand,
)
    requires role { HasRole hall.now pass.old stand.role stand.form }
    requires lock { 0 < (shape_of hall.now).locks }
    ensures { IsIdle hall.now pass.new }
{
    let act = match stand.role {
        Role::Announces { .. } => Act::Retract,
        _ => Act::Leave,
    };
    let after = event(rt, hall, pass, model, stand, act);
    if after.role != Role::Outside {
        rt.abort()
    }
}

// The digits of `code` say which seat does what; then each seat ends.
fn sequence<A: Abort>(
    rt: &A,
    hall: &Hall<NoCargo>,
    one: &mut Pass<NoCargo>,
    two: &mut Pass<NoCargo>,
    three: &mut Pass<NoCargo>,
    model: &mut ModelLock,
    code: u32,
)
    requires one { IsIdle hall.now one.old }
    requires two { IsIdle hall.now two.old }
    requires three { IsIdle hall.now three.old }
    requires lock { 0 < (shape_of hall.now).locks }
    ensures one { IsIdle hall.now one.new }
    ensures two { IsIdle hall.now two.new }
    ensures three { IsIdle hall.now three.new }
{
    let mut stands = (
        Stand::of(Role::Outside),
        Stand::of(Role::Outside),
        Stand::of(Role::Outside),
    );
    let mut rest = code;
    for _ in 0..STEPS {
        let act = act_of(rest / SEATS);
        match rest % SEATS {
            0 => stands.0 = event(rt, hall, one, model, stands.0, act),
            1 => stands.1 = event(rt, hall, two, model, stands.1, act),
            _ => stands.2 = event(rt, hall, three, model, stands.2, act),
        }
        rest /= SEATS * ACTS;
    }
    end(rt, hall, one, model, stands.0);
    end(rt, hall, two, model, stands.1);
    end(rt, hall, three, model, stands.2);
}

#[test]
fn every_sequence_of_four_events(rt: HostRuntime) {
    for policy in [Policy::WritePriority, Policy::ReadPriority] {
        let made = Hall::make(rt.alloc(), 1, 4, policy, 3, 0, NoCargo);
        let Ok((hall, first)) = made else { rt.abort() };
        let mut one = first;
        let mut two = hall.split(&mut one, 1, 0);
        let mut three = hall.split(&mut one, 1, 0);
        let mut model = ModelLock::new(rt.alloc(), policy);
        for code in 0..SEQUENCES {
            sequence(&rt, &hall, &mut one, &mut two, &mut three, &mut model, code);
        }
    }
}
