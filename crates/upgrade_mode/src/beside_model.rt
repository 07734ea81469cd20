//! The lock and the plain model side by side, with all nine acts of the model: each sequence of three events of three
//! seats, under both policies. After each event the seat's role, and the lock's word, are those of the model. What a
//! reader's guard says is carried beside its role.
ghost use Rattle.std.specs.Prelude.{◌≡◌, ◌<◌, true, false};
ghost use Rattle.hall.specs.Passes.{shape_of};
ghost use Rattle.hall.specs.declared.guards.Form.TheVariants.{Lowered};
ghost use Rattle.lock_model.specs.Locks.{upgrade_role, exclusive_role};
ghost use Rattle.lock_model.specs.declared.model.Role.TheVariants.{Outside, Announces};
ghost use Rattle.shared_mutex.specs.Beside.{HasRole, IsIdle};

use crate::{
    BeginRaced, begin_upgrade, exclusive_to_shared, exclusive_to_upgrade, retract_upgrade,
    try_lock_upgrade, unlock_upgrade, upgrade_to_shared,
};
use apply_deferred::scan;
use hall::{
    Announced, ExclusiveGuard, Form, Hall, Mode, NoCargo, Pass, Policy, SharedGuard, UpgradeGuard,
    Word,
};
use lock_model::{Act, Event, ModelLock, Role};
use shared_mutex::{announce, retract, try_finish, try_lock_shared, unlock, unlock_shared};
use std::process::Abort;

const SEATS: u32 = 3;

const ACTS: u32 = 9;

const STEPS: u32 = 3;
// (SEATS * ACTS) ^ STEPS
const SEQUENCES: u32 = 19_683;

// A seat's role; where it is a reader's, `form` is what its guard says.
#[derive(Clone, Copy)]
struct Stand {
    role: Role,
    form: Form,
}

impl Stand {
    // A role with no guard of a reader, or with one from a stronger hold.
    fn of(role: Role) -> Stand
        ensures { result ≡ record { role = role; form = Lowered } }
    {
        Stand {
            role,
            form: Form::Lowered,
        }
    }
}

fn act_of(number: u32) -> Act {
    match number % ACTS {
        0 => Act::EnterShared,
        1 => Act::EnterUpgrade,
        2 => Act::Announce,
        3 => Act::TakeExclusive,
        4 => Act::Retract,
        5 => Act::Leave,
        6 => Act::UpgradeToShared,
        7 => Act::ExclusiveToShared,
        _ => Act::ExclusiveToUpgrade,
    }
}

fn announced(from_upgrade: bool) -> Announced
    ensures { result ≡ record { lock = 0; swept = true; from_upgrade = from_upgrade } }
{
    Announced {
        lock: 0,
        swept: true,
        from_upgrade,
    }
}

// The seat's role says what an `Announced` says.
fn let_go(announced: Announced) {
    let Announced {
        lock: _,
        swept: _,
        from_upgrade: _,
    } = announced;
}

// The call of a seat that is outside.
fn from_outside(hall: &Hall<NoCargo>, pass: &mut Pass<NoCargo>, act: Act) -> Stand
    requires role { HasRole hall.now pass.old Outside Lowered }
    requires lock { 0 < (shape_of hall.now).locks }
    ensures { HasRole hall.now pass.new result.role result.form }
{
    match act {
        Act::EnterShared => match try_lock_shared(hall, pass, 0) {
            Ok(SharedGuard { lock: _, form }) => Stand {
                role: Role::Holds(Mode::Shared),
                form,
            },
            Err(_) => Stand::of(Role::Outside),
        },
        Act::EnterUpgrade => match try_lock_upgrade(hall, pass, 0) {
            Ok(UpgradeGuard { lock: _ }) => Stand::of(Role::Holds(Mode::Upgrade)),
            Err(_) => Stand::of(Role::Outside),
        },
        Act::Announce => match announce(hall, pass, 0) {
            Ok(mut announced) => {
                scan(hall, pass, &mut announced);
                let_go(announced);
                Stand::of(Role::Announces {
                    from_upgrade: false,
                })
            }
            Err(_) => Stand::of(Role::Outside),
        },
        _ => Stand::of(Role::Outside),
    }
}

// The call of an upgrade holder.
fn from_upgrade(hall: &Hall<NoCargo>, pass: &mut Pass<NoCargo>, act: Act) -> Role
    requires role { HasRole hall.now pass.old upgrade_role Lowered }
    requires lock { 0 < (shape_of hall.now).locks }
    ensures { HasRole hall.now pass.new result Lowered }
{
    match act {
        Act::Announce => match begin_upgrade(hall, pass, UpgradeGuard { lock: 0 }) {
            Ok(mut announced) => {
                scan(hall, pass, &mut announced);
                let_go(announced);
                Role::Announces { from_upgrade: true }
            }
            Err(
                BeginRaced {
                    guard: UpgradeGuard { lock: _ },
                    expected: _,
                    found: _,
                },
            ) => Role::Holds(Mode::Upgrade),
        },
        Act::Leave => {
            unlock_upgrade(hall, pass, UpgradeGuard { lock: 0 });
            Role::Outside
        }
        Act::UpgradeToShared => {
            let SharedGuard { lock: _, form: _ } = upgrade_to_shared(
                hall,
                pass,
                UpgradeGuard { lock: 0 },
            );
            Role::Holds(Mode::Shared)
        }
        _ => Role::Holds(Mode::Upgrade),
    }
}

// The call of an exclusive holder.
fn from_exclusive(hall: &Hall<NoCargo>, pass: &mut Pass<NoCargo>, act: Act) -> Role
    requires role { HasRole hall.now pass.old exclusive_role Lowered }
    requires lock { 0 < (shape_of hall.now).locks }
    ensures { HasRole hall.now pass.new result Lowered }
{
    match act {
        Act::Leave => {
            unlock(hall, pass, ExclusiveGuard { lock: 0 });
            Role::Outside
        }
        Act::ExclusiveToShared => {
            let SharedGuard { lock: _, form: _ } = exclusive_to_shared(
                hall,
                pass,
                ExclusiveGuard { lock: 0 },
            );
            Role::Holds(Mode::Shared)
        }
        Act::ExclusiveToUpgrade => {
            let UpgradeGuard { lock: _ } = exclusive_to_upgrade(
                hall,
                pass,
                ExclusiveGuard { lock: 0 },
            );
            Role::Holds(Mode::Upgrade)
        }
        _ => Role::Holds(Mode::Exclusive),
    }
}

// The call of a writer that was announced from outside.
fn from_announced(hall: &Hall<NoCargo>, pass: &mut Pass<NoCargo>, act: Act) -> Role
    requires role { HasRole hall.now pass.old (Announces false) Lowered }
    requires lock { 0 < (shape_of hall.now).locks }
    ensures { HasRole hall.now pass.new result Lowered }
{
    match act {
        Act::TakeExclusive => match try_finish(hall, pass, announced(false)) {
            Ok(ExclusiveGuard { lock: _ }) => Role::Holds(Mode::Exclusive),
            Err((announced, _)) => {
                let_go(announced);
                Role::Announces {
                    from_upgrade: false,
                }
            }
        },
        Act::Retract => {
            retract(hall, pass, announced(false));
            Role::Outside
        }
        _ => Role::Announces {
            from_upgrade: false,
        },
    }
}

// The call of a writer that was announced from upgrade.
fn from_raised(hall: &Hall<NoCargo>, pass: &mut Pass<NoCargo>, act: Act) -> Role
    requires role { HasRole hall.now pass.old (Announces true) Lowered }
    requires lock { 0 < (shape_of hall.now).locks }
    ensures { HasRole hall.now pass.new result Lowered }
{
    match act {
        Act::TakeExclusive => match try_finish(hall, pass, announced(true)) {
            Ok(ExclusiveGuard { lock: _ }) => Role::Holds(Mode::Exclusive),
            Err((announced, _)) => {
                let_go(announced);
                Role::Announces { from_upgrade: true }
            }
        },
        Act::Retract => {
            let UpgradeGuard { lock: _ } = retract_upgrade(hall, pass, announced(true));
            Role::Holds(Mode::Upgrade)
        }
        _ => Role::Announces { from_upgrade: true },
    }
}

// Makes the seat's call for an act, where its role has one, and answers what the seat is afterwards.
fn call(hall: &Hall<NoCargo>, pass: &mut Pass<NoCargo>, stand: Stand, act: Act) -> Stand
    requires role { HasRole hall.now pass.old stand.role stand.form }
    requires lock { 0 < (shape_of hall.now).locks }
    ensures { HasRole hall.now pass.new result.role result.form }
{
    match stand.role {
        Role::Outside => from_outside(hall, pass, act),
        Role::Holds(Mode::Shared) => {
            if act != Act::Leave {
                return stand;
            }
            let form = stand.form;
            unlock_shared(hall, pass, SharedGuard { lock: 0, form });
            Stand::of(Role::Outside)
        }
        Role::Holds(Mode::Upgrade) => Stand::of(from_upgrade(hall, pass, act)),
        Role::Holds(Mode::Exclusive) => Stand::of(from_exclusive(hall, pass, act)),
        Role::Announces {
            from_upgrade: false,
        } => Stand::of(from_announced(hall, pass, act)),
        Role::Announces { from_upgrade: true } => Stand::of(from_raised(hall, pass, act)),
    }
}

// The word has the bits of the roles in the model. While readers may not defer its count is that of the readers; else
// some of them may stand in slots.
fn shows<A: Abort>(rt: &A, word: Word, model: &ModelLock) {
    let roles = [model.role(0), model.role(1), model.role(2)];
    let plain = Role::Announces {
        from_upgrade: false,
    };
    let raised = Role::Announces { from_upgrade: true };
    let upgraded = roles.contains(&Role::Holds(Mode::Upgrade)) || roles.contains(&raised);
    let readers = roles
        .iter()
        .filter(|role| **role == Role::Holds(Mode::Shared))
        .count();
    assert_eq!(rt; word.held(), roles.contains(&Role::Holds(Mode::Exclusive)));
    assert_eq!(rt;
        word.begun(),
        roles.contains(&plain) || roles.contains(&raised)
    );
    assert_eq!(rt; word.upgrade(), upgraded);
    match usize::try_from(word.count()) {
        Ok(counted) if word.may_defer() => assert!(rt; counted <= readers),
        Ok(counted) => assert_eq!(rt; counted, readers),
        Err(_) => rt.abort(),
    }
}

// One event, made with the lock and with the model.
fn event<A: Abort>(
    rt: &A,
    hall: &Hall<NoCargo>,
    pass: &mut Pass<NoCargo>,
    model: &mut ModelLock,
    stand: Stand,
    act: Act,
) -> Stand
    requires role { HasRole hall.now pass.old stand.role stand.form }
    requires lock { 0 < (shape_of hall.now).locks }
    ensures { HasRole hall.now pass.new result.role result.form }
{
    let seat = pass.number();
    let after = call(hall, pass, stand, act);
    let allowed = model.apply(Event { seat, act }).is_ok();
    assert_eq!(rt; allowed, after.role != stand.role, "{act:?} of {seat}");
    assert_eq!(rt; model.role(seat), after.role, "{act:?} of {seat}");
    shows(rt, hall.load(pass, 0), model);
    after
}

// Gives back what the seat has, by the events that its role has for it: an announced writer from upgrade has two.
fn end<A: Abort>(
    rt: &A,
    hall: &Hall<NoCargo>,
    pass: &mut Pass<NoCargo>,
    model: &mut ModelLock,
    stand: Stand,
)
    requires role { HasRole hall.now pass.old stand.role stand.form }
    requires lock { 0 < (shape_of hall.now).locks }
    ensures { IsIdle hall.now pass.new }
{
    let stand = match stand.role {
        Role::Announces { .. } => event(rt, hall, pass, model, stand, Act::Retract),
        _ => stand,
    };
    let after = event(rt, hall, pass, model, stand, Act::Leave);
    if after.role != Role::Outside {
        rt.abort()
    }
}

// The digits of `code` say which seat does what; then each seat ends.
fn sequence<A: Abort>(
    rt: &A,
    hall: &Hall<NoCargo>,
    one: &mut Pass<NoCargo>,
    two: &mut Pass<NoCargo>,
    three: &mut Pass<NoCargo>,
    model: &mut ModelLock,
    code: u32,
)
    requires one { IsIdle hall.now one.old }
    requires two { IsIdle hall.now two.old }
    requires three { IsIdle hall.now three.old }
    requires lock { 0 < (shape_of hall.now).locks }
    ensures one { IsIdle hall.now one.new }
    ensures two { IsIdle hall.now two.new }
    ensures three { IsIdle hall.now three.new }
{
    let mut stands = (
        Stand::of(Role::Outside),
        Stand::of(Role::Outside),
        Stand::of(Role::Outside),
    );
    let mut rest = code;
    for _ in 0..STEPS {
        let act = act_of(rest / SEATS);
        match rest % SEATS {
            0 => stands.0 = event(rt, hall, one, model, stands.0, act),
            1 => stands.1 = event(rt, hall, two, model, stands.1, act),
            _ => stands.2 = event(rt, hall, three, model, stands.2, act),
        }
        rest /= SEATS * ACTS;
    }
    end(rt, hall, one, model, stands.0);
    end(rt, hall, two, model, stands.1);
    end(rt, hall, three, model, stands.2);
}

#[test]
fn every_sequence_of_three_events(rt: HostRuntime) {
    for policy in [Policy::WritePriority, Policy::ReadPriority] {
        let made = Hall::make(rt.alloc(), 1, 4, policy, 3, 0, NoCargo);
        let Ok((hall, first)) = made else { rt.abort() };
        let mut one = first;
        let mut two = hall.split(&mut one, 1, 0);
        let mut three = hall.split(&mut one, 1, 0);
        let mut model = ModelLock::new(rt.alloc(), policy);
        for code in 0..SEQUENCES {
            sequence(&rt, &hall, &mut one, &mut two, &mut three, &mut model, code);
        }
    }
}
