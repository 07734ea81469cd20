//! What no clause says: that the table of moves is the one that is meant.
use crate::model::{Act, Event, Mode, ModelLock, Policy, Refused, Role};

// An announced writer keeps a new reader out under write priority alone.
#[test]
fn announced_writer_and_new_reader(rt: HostRuntime) {
    let rows = [
        (Policy::WritePriority, Err(Refused::NotAllowed)),
        (Policy::ReadPriority, Ok(())),
    ];
    for (policy, third) in rows {
        let mut lock = ModelLock::new(rt.alloc(), policy);
        assert_eq!(rt;
            lock.apply(Event {
                seat: 0,
                act: Act::EnterShared
            }),
            Ok(())
        );
        assert_eq!(rt;
            lock.apply(Event {
                seat: 1,
                act: Act::Announce
            }),
            Ok(())
        );
        assert_eq!(rt;
            lock.apply(Event {
                seat: 2,
                act: Act::EnterShared
            }),
            third
        );
    }
}

// One lock through all nine acts, with each seat's role afterwards.
#[test]
fn every_act(rt: HostRuntime) {
    let steps = [
        (0, Act::EnterUpgrade, Ok(()), Role::Holds(Mode::Upgrade)),
        (
            1,
            Act::EnterUpgrade,
            Err(Refused::NotAllowed),
            Role::Outside,
        ),
        (1, Act::EnterShared, Ok(()), Role::Holds(Mode::Shared)),
        (
            1,
            Act::Announce,
            Err(Refused::NotAllowed),
            Role::Holds(Mode::Shared),
        ),
        (
            0,
            Act::Announce,
            Ok(()),
            Role::Announces { from_upgrade: true },
        ),
        (
            0,
            Act::TakeExclusive,
            Err(Refused::NotAllowed),
            Role::Announces { from_upgrade: true },
        ),
        (0, Act::Retract, Ok(()), Role::Holds(Mode::Upgrade)),
        (
            0,
            Act::Announce,
            Ok(()),
            Role::Announces { from_upgrade: true },
        ),
        (1, Act::Leave, Ok(()), Role::Outside),
        (0, Act::TakeExclusive, Ok(()), Role::Holds(Mode::Exclusive)),
        (1, Act::EnterShared, Err(Refused::NotAllowed), Role::Outside),
        (
            0,
            Act::ExclusiveToUpgrade,
            Ok(()),
            Role::Holds(Mode::Upgrade),
        ),
        (0, Act::UpgradeToShared, Ok(()), Role::Holds(Mode::Shared)),
        (0, Act::Leave, Ok(()), Role::Outside),
        (0, Act::Leave, Err(Refused::NotAllowed), Role::Outside),
        (
            2,
            Act::Announce,
            Ok(()),
            Role::Announces {
                from_upgrade: false,
            },
        ),
        (2, Act::Retract, Ok(()), Role::Outside),
        (
            2,
            Act::Announce,
            Ok(()),
            Role::Announces {
                from_upgrade: false,
            },
        ),
        (2, Act::TakeExclusive, Ok(()), Role::Holds(Mode::Exclusive)),
        (2, Act::ExclusiveToShared, Ok(()), Role::Holds(Mode::Shared)),
    ];
    let mut lock = ModelLock::new(rt.alloc(), Policy::WritePriority);
    for (seat, act, answer, role) in steps {
        assert_eq!(rt;
            lock.apply(Event { seat, act }),
            answer,
            "{act:?} of {seat}"
        );
        assert_eq!(rt; lock.role(seat), role, "{act:?} of {seat}");
    }
}
