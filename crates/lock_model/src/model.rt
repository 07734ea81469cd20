//! The modes, the acts, and a plain lock that makes the moves one after the other.
ghost use Rattle.std.specs.Prelude.{◌≡◌, ◌↔◌, ◌==◌, ℕ, List, [], ◌∷◌, ◌++◌, length, take, drop, Option, Some, None, Bool, true, false, IsTrue, IsErrOf, OnOk, OnErr, IfErr, IfSome, IfNone, MatchOption, ◌<◌, slice_set};
ghost use Rattle.lock_model.specs.Locks.{role_after, bars, role_in, is_free, with_role, seat_role, after_event};
ghost use Rattle.lock_model.specs.declared.model.Role.{Role};

use std::alloc::Global;
use std::error::Error;
use std::fmt;
use std::marker::Model;

/// In which way a seat holds a lock.
#[derive(Clone, Copy, Debug, PartialEq, Eq)]
pub enum Mode {
    /// Beside other shared holders and at most one upgrade holder.
    Shared,
    /// Beside shared holders alone; it can go on to exclusive.
    Upgrade,
    /// Beside nobody.
    Exclusive,
}

/// Whether a waiting writer keeps new readers out.
#[derive(Clone, Copy, Debug, PartialEq, Eq)]
pub enum Policy {
    /// No reader enters while a writer is announced, as in Folly's `SharedMutex`.
    WritePriority,
    /// Readers enter beside an announced writer, as in Folly's `SharedMutexReadPriority`.
    ReadPriority,
}

/// What a seat has at a lock.
#[derive(Clone, Copy, Debug, PartialEq, Eq)]
pub enum Role {
    /// Nothing.
    Outside,
    /// The lock, in this mode.
    Holds(Mode),
    /// The announcement of a writer, which holds nothing yet or still holds upgrade.
    Announces { from_upgrade: bool },
}

/// What a seat can do at a lock.
#[derive(Clone, Copy, Debug, PartialEq, Eq)]
pub enum Act {
    /// Takes the lock shared, from outside.
    EnterShared,
    /// Takes it in upgrade mode, from outside.
    EnterUpgrade,
    /// Announces itself as a writer, from outside or while it holds upgrade.
    Announce,
    /// Takes the lock exclusively, once announced.
    TakeExclusive,
    /// Takes its announcement back. A hold of upgrade stays.
    Retract,
    /// Gives the lock up, in whichever mode it holds it.
    Leave,
    /// Goes on holding it shared.
    UpgradeToShared,
    /// Goes on holding it shared.
    ExclusiveToShared,
    /// Goes on holding it in upgrade mode.
    ExclusiveToUpgrade,
}

/// A seat's role.
#[derive(Clone, Copy, Debug, PartialEq, Eq)]
pub struct SeatRole {
    pub seat: u64,
    pub role: Role,
}

/// One seat does one thing.
#[derive(Clone, Copy, Debug, PartialEq, Eq)]
pub struct Event {
    pub seat: u64,
    pub act: Act,
}

/// Why an event was refused. The lock is as it was.
#[derive(Clone, Copy, Debug, PartialEq, Eq)]
pub enum Refused {
    /// The moves of the model don't allow it.
    NotAllowed,
    /// There was no memory for one more seat.
    NoMemory,
}

impl fmt::Display for Refused {
    fn fmt<W: fmt::Write>(&self, f: &mut fmt::Formatter<W>) -> fmt::Result {
        match self {
            Refused::NotAllowed => write!(f, "no move of the lock allows it"),
            Refused::NoMemory => write!(f, "out of memory"),
        }
    }
}

impl Error for Refused {}

impl Act {
    /// What the act makes of the role of the seat that does it, where it can do it at all.
    pub fn role_after(self, role: Role) -> Option<Role>
        ensures { result ≡ role_after self role }
    {
        match (self, role) {
            (Act::EnterShared, Role::Outside) => Some(Role::Holds(Mode::Shared)),
            (Act::EnterUpgrade, Role::Outside) => Some(Role::Holds(Mode::Upgrade)),
            (Act::Announce, Role::Outside) => Some(Role::Announces {
                from_upgrade: false,
            }),
            (Act::Announce, Role::Holds(Mode::Upgrade)) => {
                Some(Role::Announces { from_upgrade: true })
            }
            (Act::TakeExclusive, Role::Announces { .. }) => Some(Role::Holds(Mode::Exclusive)),
            (
                Act::Retract,
                Role::Announces {
                    from_upgrade: false,
                },
            ) => Some(Role::Outside),
            (Act::Retract, Role::Announces { from_upgrade: true }) => {
                Some(Role::Holds(Mode::Upgrade))
            }
            (Act::Leave, Role::Holds(_)) => Some(Role::Outside),
            (Act::UpgradeToShared, Role::Holds(Mode::Upgrade)) => Some(Role::Holds(Mode::Shared)),
            (Act::ExclusiveToShared, Role::Holds(Mode::Exclusive)) => {
                Some(Role::Holds(Mode::Shared))
            }
            (Act::ExclusiveToUpgrade, Role::Holds(Mode::Exclusive)) => {
                Some(Role::Holds(Mode::Upgrade))
            }
            _ => None,
        }
    }

    /// Whether another seat with this role bars the act.
    pub fn is_barred_by(self, policy: Policy, role: Role) -> bool
        ensures { result ≡ bars policy self role }
    {
        match self {
            Act::EnterShared => match role {
                Role::Holds(Mode::Exclusive) => true,
                Role::Announces { .. } => policy == Policy::WritePriority,
                _ => false,
            },
            Act::EnterUpgrade | Act::Announce => match role {
                Role::Outside | Role::Holds(Mode::Shared) => false,
                _ => true,
            },
            Act::TakeExclusive => match role {
                Role::Outside => false,
                _ => true,
            },
            _ => false,
        }
    }
}

/// A plain lock: the roles of all seats that ever had one. A seat that isn't in the list is outside.
#[derive(Drop)]
pub struct ModelLock {
    policy: Policy,
    seats: Vec<SeatRole>,
}

impl Model for ModelLock {
    ghost use Rattle.lock_model.specs.Locks.{Lock};

    ghost Value = { Lock };

    ghost view = { λ m. record { policy = m.policy; seats = m.seats.items } };

    ghost invariant = { λ m. Unit {0} };
}

impl ModelLock {
    /// A lock at which nobody has anything. It takes no memory; `apply` takes some from `alloc`.
    pub fn new(alloc: Global, policy: Policy) -> ModelLock
        ensures { result ≡ record { policy = policy; seats = [] } }
    {
        ModelLock {
            policy,
            seats: Vec::new(alloc),
        }
    }

    /// The role of a seat. It looks at each seat in turn.
    pub fn role(&self, seat: u64) -> Role
        ensures { result ≡ role_in self.now.seats seat }
    {
        let mut rest = self.seats.as_slice();
        while let [first, after @ ..] = rest {
            if first.seat == seat {
                return first.role;
            }
            rest = after;
        }
        Role::Outside
    }

    /// Makes the move, or refuses it and changes nothing. It looks at each seat up to three times.
    ///
    /// `NotAllowed` comes exactly where the moves of the model don't allow the event. `NoMemory` comes only where they
    /// do, of a seat that isn't in the list yet.
    pub fn apply(&mut self, event: Event) -> Result<(), Refused>
        ensures ok { OnOk result (after_event self.old event.seat event.act ≡ Some self.new) }
        ensures not_allowed { IsErrOf result Refused.NotAllowed ↔ (after_event self.old event.seat event.act ≡ None) }
        // To give the seat a role is to add it at the end.
        ensures no_memory { IsErrOf result Refused.NoMemory → (r : Role) → with_role self.old.seats event.seat r ≡ self.old.seats ++ seat_role event.seat r ∷ [] }
        ensures err { OnErr result (self.new ≡ self.old) }
    {
        let Some(role) = event.act.role_after(self.role(event.seat)) else {
            return Err(Refused::NotAllowed);
        };
        if !self.is_free(event) {
            return Err(Refused::NotAllowed);
        }
        self.give(event.seat, role)
    }

    // No other seat bars the event.
    fn is_free(&self, event: Event) -> bool
        ensures { result ≡ is_free self.now.policy event.act event.seat self.now.seats }
    {
        let mut rest = self.seats.as_slice();
        while let [first, after @ ..] = rest {
            if first.seat != event.seat && event.act.is_barred_by(self.policy, first.role) {
                return false;
            }
            rest = after;
        }
        true
    }

    // Where the seat stands in the list.
    fn place(&self, seat: u64) -> Option<usize>
        ensures some { IfSome result (λ i. (i < length self.now.seats) × ((r : Role) → with_role self.now.seats seat r ≡ slice_set self.now.seats i (seat_role seat r))) }
        ensures none { IfNone result ((r : Role) → with_role self.now.seats seat r ≡ self.now.seats ++ seat_role seat r ∷ []) }
    {
        for place in 0..self.seats.len() {
            if self.seats[place].seat == seat {
                return Some(place);
            }
        }
        None
    }

    fn give(&mut self, seat: u64, role: Role) -> Result<(), Refused>
        ensures ok { OnOk result (self.new ≡ record self.old { seats = with_role self.old.seats seat role }) }
        ensures err { IfErr result (λ e. e ≡ Refused.NoMemory) }
        ensures new { OnErr result ((r : Role) → with_role self.old.seats seat r ≡ self.old.seats ++ seat_role seat r ∷ []) }
        ensures same { OnErr result (self.new ≡ self.old) }
    {
        match self.place(seat) {
            Some(place) => self.seats[place] = SeatRole { seat, role },
            None => {
                if self.seats.push(SeatRole { seat, role }).is_err() {
                    return Err(Refused::NoMemory);
                }
            }
        }
        Ok(())
    }
}
