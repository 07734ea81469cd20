//! Waits that return, with the worked numbers.
ghost use Rattle.std.specs.Prelude.{◌≡◌, ◌≤◌, ◌<◌, true, false};
ghost use Rattle.std.proofs.Common.{rules};

use crate::{Attempt, Late, wait, wait_until};
use ql_base::{Clock, ListClock};
use std::alloc::AllocError;

// A lock that some other thread gives back after so many tries.
#[derive(Drop)]
struct Lock {
    tries: u64,
    free_after: u64,
    is_taken: bool,
    latest: Option<u64>,
}

impl Lock {
    fn free_after(tries: u64) -> Self
        ensures { (result.free_after ≡ tries) × (result.tries ≡ 0) × (result.is_taken ≡ false) }
    {
        Lock {
            tries: 0,
            free_after: tries,
            is_taken: false,
            latest: None,
        }
    }
}

// Taking it. A refused try tells its number.
#[derive(Drop)]
struct Taking<'a> {
    lock: &'a mut Lock,
}

impl<'a> Attempt for Taking<'a> {
    type Got = ();

    type Fault = u64;

    ghost ready = { λ a. (a.lock.now.tries ≤ a.lock.now.free_after)
        × (a.lock.now.free_after < 100)
        × (a.lock.now.is_taken ≡ false) };

    ghost tries = { λ a. a.lock.now.tries };

    ghost fault = { λ a. a.lock.now.latest };

    ghost refuses = { λ a fault b. (b.lock.ghost_name ≡ a.lock.ghost_name)
        × (b.lock.now.is_taken ≡ false) };

    ghost gives = { λ a got b. (b.lock.ghost_name ≡ a.lock.ghost_name)
        × (b.lock.now.is_taken ≡ true) };

    ghost refuses_again = { Prim.search rules };

    ghost gives_at_last = { Prim.search rules };

    fn attempt(&mut self) -> Result<(), u64> {
        let number = self.lock.tries;
        self.lock.tries += 1;
        if number < self.lock.free_after {
            self.lock.latest = Some(number);
            return Err(number);
        }
        self.lock.latest = None;
        self.lock.is_taken = true;
        Ok(())
    }
}

#[test]
fn it_waits_until_the_lock_is_free(rt: HostRuntime) {
    let mut lock = Lock::free_after(3);
    wait(&rt, &mut Taking { lock: &mut lock });
    assert_eq!(rt; lock.tries, 4);
    assert!(rt; lock.is_taken);
}

#[test]
fn it_is_late_at_its_deadline(rt: HostRuntime) -> Result<(), AllocError> {
    let mut lock = Lock::free_after(9);
    let mut clock = ListClock::new(vec![in rt.alloc(); 0, 3, 5]?);
    let answer = wait_until(&rt, &mut Taking { lock: &mut lock }, &mut clock, 5);
    let late = Late {
        now: 5,
        deadline: 5,
        fault: 2,
    };
    assert_eq!(rt; answer, Err(late));
    assert_eq!(rt; lock.tries, 3);
    Ok(())
}

#[test]
fn a_free_lock_is_taken_past_the_deadline_too(rt: HostRuntime) -> Result<(), AllocError> {
    let mut lock = Lock::free_after(0);
    let mut clock = ListClock::new(vec![in rt.alloc(); 7, 8]?);
    let answer = wait_until(&rt, &mut Taking { lock: &mut lock }, &mut clock, 0);
    assert_eq!(rt; answer, Ok(()));
    assert_eq!(rt; clock.now(), 7, "the clock was asked");
    Ok(())
}

// The clock falls back below the deadline and jumps past it.
#[test]
fn a_clock_may_fall_and_jump(rt: HostRuntime) -> Result<(), AllocError> {
    let mut clock = ListClock::new(vec![in rt.alloc(); 7, 1, 6, 90, 2]?);
    let mut lock = Lock::free_after(2);
    let answer = wait_until(&rt, &mut Taking { lock: &mut lock }, &mut clock, 8);
    assert_eq!(rt; answer, Ok(()));
    let mut lock = Lock::free_after(9);
    let answer = wait_until(&rt, &mut Taking { lock: &mut lock }, &mut clock, 8);
    let late = Late {
        now: 90,
        deadline: 8,
        fault: 1,
    };
    assert_eq!(rt; answer, Err(late));
    Ok(())
}
