//! Rounds at the distributed lock, of one pass or of two side by side.
ghost use Rattle.std.specs.Prelude.{◌≡◌, ◌*◌, ◌≤◌};
ghost use Rattle.dist_mutex.specs.Passes.{combine_of};
ghost use Rattle.lock_rounds.specs.Clerks.{HasListed, IsReady, MayPost};
ghost use Rattle.lock_rounds.specs.declared.plan.TheConstants.{MOST_ROUNDS};

use crate::jobs::{Add, Clerk, Desk};
use std::sync::Wait;
use std::thread::{Threads, join_mut};

/// Posts a job in each round. It runs once, by whichever pass owns the lock.
pub fn post_all<R: Wait>(rt: &R, desk: &Desk, clerk: &mut Clerk, rounds: u64)
    requires { MayPost rounds desk.now clerk.old }
    ensures { HasListed rounds desk.now clerk.old clerk.new }
{
    for _ in 0..rounds {
        let _answer = desk.lock_combine(rt, clerk, Add);
    }
}

/// Two passes post jobs side by side.
pub fn post_both<R: Threads + Wait + Sync>(
    rt: &R,
    desk: &Desk,
    one: &mut Clerk,
    other: &mut Clerk,
    rounds: u64,
)
    requires one { MayPost rounds desk.now one.old }
    requires other { MayPost rounds desk.now other.old }
    ensures one { HasListed rounds desk.now one.old one.new }
    ensures other { HasListed rounds desk.now other.old other.new }
{
    join_mut(
        rt,
        &mut || post_all(rt, desk, one, rounds),
        &mut || post_all(rt, desk, other, rounds),
    );
}

/// Takes the lock and gives it up in each round. It returns how many jobs of others the pass ran as it gave it up.
pub fn own_all<R: Wait>(rt: &R, desk: &Desk, clerk: &mut Clerk, rounds: u64) -> u64
    requires ready { IsReady desk.now clerk.old }
    requires rounds { rounds ≤ MOST_ROUNDS }
    ensures listed { HasListed 0 desk.now clerk.old clerk.new }
    ensures combined { result ≤ rounds * combine_of desk.now }
{
    let mut combined = 0;
    for _ in 0..rounds {
        let owner = desk.lock(rt, clerk);
        combined += u64::from(desk.unlock(clerk, owner).combined);
    }
    combined
}

/// One pass takes the lock and gives it up, and another posts jobs beside it. It returns what [`own_all`] does.
pub fn own_beside<R: Threads + Wait + Sync>(
    rt: &R,
    desk: &Desk,
    owner: &mut Clerk,
    other: &mut Clerk,
    rounds: u64,
) -> u64
    requires owner { IsReady desk.now owner.old }
    requires other { MayPost rounds desk.now other.old }
    requires rounds { rounds ≤ MOST_ROUNDS }
    ensures owner { HasListed 0 desk.now owner.old owner.new }
    ensures other { HasListed rounds desk.now other.old other.new }
    ensures combined { result ≤ rounds * combine_of desk.now }
{
    let (combined, ()) = join_mut(
        rt,
        &mut || own_all(rt, desk, owner, rounds),
        &mut || post_all(rt, desk, other, rounds),
    );
    combined
}
