//! The distributed lock with a pass for each thread that there may be, and the rounds of a crowd at it.
ghost use Rattle.std.specs.Prelude.{◌≡◌, ◌+◌, ◌*◌, ◌≤◌, IfOk};
ghost use Rattle.std.specs.Thread.{IsSync};
ghost use Rattle.dist_mutex.specs.Passes.{combine_of};
ghost use Rattle.lock_rounds.specs.Clerks.{HasListed, IsReady, MayPost};
ghost use Rattle.lock_rounds.specs.Office.{IsStaffed, HasQuotas, jobs_listed};
ghost use Rattle.lock_rounds.specs.Works.{threads_in};
ghost use Rattle.lock_rounds.specs.declared.plan.TheConstants.{MOST_ROUNDS};

use crate::clerks::{own_all, own_beside, post_all, post_both};
use crate::jobs::{Clerk, Counter, Desk};
use crate::plan::{Crowd, MOST_ROUNDS, MOST_THREADS};
use std::alloc::{AllocError, Global};
use std::sync::Wait;
use std::thread::{Threads, join_mut};

/// A distributed lock, and a pass for each of four threads.
pub struct Office {
    pub desk: Desk,
    pub zero: Clerk,
    pub one: Clerk,
    pub two: Clerk,
    pub three: Clerk,
}

impl Office {
    // A new lock, whose owners run at most `most` jobs of others each time.
    fn open(alloc: Global, most: u32) -> Result<Office, AllocError>
        ensures staffed { IfOk result IsStaffed }
        ensures quotas { IfOk result HasQuotas }
        ensures none { IfOk result (λ office. jobs_listed office ≡ 0) }
        ensures most { IfOk result (λ office. combine_of office.desk ≡ most) }
    {
        let jobs = MOST_THREADS * MOST_ROUNDS;
        let counter = Counter {
            count: 0,
            left: jobs,
        };
        let (desk, mut zero) = Desk::make(alloc, MOST_THREADS, jobs, most, counter)?;
        let three = desk.split(&mut zero, 1, MOST_ROUNDS);
        let two = desk.split(&mut zero, 1, MOST_ROUNDS);
        let one = desk.split(&mut zero, 1, MOST_ROUNDS);
        Ok(Office {
            desk,
            zero,
            one,
            two,
            three,
        })
    }

    // Joins the passes, closes the lock, and returns how many jobs ran on its value.
    fn close(self) -> u64
        requires { IsStaffed self }
        ensures { result ≡ jobs_listed self }
    {
        let Office {
            desk,
            mut zero,
            one,
            two,
            three,
        } = self;
        desk.join(&mut zero, one);
        desk.join(&mut zero, two);
        desk.join(&mut zero, three);
        let (kept, _retired) = desk.close(zero);
        kept.unwrap().ran
    }
}

// Each thread posts jobs.
fn post<R: Threads + Wait + Sync>(rt: &R, office: &mut Office, crowd: Crowd, rounds: u64)
    requires staffed { IsStaffed office.old × HasQuotas office.old }
    requires rounds { rounds ≤ MOST_ROUNDS }
    ensures staffed { IsStaffed office.new }
    ensures listed { jobs_listed office.new ≡ jobs_listed office.old + threads_in crowd * rounds }
{
    let Office {
        desk,
        zero,
        one,
        two,
        three,
    } = office;
    let desk = &*desk;
    match crowd {
        Crowd::One => post_all(rt, desk, zero, rounds),
        Crowd::Two => post_both(rt, desk, zero, one, rounds),
        Crowd::Four => {
            join_mut(
                rt,
                &mut ||
                    requires { IsSync R.row × MayPost rounds desk.now zero.now × MayPost rounds desk.now one.now }
                    ensures { HasListed rounds desk.entry.now zero.entry.now zero.exit.now × HasListed rounds desk.entry.now one.entry.now one.exit.now }
                { post_both(rt, desk, zero, one, rounds) },
                &mut ||
                    requires { IsSync R.row × MayPost rounds desk.now two.now × MayPost rounds desk.now three.now }
                    ensures { HasListed rounds desk.entry.now two.entry.now two.exit.now × HasListed rounds desk.entry.now three.entry.now three.exit.now }
                { post_both(rt, desk, two, three, rounds) },
            );
        }
    }
}

// The first thread takes the lock and gives it up, and the others post jobs.
fn own<R: Threads + Wait + Sync>(rt: &R, office: &mut Office, crowd: Crowd, rounds: u64) -> u64
    requires staffed { IsStaffed office.old × HasQuotas office.old }
    requires rounds { rounds ≤ MOST_ROUNDS }
    ensures staffed { IsStaffed office.new }
    ensures combined { result ≤ rounds * combine_of office.old.desk }
{
    let Office {
        desk,
        zero,
        one,
        two,
        three,
    } = office;
    let desk = &*desk;
    match crowd {
        Crowd::One => own_all(rt, desk, zero, rounds),
        Crowd::Two => own_beside(rt, desk, zero, one, rounds),
        Crowd::Four => {
            let (combined, ()) = join_mut(
                rt,
                &mut ||
                    requires { IsSync R.row × IsReady desk.now zero.now × MayPost rounds desk.now one.now × (rounds ≤ MOST_ROUNDS) }
                    ensures { HasListed 0 desk.entry.now zero.entry.now zero.exit.now × HasListed rounds desk.entry.now one.entry.now one.exit.now × (result ≤ rounds * combine_of desk.entry.now) }
                { own_beside(rt, desk, zero, one, rounds) },
                &mut ||
                    requires { IsSync R.row × MayPost rounds desk.now two.now × MayPost rounds desk.now three.now }
                    ensures { HasListed rounds desk.entry.now two.entry.now two.exit.now × HasListed rounds desk.entry.now three.entry.now three.exit.now }
                { post_both(rt, desk, two, three, rounds) },
            );
            combined
        }
    }
}

/// Lets each of so many threads post so many jobs at a lock whose owners run at most `most` jobs of others each time,
/// and returns how many jobs ran on its value. The lock is what takes memory.
pub fn run_jobs<R: Threads + Wait + Sync>(
    rt: &R,
    alloc: Global,
    crowd: Crowd,
    most: u32,
    rounds: u64,
) -> Result<u64, AllocError>
    requires { rounds ≤ MOST_ROUNDS }
    ensures { IfOk result (λ ran. ran ≡ threads_in crowd * rounds) }
{
    let mut office = Office::open(alloc, most)?;
    post(rt, &mut office, crowd, rounds);
    Ok(office.close())
}

/// Lets the first thread take and give up such a lock in each of so many rounds, while each other thread posts so many
/// jobs. It returns how many jobs of others the first thread ran. How many there are depends on the schedule.
pub fn run_owners<R: Threads + Wait + Sync>(
    rt: &R,
    alloc: Global,
    crowd: Crowd,
    most: u32,
    rounds: u64,
) -> Result<u64, AllocError>
    requires { rounds ≤ MOST_ROUNDS }
    ensures { IfOk result (λ combined. combined ≤ rounds * most) }
{
    let mut office = Office::open(alloc, most)?;
    let combined = own(rt, &mut office, crowd, rounds);
    office.close();
    Ok(combined)
}
