//! Three jobs behind an owner that gives the lock up: in each order of arrival, at each limit, as values and as
//! closures, and with large answers.
ghost use Rattle.std.specs.Prelude.{◌≡◌, ◌≤◌};

use crate::mutex::DistMutex;
use crate::owner::{Next, Released};
use crate::tests::{
    Account, Order, Refusal, an_account, closed, find_taken, own, settle, three_clerks, wait_with,
};
use combine_job::job::{Job, Room};
use combine_job::once::OnceJob;
use combine_job::parcel::{JobAnswer, Kept};
use std::process::Abort;
use std::sync::Wait;
use std::test::Fail;

/// How it went with three jobs. The first that came is the last that ran.
#[derive(Drop)]
struct Course<V: Room, J: Job<V>> {
    released: Released,
    first: JobAnswer<J::Out, J::Fault>,
    second: JobAnswer<J::Out, J::Fault>,
    third: JobAnswer<J::Out, J::Fault>,
    kept: Kept<V>,
}

// Nodes 1, 2 and 3 post these jobs in this order while node 0 owns the lock, and node 0 gives it up.
fn three_jobs<R: Abort + AllocGlobal + Wait, V: Room, J: Job<V>>(
    rt: &R,
    combine: u32,
    value: V,
    jobs: (J, J, J),
) -> Result<Course<V, J>, Fail>
    requires room { 3 ≤ V.rooms value }
    requires ready { J.is_ready jobs.0 × J.is_ready jobs.1 × J.is_ready jobs.2 }
{
    let (lock, mut zero) = DistMutex::<V, J>::make(rt.alloc(), 4, 3, combine, value)?;
    let (mut one, mut two, mut three) = three_clerks(&lock, &mut zero, 1);
    let owner = own(rt, &lock, &mut zero);
    find_taken(rt, &lock, &mut one);
    let (job_one, job_two, job_three) = jobs;
    wait_with(rt, &lock, &mut one, job_one);
    wait_with(rt, &lock, &mut two, job_two);
    wait_with(rt, &lock, &mut three, job_three);
    let released = lock.unlock(&mut zero, owner);
    let third = settle(rt, &lock, &mut three);
    let second = settle(rt, &lock, &mut two);
    let first = settle(rt, &lock, &mut one);
    lock.join(&mut zero, one);
    lock.join(&mut zero, two);
    lock.join(&mut zero, three);
    let kept = closed(rt, lock, zero);
    Ok(Course {
        released,
        first,
        second,
        third,
        kept,
    })
}

// How many jobs the unlock ran, and the node that it made the owner, or 0 where the lock is free.
fn ended(released: Released) -> (u32, u64) {
    match released.next {
        Next::Free => (released.combined, 0),
        Next::Plain(_node) => (released.combined, 9),
        Next::Spent(node) => (released.combined, node),
        Next::Unlinked(_node) => (released.combined, 9),
    }
}

fn order(which: u64) -> Order {
    match which {
        0 => Order::Take(4),
        1 => Order::Take(100),
        _ => Order::Give(10),
    }
}

type Said = Result<u64, Refusal>;

/// Which order the nodes 1, 2 and 3 post, what they are answered, and the balance at the end.
#[derive(Clone, Copy)]
struct Case {
    orders: (u64, u64, u64),
    said: (Said, Said, Said),
    balance: u64,
}

fn arrive(orders: (u64, u64, u64), said: (Said, Said, Said), balance: u64) -> Case {
    Case {
        orders,
        said,
        balance,
    }
}

// Each order of arrival. Node 3's order runs on an empty account, then node 2's and node 1's.
fn arrival(which: u64) -> Case {
    let poor = Err(Refusal::Short(0));
    let short = Err(Refusal::Short(10));
    match which {
        0 => arrive((0, 1, 2), (Ok(6), short, Ok(10)), 6),
        1 => arrive((0, 2, 1), (Ok(6), Ok(10), poor), 6),
        2 => arrive((1, 0, 2), (Err(Refusal::Short(6)), Ok(6), Ok(10)), 6),
        3 => arrive((1, 2, 0), (short, Ok(10), poor), 10),
        4 => arrive((2, 0, 1), (Ok(10), poor, poor), 10),
        _ => arrive((2, 1, 0), (Ok(10), poor, poor), 10),
    }
}

#[test]
fn three_orders_run_newest_first_up_to_the_limit(rt: HostRuntime) -> Result<(), Fail> {
    for which in 0..6u64 {
        let case = arrival(which);
        for (limit, ran, owner) in [(0, 0, 3), (1, 1, 2), (2, 2, 1), (64, 3, 0)] {
            let (one, two, three) = case.orders;
            let jobs = (order(one), order(two), order(three));
            let course = three_jobs(&rt, limit, an_account(3), jobs)?;
            assert!(rt; ended(course.released) == (ran, owner));
            assert!(rt; course.third.at == 0 && course.second.at == 1 && course.first.at == 2);
            assert!(rt; course.first.result == case.said.0);
            assert!(rt; course.second.result == case.said.1 && course.third.result == case.said.2);
            assert!(rt; course.kept.ran == 3 && course.kept.value.balance == case.balance);
        }
    }
    Ok(())
}

#[test]
fn closures_of_one_type_give_the_same_answers(rt: HostRuntime) -> Result<(), Fail> {
    for which in 0..6u64 {
        let case = arrival(which);
        let (one, two, three) = case.orders;
        let job = |which: u64| OnceJob::new(move |account: &mut Account| order(which).run(account));
        let course = three_jobs(&rt, 64, an_account(3), (job(one), job(two), job(three)))?;
        assert!(rt; ended(course.released) == (3, 0));
        assert!(rt; course.first.result == case.said.0);
        assert!(rt; course.second.result == case.said.1 && course.third.result == case.said.2);
        assert!(rt; course.kept.value.balance == case.balance);
    }
    Ok(())
}

/// A number on each of 128 lines.
#[derive(Drop)]
struct Sheet {
    lines: [u64; 128],
}

/// Asks for a sheet with this number on each line, or to be refused with one.
#[derive(Drop)]
struct Print {
    number: u64,
    refused: bool,
}

impl Job<Account> for Print {
    type Out = Sheet;

    type Fault = Sheet;

    ghost means = { λ v j r w. w.left ≡ v.left };

    ghost is_ready = { λ j. Unit {0} };

    fn run(self, _value: &mut Account) -> Result<Sheet, Sheet> {
        let sheet = Sheet {
            lines: [self.number; 128],
        };
        if self.refused { Err(sheet) } else { Ok(sheet) }
    }
}

fn sheet_job(number: u64, refused: bool) -> Print {
    Print { number, refused }
}

// The number on the sheet, and whether it was refused. No line has another number.
fn read(answer: &JobAnswer<Sheet, Sheet>) -> Option<(u64, bool)> {
    let (sheet, refused) = match &answer.result {
        Ok(sheet) => (sheet, false),
        Err(sheet) => (sheet, true),
    };
    let number = sheet.lines[0];
    for line in sheet.lines.iter() {
        if *line != number {
            return None;
        }
    }
    Some((number, refused))
}

#[test]
fn large_answers_come_whole_to_their_own_clerks(rt: HostRuntime) -> Result<(), Fail> {
    for limit in [0, 1, 64] {
        let jobs = (sheet_job(7, false), sheet_job(8, true), sheet_job(9, false));
        let course = three_jobs(&rt, limit, an_account(3), jobs)?;
        assert!(rt; read(&course.first) == Some((7, false)));
        assert!(rt; read(&course.second) == Some((8, true)));
        assert!(rt; read(&course.third) == Some((9, false)));
    }
    Ok(())
}
