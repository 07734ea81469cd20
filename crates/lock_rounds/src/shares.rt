//! Rounds at the shared lock, on one thread or side by side.
ghost use Rattle.std.specs.Prelude.{◌≡◌, ◌+◌, ◌*◌, ◌^◌, ◌<◌, ◌≤◌, ℕ, IfOk};
ghost use Rattle.std.specs.Thread.{IsSync};
ghost use Rattle.lock_rounds.specs.Outside.{HasDone, IsOutside};
ghost use Rattle.lock_rounds.specs.Seats.{AllOutside};
ghost use Rattle.lock_rounds.specs.Tallies.{came_in};
ghost use Rattle.lock_rounds.specs.Works.{act_in, readers_in, reads_of, threads_in, IsLayout};
ghost use Rattle.lock_rounds.specs.declared.plan.TheConstants.{MOST_ROUNDS};

use crate::holds::{raise, read, write};
use crate::plan::{Act, Crowd, Layout, MOST_THREADS, Turn};
use crate::tally::Tally;
use hall::{Hall, NoCargo, NoMemory, Pass, Policy};
use std::alloc::Global;
use std::sync::Wait;
use std::thread::{Threads, join_mut};

// One round of one thread. A reader is counted.
fn play_round<R: Wait>(
    rt: &R,
    hall: &Hall<NoCargo>,
    pass: &mut Pass<NoCargo>,
    act: Act,
    tally: &mut Tally,
)
    requires outside { IsOutside hall.now pass.old }
    requires room { came_in tally.old + 1 < 2 ^ 64 }
    ensures outside { IsOutside hall.now pass.new }
    ensures done { HasDone act pass.new }
    ensures counted { came_in tally.new ≡ came_in tally.old + readers_in act }
{
    match act {
        Act::Read => tally.note(read(rt, hall, pass)),
        Act::Write => write(rt, hall, pass),
        Act::Raise => raise(rt, hall, pass),
    }
}

// The rounds of one thread. However many there are, the last one did what it should.
fn play<R: Wait>(
    rt: &R,
    hall: &Hall<NoCargo>,
    pass: &mut Pass<NoCargo>,
    turn: Turn,
    rounds: u64,
) -> Tally
    requires outside { IsOutside hall.now pass.old }
    requires rounds { rounds ≤ MOST_ROUNDS }
    ensures outside { IsOutside hall.now pass.new }
    ensures last { (n : ℕ) → rounds ≡ n + 1 → HasDone (act_in turn n) pass.new }
    ensures reads { came_in result ≡ reads_of turn rounds }
{
    let mut tally = Tally::default();
    for round in 0..rounds {
        play_round(rt, hall, pass, turn.act(round), &mut tally);
    }
    tally
}

// The rounds of two threads side by side.
fn play_both<R: Threads + Wait + Sync>(
    rt: &R,
    hall: &Hall<NoCargo>,
    one: &mut Pass<NoCargo>,
    other: &mut Pass<NoCargo>,
    turn: Turn,
    rounds: u64,
) -> Tally
    requires one { IsOutside hall.now one.old }
    requires other { IsOutside hall.now other.old }
    requires rounds { rounds ≤ MOST_ROUNDS }
    ensures one { IsOutside hall.now one.new }
    ensures other { IsOutside hall.now other.new }
    ensures reads { came_in result ≡ 2 * reads_of turn rounds }
{
    let (left, right) = join_mut(
        rt,
        &mut || play(rt, hall, one, turn, rounds),
        &mut || play(rt, hall, other, turn, rounds),
    );
    left.and(right)
}

/// A pass for each of four threads.
#[derive(Drop)]
pub struct Seats {
    pub zero: Pass<NoCargo>,
    pub one: Pass<NoCargo>,
    pub two: Pass<NoCargo>,
    pub three: Pass<NoCargo>,
}

// A hall of one lock under write priority, laid out so.
fn seat(alloc: Global, layout: Layout) -> Result<(Hall<NoCargo>, Seats), NoMemory>
    requires { IsLayout layout }
    ensures { IfOk result (λ made. AllOutside made.0 made.1) }
{
    let Layout { slots, apart } = layout;
    let numbers = MOST_THREADS * apart;
    let (hall, mut zero) = Hall::make(alloc, 1, slots, Policy::WritePriority, numbers, 0, NoCargo)?;
    let three = hall.split(&mut zero, apart, 0);
    let two = hall.split(&mut zero, apart, 0);
    let one = hall.split(&mut zero, apart, 0);
    let seats = Seats {
        zero,
        one,
        two,
        three,
    };
    Ok((hall, seats))
}

// The rounds of a crowd.
fn play_all<R: Threads + Wait + Sync>(
    rt: &R,
    hall: &Hall<NoCargo>,
    seats: &mut Seats,
    crowd: Crowd,
    turn: Turn,
    rounds: u64,
) -> Tally
    requires outside { AllOutside hall.now seats.old }
    requires rounds { rounds ≤ MOST_ROUNDS }
    ensures outside { AllOutside hall.now seats.new }
    ensures reads { came_in result ≡ threads_in crowd * reads_of turn rounds }
{
    let Seats {
        zero,
        one,
        two,
        three,
    } = seats;
    match crowd {
        Crowd::One => play(rt, hall, zero, turn, rounds),
        Crowd::Two => play_both(rt, hall, zero, one, turn, rounds),
        Crowd::Four => {
            let (front, back) = join_mut(
                rt,
                &mut ||
                    requires { IsSync R.row × IsOutside hall.now zero.now × IsOutside hall.now one.now × (rounds ≤ MOST_ROUNDS) }
                    ensures { IsOutside hall.entry.now zero.exit.now × IsOutside hall.entry.now one.exit.now × (came_in result ≡ 2 * reads_of turn rounds) }
                { play_both(rt, hall, zero, one, turn, rounds) },
                &mut ||
                    requires { IsSync R.row × IsOutside hall.now two.now × IsOutside hall.now three.now × (rounds ≤ MOST_ROUNDS) }
                    ensures { IsOutside hall.entry.now two.exit.now × IsOutside hall.entry.now three.exit.now × (came_in result ≡ 2 * reads_of turn rounds) }
                { play_both(rt, hall, two, three, turn, rounds) },
            );
            front.and(back)
        }
    }
}

/// Lets so many threads do so many rounds each at one lock, under write priority, whose hall is laid out so. It
/// returns how the readers came in. The hall is what takes memory.
pub fn share<R: Threads + Wait + Sync>(
    rt: &R,
    alloc: Global,
    crowd: Crowd,
    turn: Turn,
    rounds: u64,
    layout: Layout,
) -> Result<Tally, NoMemory>
    requires rounds { rounds ≤ MOST_ROUNDS }
    requires layout { IsLayout layout }
    ensures reads { IfOk result (λ tally. came_in tally ≡ threads_in crowd * reads_of turn rounds) }
{
    let (hall, mut seats) = seat(alloc, layout)?;
    Ok(play_all(rt, &hall, &mut seats, crowd, turn, rounds))
}
