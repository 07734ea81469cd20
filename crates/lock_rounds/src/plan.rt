//! What a run does, from the program's words.
ghost use Rattle.std.specs.Prelude.{◌≡◌, ◌≤◌, ℕ, decimal, IfSome};
ghost use Rattle.lock_rounds.specs.Works.{act_in, threads_in, work_named, IsFirstWord, IsRunnable};

use hall::MOST_SLOTS;

/// The most threads that the program starts.
pub const MOST_THREADS: u64 = 4;

/// The most rounds of each thread.
pub const MOST_ROUNDS: u64 = 100_000_000;

/// The most numbers from a thread's seat to the next thread's.
pub const MOST_APART: u64 = 64;

/// The most jobs of others that an owner runs as it gives the distributed lock up, where it runs any.
pub const MOST_COMBINED: u32 = 64;

/// What a thread does in a round at the shared lock.
#[derive(Clone, Copy)]
pub enum Act {
    /// It reads.
    Read,
    /// It writes.
    Write,
    /// It takes the lock in upgrade mode, goes on to an exclusive hold, and writes.
    Raise,
}

/// What each thread does in its rounds at the shared lock.
#[derive(Clone, Copy)]
pub enum Turn {
    Reads,
    /// One of twenty rounds writes, the first among them; the others read.
    Reads95,
    /// Every other round writes, the first among them; the others read.
    Reads50,
    Writes,
    Upgrades,
}

impl Turn {
    /// What is done in this round, counted from 0.
    pub fn act(self, round: u64) -> Act
        ensures { result ≡ act_in self round }
    {
        match self {
            Turn::Reads95 if round % 20 != 0 => Act::Read,
            Turn::Reads50 if round % 2 != 0 => Act::Read,
            Turn::Reads => Act::Read,
            Turn::Reads95 | Turn::Reads50 | Turn::Writes => Act::Write,
            Turn::Upgrades => Act::Raise,
        }
    }
}

/// At which lock the threads do their rounds, and what.
#[derive(Clone, Copy)]
pub enum Work {
    /// At the shared lock.
    Shares(Turn),
    /// At the distributed lock: each thread posts a short job in each round. An owner runs at most `most` of others'.
    Jobs { most: u32 },
    /// At the distributed lock too: the first thread takes it and gives it up in each round, and the others post jobs.
    Owners { most: u32 },
}

impl Work {
    /// The work of this name.
    pub fn named(name: &str) -> Option<Work>
        ensures { result ≡ work_named name.now }
    {
        match name {
            "reads" => Some(Work::Shares(Turn::Reads)),
            "reads95" => Some(Work::Shares(Turn::Reads95)),
            "reads50" => Some(Work::Shares(Turn::Reads50)),
            "writes" => Some(Work::Shares(Turn::Writes)),
            "upgrades" => Some(Work::Shares(Turn::Upgrades)),
            "jobs0" => Some(Work::Jobs { most: 0 }),
            "jobs64" => Some(Work::Jobs {
                most: MOST_COMBINED,
            }),
            "owners64" => Some(Work::Owners {
                most: MOST_COMBINED,
            }),
            _ => None,
        }
    }
}

/// How many threads there are.
#[derive(Clone, Copy)]
pub enum Crowd {
    One,
    Two,
    Four,
}

impl Crowd {
    fn of(threads: u64) -> Option<Crowd>
        ensures { IfSome result (λ crowd. threads_in crowd ≡ threads) }
    {
        match threads {
            1 => Some(Crowd::One),
            2 => Some(Crowd::Two),
            4 => Some(Crowd::Four),
            _ => None,
        }
    }
}

/// How the hall of the shared lock is laid out.
#[derive(Clone, Copy)]
pub struct Layout {
    /// The slots for readers that defer, 1 to `MOST_SLOTS`.
    pub slots: u64,
    /// How far a thread's number is from the next thread's, 1 to `MOST_APART`. A seat tries the slots from twice its
    /// number on.
    pub apart: u64,
}

/// What a run of the program does.
#[derive(Clone, Copy)]
pub struct Plan {
    pub work: Work,
    pub crowd: Crowd,
    /// The rounds of each thread, 1 to `MOST_ROUNDS`.
    pub rounds: u64,
    pub layout: Layout,
}

// A number from 1 to `most`, in decimal.
fn number(word: &str, most: u64) -> Option<u64>
    ensures within { IfSome result (λ n. (1 ≤ n) × (n ≤ most)) }
    ensures told { (n : ℕ) → word.now ≡ decimal n → 1 ≤ n → n ≤ most → result ≡ Some n }
{
    match word.parse::<u64>() {
        Ok(number) if 1 <= number && number <= most => Some(number),
        _ => None,
    }
}

impl Plan {
    /// The plan that these words tell: a work, the threads, the rounds of each, the slots, and how far the threads'
    /// numbers are apart, 1 where that isn't told. `None` where they tell none.
    pub fn of(words: &[String]) -> Option<Plan>
        ensures runnable { IfSome result IsRunnable }
        ensures work { IfSome result (λ plan. IsFirstWord words.now plan.work) }
    {
        let (work, threads, rounds, slots, apart) = match words {
            [work, threads, rounds, slots] => (work, threads, rounds, slots, Some(1)),
            [work, threads, rounds, slots, apart] => {
                (work, threads, rounds, slots, number(apart, MOST_APART))
            }
            _ => return None,
        };
        Some(Plan {
            work: Work::named(work)?,
            crowd: Crowd::of(number(threads, MOST_THREADS)?)?,
            rounds: number(rounds, MOST_ROUNDS)?,
            layout: Layout {
                slots: number(slots, MOST_SLOTS)?,
                apart: apart?,
            },
        })
    }
}
