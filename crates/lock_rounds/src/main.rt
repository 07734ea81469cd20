//! `lock_rounds WORK THREADS ROUNDS SLOTS [APART]`: runs the locks by themselves. Each of 1, 2 or 4 threads does so
//! many rounds of work at one lock, and the program prints how its readers came in, how many jobs ran, or how many an
//! owner ran for others. `bench/locks` measures it.
//!
//! | Module | What it has |
//! |---|---|
//! | `plan` | what the words ask for |
//! | `holds`, `shares`, `tally` | the shared lock: one round, the rounds of a crowd, how its readers came in |
//! | `jobs`, `clerks`, `office` | the distributed lock: the jobs, the rounds of a pass, those of a crowd |
#![tactic(auto)]

mod clerks;
mod holds;
mod jobs;
mod office;
mod plan;
mod shares;
mod tally;
#[cfg(test)]
mod tests;

use crate::office::{run_jobs, run_owners};
use crate::plan::{Plan, Work};
use crate::shares::share;
use std::alloc::AllocError;
use std::env::Env;
use std::process::ExitCode;
use std::{env, io};

const USAGE: &str =
    "lock_rounds reads|reads95|reads50|writes|upgrades|jobs0|jobs64|owners64 THREADS ROUNDS SLOTS [APART]";

/// The status where the words tell no plan.
const NO_PLAN: u8 = 2;

// The words after the program's name.
fn words<R: Env + AllocGlobal>(rt: &R) -> io::Result<Vec<String>> {
    let mut words = Vec::new(rt.alloc());
    for (i, word) in env::args(rt)?.enumerate() {
        if i > 0 {
            words.push(word).map_err(AllocError::from)?;
        }
    }
    Ok(words)
}

fn main(rt: HostRuntime) -> io::Result<ExitCode> {
    let words = words(&rt)?;
    let Some(plan) = Plan::of(&words) else {
        println!(rt; "{USAGE}")?;
        return Ok(ExitCode::from(NO_PLAN));
    };
    let Plan {
        work,
        crowd,
        rounds,
        layout,
    } = plan;
    match work {
        Work::Shares(turn) => {
            let tally = share(&rt, rt.alloc(), crowd, turn, rounds, layout).map_err(
                |_| AllocError,
            )?;
            println!(rt; "deferred {} counted {}", tally.deferred, tally.counted)?;
        }
        Work::Jobs { most } => {
            let ran = run_jobs(&rt, rt.alloc(), crowd, most, rounds)?;
            println!(rt; "jobs {ran}")?;
        }
        Work::Owners { most } => {
            let combined = run_owners(&rt, rt.alloc(), crowd, most, rounds)?;
            println!(rt; "unlocks {rounds} combined {combined}")?;
        }
    }
    Ok(ExitCode::from(0))
}
