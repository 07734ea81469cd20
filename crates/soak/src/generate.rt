//! The script of a soak.
ghost use Rattle.std.specs.Prelude.{◌≡◌, ◌≤◌, ◌<◌, ◌++◌, ◌∷◌, [], IfOk, OnOk};
ghost use Rattle.query_rules.specs.Soak.{soak_from, share, soak_script};
ghost use Rattle.query_rules.specs.Soak as rules;
ghost use Rattle.query_rules.specs.declared.query.TheConstants.{MOST_QUERIES};

use ql_base::NoMemory;
use query_text::{Callers, Query, Script};
use std::alloc::Global;

const CELLS: u64 = 8;

const CALLERS: u64 = 4;

/// The script of a soak of `count` queries, at most `MOST_QUERIES`, which four callers ask in turn.
pub fn make_soak(alloc: Global, count: u64) -> Result<Script, NoMemory>
    requires { count ≤ MOST_QUERIES }
    ensures { IfOk result (λ script. script ≡ soak_script count) }
{
    let mut callers = Callers::new(alloc);
    for caller in 0..CALLERS {
        add_caller(&mut callers, count, caller)?;
    }
    Ok(Script::of(CELLS, callers))
}

// Adds a caller with its share of the queries: every fourth one, beginning with its own number.
fn add_caller(callers: &mut Callers, count: u64, caller: u64) -> Result<(), NoMemory>
    requires count { count ≤ MOST_QUERIES }
    requires caller { caller < 4 }
    ensures { OnOk result (callers.new ≡ callers.old ++ soak_from caller 0 (share count caller) ∷ []) }
{
    callers.add_caller()?;
    let share = (count + 3 - caller) / CALLERS;
    for a in 0..share {
        callers.add_query(soak_query(CALLERS * a + caller))?;
    }
    Ok(())
}

// The query with this number among those of all callers.
fn soak_query(j: u64) -> Query
    requires { j < MOST_QUERIES }
    ensures { result ≡ rules.soak_query j }
{
    let a = j / CALLERS;
    let caller = j % CALLERS;
    let cell = (a / 4 + caller) % CELLS;
    let key = (a * 5 + caller) % 16;
    match a % 4 {
        0 => Query::Get { cell, key },
        1 => Query::Add {
            cell,
            key,
            delta: 1 + j % 7,
        },
        2 => Query::Len { cell },
        _ => Query::Give { key, n: 1 },
    }
}
