//! The top call.
ghost use Rattle.std.specs.Prelude.{◌≡◌, ◌+◌, ◌≤◌, ◌⊎◌, None, IfOk, IfSome, IfErr, IsErrOf, OnOk, IsSome, List, ℕ};
ghost use Rattle.std.specs.Io.KnownBytes.{Appends};
ghost use Rattle.ql_base.specs.Bytes.{AppendsFront, TakesUpTo};
ghost use Rattle.ql_base.specs.Causes.{Rose};
ghost use Rattle.script_laws.specs.Spelling.{IsWritable};
ghost use Rattle.query_rules.specs.declared.query.Reply.{Reply};
ghost use Rattle.query_rules.specs.History.{IsHistory};
ghost use Rattle.query_rules.specs.Log.{IsLogOf};
ghost use Rattle.server_run.specs.Serve.{limit, run_in, soak_in, Reads, EndedAs, WritesOneHistory, WritesFront, WritesSoak, WritesSoakFront, TellsRefusal, WritesRefusal, WritesRefusalFront, Completes, Refuses};
ghost use Rattle.query_text.specs.Refusals.{refusal_text};
ghost use Rattle.query_text.specs.declared.refusal.Refusal.{Refusal};
ghost use Rattle.command_line.specs.Form.{IsWithinLimits, options_in};
ghost use Rattle.query_rules.specs.declared.query.TheConstants.{MOST_QUERIES};

use crate::ended::Ended;
use crate::order::order_of;
use crate::room::count_queries;
use crate::run::run_script;
use command_line::{Options, RunMode, WordsFault, check_words};
use ql_base::{Clocks, Gate, ReadFault, Sink, Source, read_to_end};
use query_text::{
    ParseFault, Refusal, Script, parse_script, write_packed_log, write_refusal, write_soak,
};
use soak::{make_soak, sum_up};
use soak_laws::a_soak_has_one_summary;
use std::alloc::Global;
use std::sync::Wait;
use std::thread::Threads;

/// The most bytes that a script may have.
const LIMIT: usize = 67_108_864;

const DONE: u8 = 0;

const USAGE: u8 = 2;

const REFUSED: u8 = 3;

const READ_FAULT: u8 = 4;

const WRITE_FAULT: u8 = 5;

const NO_MEMORY: u8 = 6;

// Why no script was read.
#[derive(Clone, Copy, Debug, PartialEq, Eq)]
enum ScriptFault {
    Read,
    Refused(Refusal),
    NoMemory,
}

// Why no log was written.
#[derive(Clone, Copy, Debug, PartialEq, Eq)]
enum LogFault {
    Write,
    NoMemory,
}

// Reads the source to its end, and the script that its bytes ask.
fn read_script<S: Source>(alloc: Global, source: &mut S) -> Result<Script, ScriptFault>
    ensures read { IfOk result (λ script. Reads (S.left source.old) (S.left source.new) script) }
    ensures refused { IfErr result (λ e. (r : Refusal) → e ≡ ScriptFault.Refused r → TellsRefusal (S.left source.old) (refusal_text r)) }
    ensures fault { IsErrOf result ScriptFault.Read → Rose (S.faults source.old) (S.faults source.new) }
    ensures counted { TakesUpTo (S.left source.old) (S.left source.new) (limit + 1) }
{
    let bytes = match read_to_end(alloc, source, LIMIT) {
        Ok(bytes) => bytes,
        Err(ReadFault::Fault) => return Err(ScriptFault::Read),
        Err(ReadFault::TooLong) => return Err(ScriptFault::Refused(Refusal::Length)),
        Err(ReadFault::NoMemory) => return Err(ScriptFault::NoMemory),
    };
    match parse_script(alloc, &bytes) {
        Ok(script) => Ok(script),
        Err(ParseFault::Refused { line, cause }) => {
            Err(ScriptFault::Refused(Refusal::Line { line, cause }))
        }
        Err(ParseFault::NoMemory) => Err(ScriptFault::NoMemory),
    }
}

// Asks the queries of a script, and writes the log.
fn answer<R: Threads + Wait + Sync, K: Sink, T: Clocks, G: Gate>(
    rt: &R,
    alloc: Global,
    script: &Script,
    options: &Options,
    sink: &mut K,
    clocks: &T,
    gate: &G,
    ended: &mut Ended,
) -> Result<(), LogFault>
    requires limits { IsWithinLimits options.now }
    requires script { IsWritable script.now }
    ensures written { OnOk result ((told : List (List Reply)) × (text : List ℕ) × IsLogOf script.now options.now.rows told text × IsHistory options.now.rows script.now.callers told × EndedAs script.now options.now told ended.new × Appends (K.written sink.old) (K.written sink.new) text) }
    ensures cut { IsErrOf result LogFault.Write → (told : List (List Reply)) × (text : List ℕ) × IsLogOf script.now options.now.rows told text × IsHistory options.now.rows script.now.callers told × EndedAs script.now options.now told ended.new × AppendsFront (K.written sink.old) (K.written sink.new) text }
    ensures fault { IsErrOf result LogFault.Write → Rose (K.faults sink.old) (K.faults sink.new) }
    ensures memory { IsErrOf result LogFault.NoMemory → (sink.new ≡ sink.old) × (ended.new ≡ ended.old) }
{
    let queries = count_queries(script.callers()) as usize;
    let Ok(spots) = Vec::with_capacity(alloc, queries) else {
        return Err(LogFault::NoMemory);
    };
    let Ok(ran) = run_script(rt, alloc, script, options, clocks, gate) else {
        return Err(LogFault::NoMemory);
    };
    *ended = ran.ended;
    let order = order_of(spots, &ran.outcome);
    match write_packed_log(sink, script, options.rows, &ran.outcome, &order) {
        Ok(()) => Ok(()),
        Err(_) => Err(LogFault::Write),
    }
}

// Tells a refusal.
fn refuse<K: Sink>(sink: &mut K, refusal: Refusal) -> u8
    ensures told { result ≡ 3 → Appends (K.written sink.old) (K.written sink.new) (refusal_text refusal) }
    ensures cut { result ≡ 5 → AppendsFront (K.written sink.old) (K.written sink.new) (refusal_text refusal) }
    ensures fault { result ≡ 5 → Rose (K.faults sink.old) (K.faults sink.new) }
    ensures known { (result ≡ 3) ⊎ (result ≡ 5) }
{
    match write_refusal(sink, refusal) {
        Ok(()) => REFUSED,
        Err(_) => WRITE_FAULT,
    }
}

// Reads a script, asks its queries, and writes the log, or tells why the script is refused.
fn serve_run<R: Threads + Wait + Sync, S: Source, K: Sink, T: Clocks, G: Gate>(
    rt: &R,
    alloc: Global,
    options: &Options,
    source: &mut S,
    sink: &mut K,
    clocks: &T,
    gate: &G,
    ended: &mut Ended,
) -> u8
    requires limits { IsWithinLimits options.now }
    ensures history { result ≡ 0 → WritesOneHistory (S.left source.old) (S.left source.new) (K.written sink.old) (K.written sink.new) options.now ended.new }
    ensures refused { result ≡ 3 → WritesRefusal (S.left source.old) (K.written sink.old) (K.written sink.new) }
    ensures read_fault { result ≡ 4 → Rose (S.faults source.old) (S.faults source.new) }
    ensures write_fault { result ≡ 5 → Rose (K.faults sink.old) (K.faults sink.new) }
    ensures cut { result ≡ 5 →
        WritesFront (S.left source.old) (S.left source.new) (K.written sink.old) (K.written sink.new) options.now ended.new
        ⊎ (WritesRefusalFront (S.left source.old) (K.written sink.old) (K.written sink.new) × (ended.new ≡ ended.old)) }
    ensures known { (result ≡ 0) ⊎ (result ≡ 3) ⊎ (result ≡ 4) ⊎ (result ≡ 5) ⊎ (result ≡ 6) }
    ensures complete { Completes (S.left source.old) (S.faults source.old) (S.faults source.new) (K.faults sink.old) (K.faults sink.new) result }
    ensures refuses { Refuses (S.left source.old) (S.faults source.old) (S.faults source.new) (K.faults sink.old) (K.faults sink.new) result }
    ensures silent { (result ≡ 4) ⊎ (result ≡ 6) → sink.new ≡ sink.old }
    ensures untouched { (result ≡ 3) ⊎ (result ≡ 4) ⊎ (result ≡ 6) → ended.new ≡ ended.old }
    ensures counted { TakesUpTo (S.left source.old) (S.left source.new) (limit + 1) }
{
    let script = match read_script(alloc, source) {
        Ok(script) => script,
        Err(ScriptFault::Read) => return READ_FAULT,
        Err(ScriptFault::Refused(refusal)) => return refuse(sink, refusal),
        Err(ScriptFault::NoMemory) => return NO_MEMORY,
    };
    match answer(rt, alloc, &script, options, sink, clocks, gate, ended) {
        Ok(()) => DONE,
        Err(LogFault::Write) => WRITE_FAULT,
        Err(LogFault::NoMemory) => NO_MEMORY,
    }
}

// Asks the queries of a soak, and writes what they came to.
fn serve_soak<R: Threads + Wait + Sync, K: Sink, T: Clocks, G: Gate>(
    rt: &R,
    alloc: Global,
    options: &Options,
    sink: &mut K,
    clocks: &T,
    gate: &G,
    ended: &mut Ended,
) -> u8
    requires limits { IsWithinLimits options.now }
    requires rows { options.now.rows ≡ 16 }
    requires count { options.now.count ≤ MOST_QUERIES }
    ensures soak { result ≡ 0 → WritesSoak (K.written sink.old) (K.written sink.new) options.now ended.new }
    ensures cut { result ≡ 5 → WritesSoakFront (K.written sink.old) (K.written sink.new) options.now ended.new }
    ensures ends { (result ≡ 0) ⊎ (result ≡ 6) ⊎ ((result ≡ 5) × Rose (K.faults sink.old) (K.faults sink.new)) }
    ensures memory { result ≡ 6 → (sink.new ≡ sink.old) × (ended.new ≡ ended.old) }
{
    let Ok(script) = make_soak(alloc, options.count) else {
        return NO_MEMORY;
    };
    let Ok(soaked) = run_script(rt, alloc, &script, options, clocks, gate) else {
        return NO_MEMORY;
    };
    *ended = soaked.ended;
    a_soak_has_one_summary();
    let totals = sum_up(options.count, &script, &soaked.outcome);
    match write_soak(sink, options.count, &totals) {
        Ok(()) => DONE,
        Err(_) => WRITE_FAULT,
    }
}

/// Does all that the program does, and answers its status: 0 done, 2 usage, 3 refused, 4 a read fault, 5 a write fault,
/// 6 no memory.
///
/// The steps of a run come in this order: the words, the reading, its length, the grammar, the memory of all that the
/// queries need, the queries, the writing. A soak makes its script in place of the reading, and writes what its replies
/// come to in place of the log. Want of memory may end either at each step before the first query. The clocks are asked
/// where a query with a deadline is refused, and the runtime where one waits for a lock. What the closes of the hall
/// and of the ledger's lock gave stands in `ended` at status 0, and at status 5 where a log or a summary was cut; else
/// `ended` stays empty. The call holds what it promises if it returns.
pub fn serve_main<R: Threads + Wait + Sync, S: Source, K: Sink, T: Clocks, G: Gate>(
    rt: &R,
    alloc: Global,
    words: &[String],
    source: &mut S,
    sink: &mut K,
    clocks: &T,
    gate: &G,
    ended: &mut Ended,
) -> u8
    requires ended { (ended.old.hall ≡ None) × (ended.old.dist ≡ None) }

    // Whatever the schedule, status 0 of a run has written exactly the printed form of one history, which the closes of
    // this run tell too.
    ensures history { result ≡ 0 → IfSome (run_in words.now) (λ o. WritesOneHistory (S.left source.old) (S.left source.new) (K.written sink.old) (K.written sink.new) o ended.new) }

    // Whatever the schedule, status 0 of a soak has written exactly its totals, and the closes tell one history of its
    // script.
    ensures soak { result ≡ 0 → IfSome (soak_in words.now) (λ o. WritesSoak (K.written sink.old) (K.written sink.new) o ended.new) }

    // Each other status has its cause.
    ensures usage { result ≡ 2 → options_in words.now ≡ None }
    ensures no_words { options_in words.now ≡ None → (result ≡ 2) ⊎ (result ≡ 6) }
    ensures refused { result ≡ 3 → WritesRefusal (S.left source.old) (K.written sink.old) (K.written sink.new) }
    ensures read_fault { result ≡ 4 → Rose (S.faults source.old) (S.faults source.new) }
    ensures write_fault { result ≡ 5 → Rose (K.faults sink.old) (K.faults sink.new) }
    ensures cut { result ≡ 5 →
        IfSome (run_in words.now) (λ o. WritesFront (S.left source.old) (S.left source.new) (K.written sink.old) (K.written sink.new) o ended.new)
        ⊎ (WritesRefusalFront (S.left source.old) (K.written sink.old) (K.written sink.new) × (ended.new ≡ ended.old)) }
    ensures cut_soak { result ≡ 5 → IfSome (soak_in words.now) (λ o. WritesSoakFront (K.written sink.old) (K.written sink.new) o ended.new) }
    ensures known { (result ≡ 0) ⊎ (result ≡ 2) ⊎ (result ≡ 3) ⊎ (result ≡ 4) ⊎ (result ≡ 5) ⊎ (result ≡ 6) }

    // With words that ask for a run, bytes that are accepted are answered, and others are refused.
    ensures complete { IsSome (run_in words.now) → Completes (S.left source.old) (S.faults source.old) (S.faults source.new) (K.faults sink.old) (K.faults sink.new) result }
    ensures refuses { IsSome (run_in words.now) → Refuses (S.left source.old) (S.faults source.old) (S.faults source.new) (K.faults sink.old) (K.faults sink.new) result }

    // With words that ask for a soak all is done, but for want of memory and a fault of the sink.
    ensures complete_soak { IsSome (soak_in words.now) → (result ≡ 0) ⊎ (result ≡ 6) ⊎ ((result ≡ 5) × Rose (K.faults sink.old) (K.faults sink.new)) }

    // Nothing is written at the other statuses. At status 2, and by a soak, nothing is read.
    ensures silent { (result ≡ 2) ⊎ (result ≡ 4) ⊎ (result ≡ 6) → sink.new ≡ sink.old }
    ensures unread { (result ≡ 2) ⊎ IsSome (soak_in words.now) → source.new ≡ source.old }

    // What the closes of a run gave is handed out where there was one.
    ensures untouched { (result ≡ 2) ⊎ (result ≡ 3) ⊎ (result ≡ 4) ⊎ (result ≡ 6) → ended.new ≡ ended.old }

    // Reading stops once one byte more came than a script may have.
    ensures counted { TakesUpTo (S.left source.old) (S.left source.new) (limit + 1) }
{
    let options = match check_words(alloc, words) {
        Ok(options) => options,
        Err(WordsFault::Usage) => return USAGE,
        Err(WordsFault::NoMemory) => return NO_MEMORY,
    };
    match options.mode {
        RunMode::Run => serve_run(rt, alloc, &options, source, sink, clocks, gate, ended),
        RunMode::Soak => serve_soak(rt, alloc, &options, sink, clocks, gate, ended),
    }
}
