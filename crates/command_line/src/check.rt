//! From words to options.
ghost use Rattle.std.specs.Prelude.{◌≡◌, ◌≤◌, true, false, IfOk, IfSome, IfErr, IsErrOf, Some, None, map, option_map, codes, string_bytes};
ghost use Rattle.clap.specs.Words.{app_of, first_of, found_of, matches_of, rows_of, rule_of, takes};
ghost use Rattle.command_line.specs.Form.{IsWithinLimits, SuitsSoak, count_for, mode_named, number_or, options_in, options_of, policy_or, rows_for, texts_of};
ghost use Rattle.command_line.specs.declared.options.RunMode.TheVariants.{Soak};
ghost use Rattle.command_line.specs.Program.{option_rule, program};
ghost use Rattle.query_rules.specs.declared.query.TheConstants.{MOST_QUERIES};

use crate::{Options, Policy, RunMode, WordsFault};
use clap::{Arg, ArgMatches, Command};
use query_rules::{MOST_QUERIES, number};
use std::alloc::{AllocError, Global};

// An option `--name value`.
fn option<'a>(alloc: Global, name: &'a str) -> Arg<'a>
    ensures rule { rule_of result ≡ option_rule name.entry.now }
    ensures local { result.global ≡ false }
{
    Arg::new(alloc, name).long(name)
}

// The command that reads the words.
fn command<'a>(alloc: Global) -> Result<Command<'a>, AllocError>
    ensures { IfOk result (λ c. app_of c ≡ program) }
{
    let bare = Command::new(alloc, "querylog")
        .no_binary_name(true)
        .disable_help_flag(true)
        .disable_version_flag(true);
    let mode = Arg::new(alloc, "mode").required(true);
    bare.arg(mode)?
        .arg(option(alloc, "rows"))?
        .arg(option(alloc, "slots"))?
        .arg(option(alloc, "combine"))?
        .arg(option(alloc, "priority"))?
        .arg(option(alloc, "count"))
}

// The value of an argument.
fn given<'a>(matches: &ArgMatches<'a>, name: &str) -> Option<&'a str>
    ensures { option_map (λ s. s.now) result ≡ first_of name.now (rows_of (found_of matches.now)) }
{
    matches.get_str(name)
}

fn mode_from(word: &str) -> Option<RunMode>
    ensures { result ≡ mode_named word.now }
{
    if word == "run" {
        Some(RunMode::Run)
    } else if word == "soak" {
        Some(RunMode::Soak)
    } else {
        None
    }
}

#[tactic(auto, unfolding(crate::specs::Form::policy_or))]
fn policy_from(word: Option<&str>) -> Option<Policy>
    ensures { result ≡ policy_or (option_map (λ s. s.now) word.entry) }
{
    let Some(word) = word else {
        return Some(Policy::WritePriority);
    };
    if word == "write" {
        Some(Policy::WritePriority)
    } else if word == "read" {
        Some(Policy::ReadPriority)
    } else {
        None
    }
}

// A number in its bounds, or the default.
#[tactic(auto, unfolding(crate::specs::Form::number_or))]
fn number_from(word: Option<&str>, low: u64, high: u64, default: u64) -> Option<u64>
    requires { (low ≤ default) × (default ≤ high) }
    ensures value { result ≡ number_or low high default (option_map (λ s. s.now) word.entry) }
    ensures within { IfSome result (λ n. (low ≤ n) × (n ≤ high)) }
{
    let Some(word) = word else {
        return Some(default);
    };
    let Some(n) = number(word.as_bytes()) else {
        return None;
    };
    if low <= n && n <= high { Some(n) } else { None }
}

// How many rows a cell has: they may be chosen for a run alone.
#[tactic(auto, unfolding(crate::specs::Form::rows_for))]
fn rows_from(mode: RunMode, word: Option<&str>) -> Option<u64>
    ensures value { result ≡ rows_for mode (option_map (λ s. s.now) word.entry) }
    ensures within { IfSome result (λ n. (1 ≤ n) × (n ≤ 65536)) }
    ensures soak { mode ≡ Soak → IfSome result (λ n. n ≡ 16) }
{
    match mode {
        RunMode::Run => number_from(word, 1, 65_536, 1024),
        RunMode::Soak if word.is_none() => Some(16),
        RunMode::Soak => None,
    }
}

// How many queries a soak has: they may be chosen for a soak alone.
#[tactic(auto, unfolding(crate::specs::Form::count_for))]
fn count_from(mode: RunMode, word: Option<&str>) -> Option<u64>
    ensures value { result ≡ count_for mode (option_map (λ s. s.now) word.entry) }
    ensures within { IfSome result (λ n. (1 ≤ n) × (n ≤ MOST_QUERIES)) }
{
    match mode {
        RunMode::Run if word.is_none() => Some(1000),
        RunMode::Run => None,
        RunMode::Soak => number_from(word, 1, MOST_QUERIES, 1000),
    }
}

// What the values of the arguments ask for.
#[tactic(auto, unfolding(crate::specs::Form::options_of))]
fn options(matches: &ArgMatches<'_>) -> Option<Options>
    ensures value { result ≡ options_of (rows_of (found_of matches.now)) }
    ensures limits { IfSome result IsWithinLimits }
    ensures soak { IfSome result SuitsSoak }
{
    let mode = mode_from(given(matches, "mode")?)?;
    let rows = rows_from(mode, given(matches, "rows"))?;
    let slots = number_from(given(matches, "slots"), 1, 256, 32)?;
    let combine = number_from(given(matches, "combine"), 0, 1024, 64)?;
    let policy = policy_from(given(matches, "priority"))?;
    let count = count_from(mode, given(matches, "count"))?;
    Some(Options {
        mode,
        rows,
        slots,
        combine: combine as u32,
        policy,
        count,
    })
}

// The matches of the words, where the command takes them.
fn matches_in<'a>(alloc: Global, words: &'a [String]) -> Result<ArgMatches<'a>, WordsFault>
    ensures ok { IfOk result (λ m. (takes program (texts_of words.entry.now) ≡ true)
        × (rows_of (found_of m) ≡ matches_of program (texts_of words.entry.now))) }
    ensures usage { IsErrOf result WordsFault.Usage → takes program (texts_of words.entry.now) ≡ false }
{
    let command = command(alloc)?;
    let matches = command.try_get_matches_from(words)?;
    Ok(matches)
}

/// What the words after the program's name ask for. `Usage` comes exactly where they ask for nothing, and no other word
/// than those is looked at.
pub fn check_words(alloc: Global, words: &[String]) -> Result<Options, WordsFault>
    ensures ok { IfOk result (λ o. options_in words.now ≡ Some o) }
    ensures usage { IsErrOf result WordsFault.Usage → options_in words.now ≡ None }
    ensures limits { IfOk result IsWithinLimits }
    ensures soak { IfOk result SuitsSoak }
{
    let matches = matches_in(alloc, words)?;
    options(&matches).ok_or(WordsFault::Usage)
}
