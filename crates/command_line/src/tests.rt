//! Words of a command line, and what they ask for.
use crate::{Options, Policy, RunMode, WordsFault, check_words};
use query_rules::MOST_QUERIES;
use std::test::Fail;

fn asked(rt: &HostRuntime, words: &[&str]) -> Result<Result<Options, WordsFault>, Fail> {
    let alloc = rt.alloc();
    let mut owned = Vec::new(alloc);
    for word in words {
        owned.push(word.to_string(alloc)?)?;
    }
    Ok(check_words(alloc, &owned))
}

const RUN: Options = Options {
    mode: RunMode::Run,
    rows: 1024,
    slots: 32,
    combine: 64,
    policy: Policy::WritePriority,
    count: 1000,
};

const SOAK: Options = Options {
    mode: RunMode::Soak,
    rows: 16,
    ..RUN
};

#[test]
fn usage(rt: HostRuntime) -> Result<(), Fail> {
    let lists: [&[&str]; 34] = [
        &[],
        &["run", "--rows", "0"],
        &["run", "--rows", "01"],
        &["run", "--count", "5"],
        &["walk"],
        &["run", "run"],
        &["--rows", "5"],
        &["run", "--rows"],
        &["run", "--rows", "5", "--rows", "5"],
        &["run", "--rows=5", "--rows=5"],
        &["run", "--what", "5"],
        &["run", "--what"],
        &["run", "-r", "5"],
        &["run", "--rows", "+5"],
        &["run", "--rows", " 5"],
        &["run", "--rows", ""],
        &["run", "--rows="],
        &["run", "--rows", "65537"],
        &["run", "--rows", "18446744073709551617"],
        &["run", "--slots", "0"],
        &["run", "--slots", "257"],
        &["run", "--combine", "1025"],
        &["run", "--priority", "Write"],
        &["run", "--count=5"],
        &["soak", "--rows", "16"],
        &["soak", "--count", "0"],
        &["soak", "--count", "01"],
        &["soak", "--count", "1000001"],
        &["soak", "--count=5", "--count=5"],
        &["soak", "run"],
        &["--count", "5"],
        &["run", "--", "--rows", "5"],
        &["run", "--help"],
        &["run", "--version"],
    ];
    for words in &lists {
        assert_eq!(rt; asked(&rt, *words)?, Err(WordsFault::Usage), "{words:?}");
    }
    Ok(())
}

#[test]
fn taken(rt: HostRuntime) -> Result<(), Fail> {
    let five = Options { rows: 5, ..RUN };
    let lists: [(&[&str], Options); 22] = [
        (&["run"], RUN),
        (&["run", "--rows", "5"], five),
        (&["run", "--rows=5"], five),
        (&["--rows", "5", "run"], five),
        (&["--rows=5", "run"], five),
        (&["--", "run"], RUN),
        (&["--rows=5", "--", "run"], five),
        (&["run", "--"], RUN),
        (
            &["run", "--slots", "256", "--rows", "5"],
            Options { slots: 256, ..five },
        ),
        (
            &["--slots", "256", "run", "--rows", "5"],
            Options { slots: 256, ..five },
        ),
        (&["run", "--combine", "0"], Options { combine: 0, ..RUN }),
        (
            &["run", "--combine", "1024"],
            Options {
                combine: 1024,
                ..RUN
            },
        ),
        (&["run", "--rows", "1"], Options { rows: 1, ..RUN }),
        (
            &["run", "--rows", "65536"],
            Options {
                rows: 65_536,
                ..RUN
            },
        ),
        (&["run", "--slots", "1"], Options { slots: 1, ..RUN }),
        (
            &["run", "--priority", "read"],
            Options {
                policy: Policy::ReadPriority,
                ..RUN
            },
        ),
        (&["run", "--priority=write"], RUN),
        (&["soak"], SOAK),
        (&["soak", "--count=16"], Options { count: 16, ..SOAK }),
        (&["--count", "1", "soak"], Options { count: 1, ..SOAK }),
        (
            &["soak", "--count", "1000000"],
            Options {
                count: MOST_QUERIES,
                ..SOAK
            },
        ),
        (
            &[
                "soak",
                "--slots",
                "1",
                "--combine",
                "0",
                "--priority",
                "read",
            ],
            Options {
                slots: 1,
                combine: 0,
                policy: Policy::ReadPriority,
                ..SOAK
            },
        ),
    ];
    for (words, options) in &lists {
        assert_eq!(rt; asked(&rt, *words)?, Ok(*options), "{words:?}");
    }
    Ok(())
}
