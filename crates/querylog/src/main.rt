//! `querylog`: runs a script of queries from standard input, and writes its log to standard output.
//!
//! All that it promises is the contract of [`server_run::serve_main`]. Here the real streams and the real clock are put
//! in its place, and a buffer of 64 KiB before standard output.
#![tactic(auto)]

use ql_base::OpenGate;
use ql_std::{StdClocks, StdSink, StdSource};
use server_run::{Ended, serve_main};
use std::alloc::AllocError;
use std::env::Env;
use std::io::{BufWriter, ErrorKind};
use std::process::ExitCode;
use std::{env, io};

const DONE: u8 = 0;

const USAGE: u8 = 2;

const REFUSED: u8 = 3;

const WRITE_FAULT: u8 = 5;

const NO_MEMORY: u8 = 6;

/// How many bytes are gathered before they are written.
const BUFFER: usize = 64 * 1024;

// The words after the program's name.
fn words<R: Env + AllocGlobal>(rt: &R) -> io::Result<Vec<String>> {
    let mut words = Vec::new(rt.alloc());
    for (i, word) in env::args(rt)?.enumerate() {
        if i > 0 {
            words.push(word).map_err(AllocError::from)?;
        }
    }
    Ok(words)
}

fn main(rt: HostRuntime) -> ExitCode {
    let words = match words(&rt) {
        Ok(words) => words,
        Err(error) if error.kind() == ErrorKind::OutOfMemory => return ExitCode::from(NO_MEMORY),
        Err(_) => return ExitCode::from(USAGE),
    };
    let Ok(output) = BufWriter::with_capacity(rt.alloc(), BUFFER, io::writer(&rt)) else {
        return ExitCode::from(NO_MEMORY);
    };
    let mut source = StdSource::new(rt.reader());
    let mut sink = StdSink::new(output);
    let clocks = StdClocks::new(&rt);
    let mut ended = Ended::new();
    let status = serve_main(
        &rt,
        rt.alloc(),
        &words,
        &mut source,
        &mut sink,
        &clocks,
        &OpenGate,
        &mut ended,
    );
    // A log or a refusal counts as written once the buffer has let it go.
    match sink.flush() {
        Err(_) if status == DONE || status == REFUSED => ExitCode::from(WRITE_FAULT),
        _ => ExitCode::from(status),
    }
}
