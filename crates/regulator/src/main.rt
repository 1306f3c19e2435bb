//! Runs the command of its words over the standard input and output, and exits with the status of that run.
#![tactic(auto)]

use reg_outside::{NullLab, StdSink, StdSource};
use regulator_main::{Status, exit_code, top};
use std::alloc::Global;
use std::io::ErrorKind;
use std::process::ExitCode;
use std::rt::Env;
use std::sync::Wait;
use std::thread::Threads;
use std::{env, io};

/// The words after the program's name. One that isn't UTF-8 is an error.
fn words(rt: &(impl Env + Alloc<A = Global>)) -> io::Result<Vec<String>> {
    let words = env::args(rt)?.skip(1).collect(rt.alloc())?;
    Ok(words)
}

/// Runs the command of the words over the standard input and output.
fn run<R: Env + Input + Print + Alloc<A = Global> + Threads + Wait + Sync>(rt: &R) -> Status {
    let words = match words(rt) {
        Ok(words) => words,
        Err(error) if error.kind() == ErrorKind::OutOfMemory => return Status::Memory,
        Err(_) => return Status::Words,
    };
    let mut source = StdSource::new(rt.reader());
    let mut sink = StdSink::new(io::writer(rt));
    top(
        rt,
        rt.alloc(),
        words.as_slice(),
        &mut source,
        &mut sink,
        &mut NullLab,
    )
}

fn main(rt: HostRuntime) -> ExitCode {
    exit_code(&rt, run(&rt))
}
