//! Runs parts that no command uses so far. `rows` tries the readers of devicetree text and of its board on a table,
//! `count` counts what a devicetree text has, `board` tells its rails, and `ranges` looks voltages up; `bench` times
//! `count` and `ranges`.
#![tactic(auto)]

mod escapes;
mod found;
mod node;
mod part;
mod rails;
mod ranges;
mod row;
mod rows;
mod whole;

use found::Asked;
use part::{Part, part_of};
use ranges::ranges;
use rows::rows;
use std::alloc::Global;
use std::process::ExitCode;
use std::{env, io};
use whole::whole;

fn main(rt: HostRuntime) -> io::Result<ExitCode> {
    match env::args(&rt)?.nth(1) {
        Some(word) => run(&rt, word.as_str()),
        None => run(&rt, ""),
    }
}

/// Runs what the word names over the standard input. Another word is told on the standard error, and
/// the status is 2.
fn run(rt: &(impl Input + Print + Eprint + Alloc<A = Global>), word: &str) -> io::Result<ExitCode> {
    match part_of(word) {
        Some(Part::Rows) => rows(rt)?,
        Some(Part::Count) => whole(rt, Asked::Count)?,
        Some(Part::Board) => whole(rt, Asked::Board)?,
        Some(Part::Ranges) => ranges(rt)?,
        None => {
            eprintln!(rt; "usage: part_runs rows|count|board|ranges")?;
            return Ok(ExitCode::from(2));
        }
    }
    Ok(ExitCode::SUCCESS)
}
