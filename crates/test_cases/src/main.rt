//! Runs the cases of its files: calls over devices in memory, and what each must come to. It writes a line for each
//! file and what differs, so a case that differs shows in what it writes.
#![tactic(auto)]

mod asking;
mod content;
mod fault;
mod gates;
mod judging;
mod logs;
mod recorded;
mod said;
mod sources;
mod terminals;
mod tokens;
mod traces;
mod trees;
mod worlds;

use fault::Fault;
use judging::{Count, judge_file};
use ppd_io::{HostShelf, Shelf};
use std::alloc::Global;
use std::env;
use std::process::ExitCode;
use std::sync::Wait;
use std::thread::Threads;

/// The most bytes of a file of cases.
const MOST_BYTES: usize = 16_777_216;

/// The cases of a file, whose name is told with how many they are.
fn run_file<R: Threads + Wait + Sync>(
    rt: &HostRuntime,
    threads: &R,
    name: &str,
    told: &mut String,
) -> Result<bool, Fault> {
    let alloc = rt.alloc();
    let Ok(bytes) = HostShelf::new(rt).load(alloc, name, MOST_BYTES) else {
        return Err(Fault::Line);
    };
    let Ok(text) = std::str::from_utf8(&bytes) else {
        return Err(Fault::Line);
    };
    let Count { cases, alike } = judge_file(threads, alloc, text, told)?;
    told.push_str(format!(in alloc; "{name}: {alike} of {cases}\n")?.as_str())?;
    Ok(cases == alike)
}

/// The cases of all files whose names are the words of the command line.
fn run<R: Threads + Wait + Sync>(
    rt: &HostRuntime,
    threads: &R,
    told: &mut String,
) -> Result<bool, Fault> {
    let Ok(given) = env::args(rt) else {
        return Err(Fault::Line);
    };
    let names: Vec<String> = given.skip(1).collect(rt.alloc())?;
    let mut is_well = true;
    for name in names.iter() {
        is_well = run_file(rt, threads, name.as_str(), told)? && is_well;
    }
    Ok(is_well)
}

fn main(rt: HostRuntime) -> ExitCode {
    let mut told = String::new(rt.alloc());
    let status = match run(&rt, &rt, &mut told) {
        Ok(is_well) => u8::from(!is_well),
        Err(_fault) => 2,
    };
    let _ = print!(rt; "{told}");
    ExitCode::from(status)
}
