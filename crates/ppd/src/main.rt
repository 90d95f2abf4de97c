//! The program: it makes the real shelf, input and output, and leaves all else to the top call.
#![tactic(auto)]

use ppd_ast::Memory;
use ppd_io::{FreeGate, HostShelf, StdSink, StdSource};
use ppd_top::ppd;
use std::alloc::Global;
use std::process::ExitCode;
use std::sync::Wait;
use std::thread::Threads;
use std::{env, io};

/// The words after the program's name. Words that cannot be decoded are none that the program
/// knows, so they stand as no words at all.
fn words_given(alloc: Global, rt: &HostRuntime) -> Result<Vec<String>, Memory> {
    let given = match env::args(rt) {
        Ok(given) => given,
        Err(error) if error.kind() == io::ErrorKind::OutOfMemory => return Err(Memory),
        Err(_) => return Ok(Vec::new(alloc)),
    };
    match given.skip(1).collect(alloc) {
        Ok(words) => Ok(words),
        Err(_) => Err(Memory),
    }
}

/// Calls the program for these words, over the files, the input and the output that the runtime gives.
fn call<R: Threads + Wait + Sync>(rt: &HostRuntime, threads: &R, words: &[&str]) -> u8 {
    let mut shelf = HostShelf::new(rt);
    let mut input = StdSource::new(rt.reader());
    let mut output = StdSink::new(io::writer(rt));
    let outcome = ppd(
        threads,
        rt.alloc(),
        words,
        &mut shelf,
        &mut input,
        &mut output,
        &FreeGate,
    );
    outcome.status
}

/// Runs the program over what the runtime gives, its threads by `threads`.
fn run<R: Threads + Wait + Sync>(rt: &HostRuntime, threads: &R) -> Result<u8, Memory> {
    let alloc = rt.alloc();
    let given = words_given(alloc, rt)?;
    let Ok(words) = given.iter().map(|word| word.as_str()).collect(alloc) else {
        return Err(Memory);
    };
    let words: Vec<&str> = words;
    Ok(call(rt, threads, &words))
}

fn main(rt: HostRuntime) -> ExitCode {
    match run(&rt, &rt) {
        Ok(status) => ExitCode::from(status),
        Err(Memory) => ExitCode::from(5),
    }
}
