//! The program: it hands the words of the command line and the real store, input, output and error to the top call,
//! and ends with its status.
#![tactic(auto)]

use std::alloc::{AllocError, Global};
use std::env;
use std::io::ErrorKind;
use std::process::ExitCode;
use std::rt::Env;
use tb_base::{RealSink, RealSource, RealStore};
use tb_twobit::{Status, twobit};

fn main(rt: HostRuntime) -> ExitCode {
    let status = match words(&rt) {
        Ok(words) => run(&rt, words.as_slice()).unwrap_or(Status::NoMemory.number()),
        Err(status) => status.number(),
    };
    ExitCode::from(status)
}

/// The words behind the program's own name. Words that are no text ask for nothing that there is.
fn words(rt: &(impl Env + AllocGlobal)) -> Result<Vec<String>, Status> {
    let mut words = Vec::new(rt.alloc());
    let args = match env::args(rt) {
        Ok(args) => args,
        Err(error) if error.kind() == ErrorKind::OutOfMemory => return Err(Status::NoMemory),
        Err(_) => return Err(Status::Usage),
    };
    for word in args.skip(1) {
        if words.push(word).is_err() {
            return Err(Status::NoMemory);
        }
    }
    Ok(words)
}

fn run(rt: &HostRuntime, words: &[String]) -> Result<u8, AllocError> {
    let alloc = rt.alloc();
    let words = texts(alloc, words)?;
    let mut store = RealStore::new(alloc, rt);
    let mut input = RealSource::new(rt.stdin());
    let mut out = RealSink::new(rt.stdout());
    let mut diag = RealSink::new(rt.stderr());
    Ok(twobit(
        alloc,
        words.as_slice(),
        &mut store,
        &mut input,
        &mut out,
        &mut diag,
    ))
}

fn texts(alloc: Global, words: &[String]) -> Result<Vec<&str>, AllocError> {
    words.iter().map(|word| word.as_str()).collect(alloc)
}
