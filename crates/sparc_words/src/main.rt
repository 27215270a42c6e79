//! Prints words of SPARC V8 as `encode` makes them, each with its instruction in assembly language, so that an
//! assembler and a disassembler from outside can be compared with it (tools/check-sparc-words).
//!
//! The one argument is how many, 0 to 4,294,967,295; none is 16. The instructions are chosen by a generator
//! whose seed is fixed.
#![tactic(auto)]

mod assembly;
mod choice;

use anyhow::{Context, Result};
use assembly::Assembly;
use choice::{Generator, instr_from};
use std::env;
use std::rt::Env;
use tb_sparc::encode;

const DEFAULT_COUNT: u32 = 16;

fn main(rt: HostRuntime) -> Result<()> {
    let count = count_wanted(&rt)?;
    print_words(&rt, count)
}

fn count_wanted(rt: &(impl Env + Alloc)) -> Result<u32> {
    match env::args(rt)?.nth(1) {
        None => Ok(DEFAULT_COUNT),
        Some(count) => count
            .as_str()
            .parse::<u32>()
            .context("the argument is how many words to print"),
    }
}

fn print_words(rt: &impl Print, count: u32) -> Result<()> {
    let mut generator = Generator::new();
    for _ in 0..count {
        let instr = instr_from(generator.next_number());
        let word = encode(instr);
        let assembly = Assembly(instr);
        println!(rt; "{word:08x} {assembly}")?;
    }
    Ok(())
}
