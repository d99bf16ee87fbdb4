//! Reads modules as flows, allocates, resolves and links them, and prints their images.
//!
//! The stored input are the flows that another compiler, written in Python from the rules alone, selects for a hundred
//! modules, and those of a module that makes so many values more that its homes and arguments are near and far; the images
//! that it makes of them, under each policy and with 4 and 16 registers, are the stored output (`bench/link_vectors.py` makes
//! both where it is). Each flow has a name. Lines of the input:
//!
//! - `module FLAGS GLOBALS {BYTE}`: a module begins, with its constants;
//! - `flow ..`: a procedure of it, as `vector_texts` reads it;
//! - `link POLICY REGISTERS [words]`: prints its image: how many code words, the bytes of the greatest frame, of the globals
//!   and of the constants, the flags, a sum of words and constants, and with `words` all code words.
//!
//! With the words `bench TIMES`, for `bench/link.sh` and `bench/order.sh`, it allocates and links each module so often, and with
//! `allocate TIMES` it only allocates it; the line `order REGISTERS HOMES` then orders the moves of a permutation of so many places.
#![tactic(auto)]

mod images;
mod orders;

use images::{Runs, answer};
use lir_core::{Flow, Items};
use orders::ordered;
use outside::Memory;
use std::alloc::Global;
use std::io::{BufRead, BufReader};
use std::sync::Wait;
use std::thread::Threads;
use std::{env, io};
use vector_texts::{Words, flow_in};

/// A module, as far as it is read.
#[derive(Drop)]
pub(crate) struct Module {
    pub(crate) flags: u32,
    pub(crate) globals: u32,
    pub(crate) constants: Items<u8>,
    pub(crate) flows: Items<Flow>,
}

fn module_of(alloc: Global, words: &mut Words) -> Result<Module, Memory> {
    let flags = words.or_zero();
    let globals = words.or_zero();
    let mut constants = Vec::new(alloc);
    for number in &words.numbers(alloc)? {
        constants.push(u8::try_from(*number).unwrap_or(0))?;
    }
    Ok(Module {
        flags,
        globals,
        constants: Items::from_vec(constants),
        flows: Items::new(alloc),
    })
}

/// What a line gives to print: nothing but for a `link`.
fn reply<R: Threads + Wait + Sync>(
    rt: &R,
    alloc: Global,
    module: &mut Module,
    runs: Runs,
    line: &str,
) -> Result<String, Memory> {
    let mut words = Words::new(line);
    if words.takes("module") {
        *module = module_of(alloc, &mut words)?;
        return Ok(String::new(alloc));
    }
    if words.takes("link") {
        let linear = words.word() == "linear";
        let regs = u8::try_from(words.or_zero()).unwrap_or(0);
        let all = words.takes("words");
        return answer(rt, alloc, module, linear, regs, all, runs);
    }
    if words.takes("order") {
        return ordered(alloc, words.or_zero(), words.or_zero(), runs.times);
    }
    module.flows.push(flow_in(alloc, &mut words)?)?;
    Ok(String::new(alloc))
}

fn main(rt: HostRuntime) -> io::Result<()> {
    let mut words = env::args(&rt)?;
    words.next();
    let links = match words.next() {
        Some(word) => word.as_str() != "allocate",
        None => true,
    };
    let times = match words.next() {
        Some(times) => times.as_str().parse::<u32>().unwrap_or(1),
        None => 1,
    };
    let runs = Runs { times, links };
    let mut module = Module {
        flags: 0,
        globals: 0,
        constants: Items::new(rt.alloc()),
        flows: Items::new(rt.alloc()),
    };
    for line in BufReader::new(rt.alloc(), rt.reader())?.lines(rt.alloc()) {
        match reply(&rt, rt.alloc(), &mut module, runs, line?.as_str()) {
            Ok(text) => print!(rt; "{text}")?,
            Err(Memory) => println!(rt; "out of memory")?,
        }
    }
    Ok(())
}
