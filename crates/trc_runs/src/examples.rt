//! The examples: each call that is listed here is made over the host's files, and how it ended is printed behind its words.
//!
//! The error line goes to the standard output too, so that the stored run has it. A call's input stands beside its words.
//! What each call must print is what another compiler, written in Python from the rules alone, prints of it
//! (`bench/example_runs.py` writes it where that compiler is).

use crate::calls::{call, words_of};
use anyhow::Result;
use std::alloc::AllocGlobal;
use std::io::Print;
use std::sync::Wait;
use std::thread::Threads;
use trc_base::{Files, Sink};

/// The words of each call, and its input: each example, some with other policies and fewer registers, an example that is
/// named before the module that it imports, and a file that isn't there.
const CALLS: [(&str, &str); 38] = [
    ("help", ""),
    ("run Answer.Mod", ""),
    ("run Squares.Mod", ""),
    ("run Wrap.Mod", ""),
    ("run Gcd.Mod", ""),
    ("run Collatz.Mod", ""),
    ("run Sorting.Mod", ""),
    ("run Lucky.Mod", ""),
    ("run Sets.Mod", ""),
    ("run Count.Mod", "one two\n three\n\nfour"),
    ("run Count.Mod", ""),
    (
        "run Calc.Mod",
        "1 + 2 * 3\n(1 + 2) * 3\n-(7 - 10) * 100 / 7\n2 *\n8 / (4 - 4)\n(((42)))\n",
    ),
    ("run List.Mod", ""),
    ("run Tree.Mod", ""),
    ("run Shapes.Mod", ""),
    ("run Functions.Mod", ""),
    ("run Matrices.Mod", ""),
    ("run Texts.Mod", ""),
    ("run Interpreter.Mod", ""),
    ("run Range.Mod", ""),
    ("run Stack.Mod UseStack.Mod", ""),
    ("run Sorting.Mod --policy plain", ""),
    ("run Sorting.Mod --policy bottomup --regs 4", ""),
    (
        "run Interpreter.Mod --policy mixed --traces uni --jobs 1",
        "",
    ),
    ("run Shapes.Mod --policy linear --regs 4 --jobs 64", ""),
    ("run Answer.Mod --steps 15", ""),
    ("traces Gcd.Mod", ""),
    ("bulk 7 20", ""),
    ("batch batch.txt", ""),
    ("compare Gcd.Mod", ""),
    ("compare Range.Mod --jobs 1", ""),
    ("compare Count.Mod", "one two\n three\n\nfour"),
    ("compare Sorting.Mod --steps 1000", ""),
    ("run UseStack.Mod Stack.Mod", ""),
    ("run Missing.Mod", ""),
    ("elf answer Missing.Mod", ""),
    ("compare Gcd.Mod Missing.Mod", ""),
    ("show page.html Missing.Mod", ""),
];

/// Makes each call over these files and sinks, and prints its words before it and its status behind it.
pub(crate) fn print_examples<
    R: Threads + Wait + AllocGlobal + Sync + Print,
    F: Files,
    O: Sink,
    E: Sink,
>(rt: &R, files: &mut F, out: &mut O, told: &mut E) -> Result<()> {
    for (text, input) in CALLS {
        println!(rt; "{text}:")?;
        let words = words_of(rt.alloc(), text)?;
        let input = Vec::from_slice(rt.alloc(), input.as_bytes())?;
        let status = call(rt, words.as_slice(), input, files, out, told);
        println!(rt; "status {status}")?;
    }
    Ok(())
}
