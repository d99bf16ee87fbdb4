//! Texts that are read, and where others break a rule, with the places that another front end gives.

use ob_read::{MOST_BYTES, TextFault, read_module};
use std::alloc::Global;
use std::test::Fail;

// Whether a text breaks this rule at this byte.
fn breaks(alloc: Global, text: &[u8], wanted: (u8, u32)) -> bool {
    match read_module(alloc, text) {
        Err(TextFault::Fault { number, at }) => (number, at) == wanted,
        _ => false,
    }
}

#[test]
fn rules_are_broken_at_their_bytes(rt: HostRuntime) -> Result<(), Fail> {
    let alloc = rt.alloc();
    assert!(rt; breaks(alloc, b"MODULE M; BEGIN x := $ END M.", (10, 21)));
    assert!(rt; breaks(alloc, b"MODULE M; (* END M.", (11, 10)));
    assert!(rt; breaks(alloc, b"MODULE M; BEGIN x := ; END M.", (20, 21)));
    assert!(rt; breaks(alloc, b"MODULE M; END M", (20, 15)));
    assert!(rt; breaks(alloc, b"", (20, 0)));
    Ok(())
}

#[test]
fn the_longest_text_is_read(rt: HostRuntime) -> Result<(), Fail> {
    let mut text = vec![in rt.alloc(); b' '; MOST_BYTES - 16]?;
    text.extend_from_slice(b"MODULE M; END M.")?;
    let module = read_module(rt.alloc(), &text);
    assert!(rt; module.is_ok_and(|module| module.symbols.len() == 6));
    text.push(b' ')?;
    assert!(rt; matches!(read_module(rt.alloc(), &text), Err(TextFault::TooLong)));
    Ok(())
}
