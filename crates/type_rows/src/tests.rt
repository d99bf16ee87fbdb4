//! Answers of the calls, from the language's rules.

use crate::{align, bytes, cells, extends, is_assignable, is_same, sample_types};
use std::test::Fail;

const INTEGER: u32 = 0;

const BOOLEAN: u32 = 1;

const CHAR: u32 = 2;

const BYTE: u32 = 3;

const SET: u32 = 4;

const NIL: u32 = 5;

const INTEGERS: u32 = 7;

const OPEN_INTEGERS: u32 = 8;

const CHARS: u32 = 9;

const OPEN_CHARS: u32 = 10;

const MATRIX: u32 = 11;

const BASE: u32 = 12;

const EXTENSION: u32 = 13;

const FURTHER: u32 = 14;

const TO_BASE: u32 = 15;

const TO_EXTENSION: u32 = 16;

const TO_FURTHER: u32 = 17;

const OTHER_TO_BASE: u32 = 18;

const TAKES_VALUE: u32 = 19;

const TAKES_VARIABLE: u32 = 20;

const TEXT_1: u32 = 21;

const TEXT_3: u32 = 22;

const TEXT_4: u32 = 23;

const NINE_CHARS: u32 = 24;

const MIXED: u32 = 25;

const TWO_SMALL: u32 = 26;

const SMALL_PAIRS: u32 = 27;

const MIXED_EXTENDED: u32 = 28;

const THREE_CHARS: u32 = 29;

const THREES: u32 = 30;

const ROWS_OF_THREES: u32 = 31;

/// A scalar, a pointer and a procedure are one cell, and so counts an open array; an array and a record have those of
/// their parts.
#[test]
fn cells_are_those_of_the_parts(rt: HostRuntime) -> Result<(), Fail> {
    let types = sample_types(rt.alloc())?;
    assert!(rt; cells(&types, INTEGER) == 1);
    assert!(rt; cells(&types, SET) == 1);
    assert!(rt; cells(&types, TO_BASE) == 1);
    assert!(rt; cells(&types, TAKES_VALUE) == 1);
    assert!(rt; cells(&types, OPEN_CHARS) == 1);
    assert!(rt; cells(&types, INTEGERS) == 3);
    assert!(rt; cells(&types, MATRIX) == 6);
    assert!(rt; cells(&types, BASE) == 4);
    assert!(rt; cells(&types, EXTENSION) == 5);
    assert!(rt; cells(&types, FURTHER) == 5);
    Ok(())
}

/// A CHAR, a BYTE and a BOOLEAN take a byte, any other scalar eight and begins at a multiple of 8; a record is rounded up
/// only where it has such a scalar.
#[test]
fn bytes_are_packed(rt: HostRuntime) -> Result<(), Fail> {
    let types = sample_types(rt.alloc())?;
    assert!(rt; bytes(&types, INTEGER) == 8 && align(&types, INTEGER) == 8);
    assert!(rt; bytes(&types, BYTE) == 1 && align(&types, BYTE) == 1);
    assert!(rt; bytes(&types, TO_BASE) == 8 && align(&types, TO_BASE) == 8);
    assert!(rt; bytes(&types, MATRIX) == 48 && align(&types, MATRIX) == 8);
    assert!(rt; bytes(&types, EXTENSION) == 40 && align(&types, EXTENSION) == 8);
    assert!(rt; bytes(&types, NINE_CHARS) == 9 && align(&types, NINE_CHARS) == 1);
    assert!(rt; bytes(&types, MIXED) == 24 && align(&types, MIXED) == 8);
    assert!(rt; bytes(&types, TWO_SMALL) == 2 && align(&types, TWO_SMALL) == 1);
    assert!(rt; bytes(&types, SMALL_PAIRS) == 6 && align(&types, SMALL_PAIRS) == 1);
    assert!(rt; bytes(&types, MIXED_EXTENDED) == 32 && align(&types, MIXED_EXTENDED) == 8);
    assert!(rt; bytes(&types, THREE_CHARS) == 3 && align(&types, THREE_CHARS) == 1);
    assert!(rt; bytes(&types, THREES) == 15 && align(&types, THREES) == 1);
    assert!(rt; bytes(&types, ROWS_OF_THREES) == 30 && align(&types, ROWS_OF_THREES) == 1);
    Ok(())
}

/// Each type is the same as itself. Arrays of other lengths or elements, procedure types with other parameters, and types
/// that are declared apart are not the same.
#[test]
fn same_are_types_of_one_declaration(rt: HostRuntime) -> Result<(), Fail> {
    let types = sample_types(rt.alloc())?;
    for t in 0..32 {
        assert!(rt; is_same(&types, t, t));
    }
    for (a, b) in [
        (INTEGER, BYTE),
        (INTEGERS, OPEN_INTEGERS),
        (INTEGERS, CHARS),
        (INTEGERS, MATRIX),
        (BASE, EXTENSION),
        (TO_BASE, OTHER_TO_BASE),
        (TAKES_VALUE, TAKES_VARIABLE),
        (TEXT_3, TEXT_4),
    ] {
        assert!(rt; !is_same(&types, a, b));
        assert!(rt; !is_same(&types, b, a));
    }
    Ok(())
}

/// A record type extends itself and what its base extends, a pointer type what its record types say; nothing else extends.
#[test]
fn extends_goes_by_bases(rt: HostRuntime) -> Result<(), Fail> {
    let types = sample_types(rt.alloc())?;
    for (a, b) in [
        (BASE, BASE),
        (EXTENSION, BASE),
        (FURTHER, BASE),
        (FURTHER, EXTENSION),
        (TO_EXTENSION, TO_BASE),
        (TO_FURTHER, TO_BASE),
        (TO_BASE, OTHER_TO_BASE),
    ] {
        assert!(rt; extends(&types, a, b));
    }
    for (a, b) in [
        (BASE, EXTENSION),
        (EXTENSION, FURTHER),
        (TO_BASE, TO_EXTENSION),
        (EXTENSION, TO_BASE),
        (TO_EXTENSION, BASE),
        (INTEGER, INTEGER),
        (INTEGERS, INTEGERS),
        (NIL, TO_BASE),
    ] {
        assert!(rt; !extends(&types, a, b));
    }
    Ok(())
}

/// To the first type values of the second may be assigned.
#[test]
fn assignable_are_these(rt: HostRuntime) -> Result<(), Fail> {
    let types = sample_types(rt.alloc())?;
    for t in 0..32 {
        assert!(rt; is_assignable(&types, t, t));
    }
    for (to, from) in [
        (INTEGER, BYTE),
        (BYTE, INTEGER),
        (TO_BASE, NIL),
        (TAKES_VALUE, NIL),
        (CHAR, TEXT_1),
        (CHARS, TEXT_1),
        (CHARS, TEXT_3),
        (OPEN_CHARS, TEXT_4),
        (OPEN_INTEGERS, INTEGERS),
        (INTEGERS, OPEN_INTEGERS),
        (OPEN_CHARS, CHARS),
        (BASE, EXTENSION),
        (BASE, FURTHER),
        (TO_BASE, TO_FURTHER),
        (TO_BASE, OTHER_TO_BASE),
    ] {
        assert!(rt; is_assignable(&types, to, from));
    }
    Ok(())
}

/// And these not.
#[test]
fn not_assignable_are_these(rt: HostRuntime) -> Result<(), Fail> {
    let types = sample_types(rt.alloc())?;
    for (to, from) in [
        (INTEGER, NIL),
        (INTEGER, CHAR),
        (INTEGER, SET),
        (BOOLEAN, INTEGER),
        (CHAR, BYTE),
        (CHAR, TEXT_3),
        (CHARS, TEXT_4),
        (OPEN_INTEGERS, TEXT_3),
        (OPEN_INTEGERS, CHARS),
        (INTEGERS, MATRIX),
        (MATRIX, OPEN_INTEGERS),
        (EXTENSION, BASE),
        (TO_EXTENSION, TO_BASE),
        (TO_BASE, BASE),
        (BASE, NIL),
        (TAKES_VALUE, TAKES_VARIABLE),
        (NIL, TO_BASE),
    ] {
        assert!(rt; !is_assignable(&types, to, from));
    }
    Ok(())
}
