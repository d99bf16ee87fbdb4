//! Traps of runs.

ghost use Rattle.std.specs.Prelude.{◌≡◌, option_map};
ghost use Rattle.explanations.specs.Entries.{plain};
ghost use Rattle.explanations.specs.Traps.{trap_entry};

use crate::entry::{Entry, Texts, entry_with};

const INDEX: Texts = [
    "index",
    "an index isn't from 0 to the length less one",
    "An array of n elements has those from 0 to n - 1.",
    "M.Mod:\n    MODULE M; VAR a: ARRAY 3 OF INTEGER; BEGIN a[3] := 1 END M.",
    "$ trc run M.Mod\ntrc: trap 1 in module 0 line 1",
    "M.Mod:\n    MODULE M; VAR a: ARRAY 3 OF INTEGER; BEGIN a[2] := 1 END M.",
];

const NIL: Texts = [
    "nil",
    "something is asked of NIL",
    "The object of NIL is asked for, NIL is guarded, or a NIL procedure is called. Pointers and variables\nof procedure types begin as NIL.",
    "M.Mod:\n    MODULE M; VAR p: POINTER TO RECORD x: INTEGER END; BEGIN p.x := 1 END M.",
    "$ trc run M.Mod\ntrc: trap 2 in module 0 line 1",
    "M.Mod:\n    MODULE M; VAR p: POINTER TO RECORD x: INTEGER END; BEGIN NEW(p); p.x := 1 END M.",
];

const GUARD: Texts = [
    "guard",
    "an object isn't of a guard's type",
    "The object's type is neither the guard's type nor an extension of it. IS asks without a trap.",
    "M.Mod:\n    MODULE M; TYPE A = RECORD END; B = RECORD (A) END; PA = POINTER TO A; PB = POINTER TO B;\n    VAR a: PA; b: PB; BEGIN NEW(a); b := a(PB) END M.",
    "$ trc run M.Mod\ntrc: trap 3 in module 0 line 1",
    "M.Mod:\n    MODULE M; TYPE A = RECORD END; B = RECORD (A) END; PA = POINTER TO A; PB = POINTER TO B;\n    VAR a: PA; b: PB; BEGIN NEW(a); IF a IS PB THEN b := a(PB) END END M.",
];

const DIVISOR: Texts = [
    "divisor",
    "the divisor of DIV or MOD isn't positive",
    "A program tests its divisor before, where that may be 0 or negative.",
    "M.Mod:\n    MODULE M; IMPORT Out; BEGIN Out.Int(7 DIV 0, 0) END M.",
    "$ trc run M.Mod\ntrc: trap 4 in module 0 line 1",
    "M.Mod:\n    MODULE M; IMPORT Out; BEGIN Out.Int(7 DIV 1, 0) END M.",
];

const ASSERT: Texts = [
    "assert",
    "what ASSERT asks for is FALSE",
    "The program says itself that it can't go on.",
    "M.Mod:\n    MODULE M; BEGIN ASSERT(FALSE) END M.",
    "$ trc run M.Mod\ntrc: trap 5 in module 0 line 1",
    "M.Mod:\n    MODULE M; BEGIN ASSERT(TRUE) END M.",
];

const CASE: Texts = [
    "case",
    "no label of a CASE has the value",
    "CASE on INTEGER or CHAR has no ELSE. A range of labels may take all other values.",
    "M.Mod:\n    MODULE M; VAR i: INTEGER; BEGIN CASE i OF 1: END END M.",
    "$ trc run M.Mod\ntrc: trap 6 in module 0 line 1",
    "M.Mod:\n    MODULE M; VAR i: INTEGER; BEGIN CASE i OF 0 .. 1: END END M.",
];

const SET_ELEMENT: Texts = [
    "set element",
    "an element of a set isn't from 0 to 63",
    "Elements in braces, of IN, INCL and EXCL are tested.",
    "M.Mod:\n    MODULE M; VAR s: SET; BEGIN INCL(s, 64) END M.",
    "$ trc run M.Mod\ntrc: trap 7 in module 0 line 1",
    "M.Mod:\n    MODULE M; VAR s: SET; BEGIN INCL(s, 63) END M.",
];

const CALL_DEPTH: Texts = [
    "call depth",
    "a procedure is called where 8,192 calls are active",
    "The procedure that is told is the one that is called. The modules' bodies don't count.",
    "M.Mod:\n    MODULE M; PROCEDURE P; BEGIN P END P; BEGIN P END M.",
    "$ trc run M.Mod\ntrc: trap 8 in module 0 line 1",
    "M.Mod:\n    MODULE M; PROCEDURE P(n: INTEGER); BEGIN IF n > 1 THEN P(n - 1) END END P; BEGIN P(8192) END M.",
];

const LOCAL_DATA: Texts = [
    "local data",
    "active calls would have over 1,048,576 cells of local data",
    "Their local variables and scalar value parameters count. The procedure that is told is the one that\nis called.",
    "M.Mod:\n    MODULE M; PROCEDURE P; VAR a: ARRAY 1048576 OF CHAR; BEGIN P END P; BEGIN P END M.",
    "$ trc run M.Mod\ntrc: trap 9 in module 0 line 1",
    "M.Mod:\n    MODULE M; PROCEDURE P; VAR a: ARRAY 1048576 OF CHAR; BEGIN END P; BEGIN P; P END M.",
];

const HEAP: Texts = [
    "heap",
    "NEW would take over 8,388,608 cells in all",
    "Each object takes the cells of its type and one more. None is ever given back.",
    "M.Mod:\n    MODULE M; VAR p: POINTER TO RECORD a: ARRAY 1048576 OF CHAR END;\n    BEGIN WHILE TRUE DO NEW(p) END END M.",
    "$ trc run M.Mod\ntrc: trap 10 in module 0 line 1",
    "M.Mod:\n    MODULE M; VAR p: POINTER TO RECORD a: ARRAY 1048576 OF CHAR END;\n    BEGIN NEW(p) END M.",
];

const RANGE: Texts = [
    "range",
    "a number isn't from 0 to 255",
    "A BYTE and CHR want such a number.",
    "M.Mod:\n    MODULE M; VAR b: BYTE; BEGIN b := 256 END M.",
    "$ trc run M.Mod\ntrc: trap 11 in module 0 line 1",
    "M.Mod:\n    MODULE M; VAR b: BYTE; BEGIN b := 255 END M.",
];

const COPY: Texts = [
    "copy",
    "an array or a string is longer than where it goes",
    "A string takes a 0X behind its characters.",
    "M.Mod:\n    MODULE M; VAR t: ARRAY 3 OF CHAR;\n    PROCEDURE P(VAR s: ARRAY OF CHAR); BEGIN s := \"abc\" END P; BEGIN P(t) END M.",
    "$ trc run M.Mod\ntrc: trap 12 in module 0 line 2",
    "M.Mod:\n    MODULE M; VAR t: ARRAY 4 OF CHAR;\n    PROCEDURE P(VAR s: ARRAY OF CHAR); BEGIN s := \"abc\" END P; BEGIN P(t) END M.",
];

/// What the page of this trap says, where there is one.
#[tactic(auto, unfolding(crate::specs::Traps::trap_entry))]
pub fn trap_entry(number: u8) -> Option<Entry>
    ensures { option_map plain result ≡ trap_entry number }
{
    match number {
        1 => Some(entry_with(INDEX)),
        2 => Some(entry_with(NIL)),
        3 => Some(entry_with(GUARD)),
        4 => Some(entry_with(DIVISOR)),
        5 => Some(entry_with(ASSERT)),
        6 => Some(entry_with(CASE)),
        7 => Some(entry_with(SET_ELEMENT)),
        8 => Some(entry_with(CALL_DEPTH)),
        9 => Some(entry_with(LOCAL_DATA)),
        10 => Some(entry_with(HEAP)),
        11 => Some(entry_with(RANGE)),
        12 => Some(entry_with(COPY)),
        _ => None,
    }
}
