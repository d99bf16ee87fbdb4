//! Modules that are refused, and traps that name their procedures, in rows. Expected values come from the language's rules and an
//! independent compiler.

use crate::calls::{done, refused, runs, wants};
use std::alloc::{AllocError, AllocGlobal, Global};
use std::test::Fail;
use trc_base::{Files, MemFiles};

/// Bodies of a module that are refused, and their lines.
const BROKEN: [(&str, &str); 4] = [
    (
        "Out.Int(9223372036854775808, 0)",
        "trc: M.Mod:1:37: error 13 NumberTooLarge\n",
    ),
    ("Out.Int(42)", "trc: M.Mod:1:29: error 40 BadParameter\n"),
    ("Out.Int(x, 0)", "trc: M.Mod:1:37: error 30 Unknown\n"),
    ("IF 1 THEN END", "trc: M.Mod:1:32: error 31 TypeMismatch\n"),
];

#[test]
fn broken_rules_are_told_with_their_places(rt: HostRuntime) -> Result<(), Fail> {
    for (body, line) in BROKEN {
        runs(&rt, body, refused(2, line))?;
    }
    let mut files = MemFiles::new(rt.alloc(), Vec::new(rt.alloc()));
    files.put(
        "M.Mod",
        b"MODULE M;\nIMPORT Out;\n\nBEGIN\n  Out.Int(y, 0)\nEND M.\n",
    )?;
    let unknown = refused(2, "trc: M.Mod:5:11: error 30 Unknown\n");
    wants(&rt, &["run", "M.Mod"], &mut files, b"", unknown)?;
    wants(&rt, &["build", "A", "M.Mod"], &mut files, b"", unknown)?;
    wants(&rt, &["traces", "M.Mod"], &mut files, b"", unknown)
}

#[test]
fn a_procedure_has_so_many_values(rt: HostRuntime) -> Result<(), Fail> {
    let ones = "1+".repeat(rt.alloc(), 3999)?;
    runs(
        &rt,
        &format!(in rt.alloc(); "Out.Int({ones}1, 0)")?,
        done("4000"),
    )?;
    let text = format!(in rt.alloc(); "Out.Int(-{ones}1, 0)")?;
    runs(&rt, &text, refused(3, "trc: limit 50 Values at 0\n"))
}

/// The policies, and the frame of the image of a body with 8,000 values that live nowhere.
const FRAMES: [(&str, u32); 2] = [("plain", 64_008), ("linear", 8)];

/// The file in version 1 of an image of one procedure.
fn first_of(alloc: Global, image: &[u8]) -> Result<Vec<u8>, AllocError> {
    let mut first = Vec::from_slice(alloc, b"TRC64IMG")?;
    first.extend_from_slice(&1u32.to_le_bytes())?;
    first.extend_from_slice(image.get(12..32).unwrap_or(&[]))?;
    let end = image.len().saturating_sub(12);
    first.extend_from_slice(image.get(36..end).unwrap_or(&[]))?;
    Ok(first)
}

// A body of 8,000 statements that make a value each ends, with a home for each value where the policy asks for one, and its image is
// built anew from that of version 1, though no image of version 1 may have so large a frame; one of 8,001 is refused.
#[test]
fn a_body_has_so_many_assertions(rt: HostRuntime) -> Result<(), Fail> {
    let body = "ASSERT(TRUE); ".repeat(rt.alloc(), 8000)?;
    runs(&rt, &body, done(""))?;
    let text = format!(in rt.alloc(); "MODULE A; BEGIN {body}END A.")?;
    let mut files = MemFiles::new(rt.alloc(), Vec::new(rt.alloc()));
    files.put("A.Mod", text.as_bytes())?;
    for (policy, frame) in FRAMES {
        let build = ["build", "A", "A.Mod", "--policy", policy];
        wants(&rt, &build, &mut files, b"", done(""))?;
        wants(&rt, &["exec", "A"], &mut files, b"", done(""))?;
        let image = files.read(rt.alloc(), "A", 1_000_000)?;
        if image.get(28..32) != Some(frame.to_le_bytes().as_slice()) {
            return Err(Fail::new(policy));
        }
        files.put("E", first_of(rt.alloc(), &image)?.as_slice())?;
        let anew = ["build", "O", "A.Mod", "--policy", policy, "--from", "E"];
        wants(&rt, &anew, &mut files, b"", done(""))?;
        if files.read(rt.alloc(), "O", 1_000_000)?.as_slice() != image.as_slice() {
            return Err(Fail::new(policy));
        }
    }
    let more = format!(in rt.alloc(); "{body}ASSERT(TRUE)")?;
    runs(&rt, &more, refused(3, "trc: limit 50 Values at 0\n"))
}

#[test]
fn long_chains_are_refused_by_limits(rt: HostRuntime) -> Result<(), Fail> {
    let ones = "1+".repeat(rt.alloc(), 50_000)?;
    let text = format!(in rt.alloc(); "Out.Int({ones}1, 0)")?;
    runs(&rt, &text, refused(3, "trc: limit 50 Values at 0\n"))?;
    let truths = "TRUE & ".repeat(rt.alloc(), 50_000)?;
    let text = format!(in rt.alloc(); "IF {truths}TRUE THEN END")?;
    runs(&rt, &text, refused(3, "trc: limit 51 Blocks at 0\n"))
}

#[test]
fn so_many_parentheses_are_open(rt: HostRuntime) -> Result<(), Fail> {
    let (open, close) = ("(".repeat(rt.alloc(), 99)?, ")".repeat(rt.alloc(), 99)?);
    runs(
        &rt,
        &format!(in rt.alloc(); "Out.Int({open}7{close}, 0)")?,
        done("7"),
    )?;
    let text = format!(in rt.alloc(); "Out.Int(({open}7{close}), 0)")?;
    runs(
        &rt,
        &text,
        refused(2, "trc: M.Mod:1:136: error 21 TooDeep\n"),
    )
}

/// A module with a procedure for each trap, each on a line of its own.
const TRAPS: &str = "MODULE T;
TYPE A = RECORD END; B = RECORD (A) END; PA = POINTER TO A; PB = POINTER TO B; PX = POINTER TO RECORD x: INTEGER END;
  PH = POINTER TO RECORD h: ARRAY 1048576 OF CHAR END;
VAR i: INTEGER; y: BYTE; s: SET; a: ARRAY 3 OF INTEGER; t: ARRAY 3 OF CHAR;
PROCEDURE Index*; BEGIN a[i + 3] := 1 END Index;
PROCEDURE Nil*; VAR p: PX; BEGIN p := NIL; p.x := 1 END Nil;
PROCEDURE Guard*; VAR p: PA; q: PB; BEGIN NEW(p); q := p(PB) END Guard;
PROCEDURE Divisor*; BEGIN i := 7 DIV i END Divisor;
PROCEDURE Assert*; BEGIN ASSERT(i # 0) END Assert;
PROCEDURE Case*; BEGIN CASE i OF 1: END END Case;
PROCEDURE Element*; BEGIN INCL(s, i + 64) END Element;
PROCEDURE Depth*; BEGIN Depth END Depth;
PROCEDURE Large; VAR c: ARRAY 1048576 OF CHAR; BEGIN Large END Large;
PROCEDURE Local*; BEGIN Large END Local;
PROCEDURE Heap*; VAR p: PH; BEGIN WHILE TRUE DO NEW(p) END END Heap;
PROCEDURE Range*; BEGIN i := 256; y := i END Range;
PROCEDURE Fill(VAR c: ARRAY OF CHAR); BEGIN c := \"abc\" END Fill;
PROCEDURE Copy*; BEGIN Fill(t) END Copy;
END T.
";

/// Each trap: the procedure that is called, and the line that tells it.
const TOLD: [(&str, &str); 12] = [
    ("Index", "trc: trap 1 in module 0 line 5\n"),
    ("Nil", "trc: trap 2 in module 0 line 6\n"),
    ("Guard", "trc: trap 3 in module 0 line 7\n"),
    ("Divisor", "trc: trap 4 in module 0 line 8\n"),
    ("Assert", "trc: trap 5 in module 0 line 9\n"),
    ("Case", "trc: trap 6 in module 0 line 10\n"),
    ("Element", "trc: trap 7 in module 0 line 11\n"),
    ("Depth", "trc: trap 8 in module 0 line 12\n"),
    ("Local", "trc: trap 9 in module 0 line 13\n"),
    ("Heap", "trc: trap 10 in module 0 line 15\n"),
    ("Range", "trc: trap 11 in module 0 line 16\n"),
    ("Copy", "trc: trap 12 in module 0 line 17\n"),
];

#[test]
fn traps_name_their_procedures(rt: HostRuntime) -> Result<(), Fail> {
    for (name, line) in TOLD {
        let mut files = MemFiles::new(rt.alloc(), Vec::new(rt.alloc()));
        files.put("T.Mod", TRAPS.as_bytes())?;
        let text = format!(in rt.alloc(); "MODULE M; IMPORT T; BEGIN T.{name} END M.")?;
        files.put("M.Mod", text.as_bytes())?;
        let wanted = refused(6, line);
        wants(&rt, &["run", "T.Mod", "M.Mod"], &mut files, b"", wanted)?;
    }
    runs(
        &rt,
        "Out.Int(7 DIV 0, 0)",
        refused(6, "trc: trap 4 in module 0 line 1\n"),
    )
}
