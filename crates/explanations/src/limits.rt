//! Limits of programs and lists.

ghost use Rattle.std.specs.Prelude.{◌≡◌, option_map};
ghost use Rattle.explanations.specs.Entries.{plain};
ghost use Rattle.explanations.specs.Limits.{limit_entry};

use crate::entry::{Entry, Texts, entry_with};

const VALUES: Texts = [
    "Values",
    "lowering makes over 8,000 values in a procedure",
    "The index is the procedure's number through all modules; a module's body is its last. Two procedures\nmay each have so many. Below, @N[ ] stands for what it holds, N times.",
    "M.Mod:\n    MODULE M; BEGIN @8000[ASSERT(TRUE); ]ASSERT(TRUE) END M.",
    "$ trc run M.Mod\ntrc: limit 50 Values at 0",
    "M.Mod:\n    MODULE M; BEGIN @7999[ASSERT(TRUE); ]ASSERT(TRUE) END M.",
];

const BLOCKS: Texts = [
    "Blocks",
    "lowering makes over 4,000 blocks in a procedure",
    "The index is the procedure's number through all modules; a module's body is its last. Two procedures\nmay each have so many. Below, @N[ ] stands for what it holds, N times.",
    "M.Mod:\n    MODULE M; BEGIN @1333[REPEAT UNTIL TRUE; ]REPEAT UNTIL TRUE END M.",
    "$ trc run M.Mod\ntrc: limit 51 Blocks at 0",
    "M.Mod:\n    MODULE M; BEGIN @1332[REPEAT UNTIL TRUE; ]REPEAT UNTIL TRUE END M.",
];

const PROCEDURES: Texts = [
    "Procedures",
    "a program has over 4,096 procedures",
    "Those of all modules count, and the body of each module. Below, @N[ ] stands for what it holds,  N\ntimes, with the number of the time, from 0, for %.",
    "M.Mod:\n    MODULE M; @4096[PROCEDURE P%; END P%; ]END M.",
    "$ trc run M.Mod\ntrc: limit 52 Procedures at 0",
    "M.Mod:\n    MODULE M; @4095[PROCEDURE P%; END P%; ]END M.",
];

const GLOBALS: Texts = [
    "Globals",
    "modules' variables take over 1,048,576 cells",
    "Those of all modules count, and In.Done for one.",
    "M.Mod:\n    MODULE M; VAR a: ARRAY 1048576 OF CHAR; END M.",
    "$ trc run M.Mod\ntrc: limit 53 Globals at 0",
    "M.Mod:\n    MODULE M; VAR a: ARRAY 1048575 OF CHAR; END M.",
];

const CODE: Texts = [
    "Code",
    "an image would have over 262,144 words of code",
    "How many there are goes by --policy, --traces and --regs; traces, mean and check make no code.\nBelow, @N[ ] stands for what it holds, N times, with the number of the time, from 0, for %.",
    "M.Mod:\n    MODULE M; VAR a: INTEGER; @44[PROCEDURE P%; BEGIN @1000[INC(a); ]END P%; ]END M.",
    "$ trc run M.Mod\ntrc: limit 54 Code at 0",
    "M.Mod:\n    MODULE M; VAR a: INTEGER; @43[PROCEDURE P%; BEGIN @1000[INC(a); ]END P%; ]END M.",
];

const SOURCE: Texts = [
    "Source",
    "a file has over 1,048,576 bytes",
    "The index is the number of the module, from 0, in the order in which they are named; of the list of\nbatch it is 0. Below, @N[ ] stands for what it holds, N times.",
    "M.Mod:\n    MODULE M; END M.@1048560[ ]",
    "$ trc run M.Mod\ntrc: limit 55 Source at 0",
    "M.Mod:\n    MODULE M; END M.@1048559[ ]",
];

const MODULES: Texts = [
    "Modules",
    "over 64 files are named",
    "No file is read then. Below, @N[ ] stands for what it holds, N times.",
    "M.Mod:\n    MODULE M; END M.",
    "$ trc run @65[M.Mod ]\ntrc: limit 56 Modules at 0",
    "$ trc run M.Mod",
];

const TRACES: Texts = [
    "Traces",
    "a program has over 262,144 traces",
    "How many there are goes by --traces. Below, @N[ ] stands for what it holds, N times, with the number\nof the time, from 0, for %.",
    "M.Mod:\n    MODULE M; VAR b: BOOLEAN; @197[PROCEDURE P%; BEGIN b := b@1331[&b] END P%; ]END M.",
    "$ trc mean M.Mod\ntrc: limit 57 Traces at 0",
    "M.Mod:\n    MODULE M; VAR b: BOOLEAN; @196[PROCEDURE P%; BEGIN b := b@1331[&b] END P%; ]END M.",
];

const CONSTANTS: Texts = [
    "Constants",
    "constants take over 262,144 cells",
    "A record type takes 16, and each use of a string of n characters as an array n + 1. Below, @N[ ]\nstands for what it holds, N times, with the number of the time, from 0, for %.",
    "M.Mod:\n    MODULE M; TYPE @16385[T% = RECORD END; ]END M.",
    "$ trc run M.Mod\ntrc: limit 58 Constants at 0",
    "M.Mod:\n    MODULE M; TYPE @16384[T% = RECORD END; ]END M.",
];

const LOCALS: Texts = [
    "Locals",
    "a procedure's local data take over 1,048,576 cells",
    "Its local variables and scalar value parameters count. The index is the procedure's number through\nall modules.",
    "M.Mod:\n    MODULE M; PROCEDURE P; VAR a: ARRAY 1048576 OF CHAR; b: CHAR; END P; END M.",
    "$ trc run M.Mod\ntrc: limit 59 Locals at 0",
    "M.Mod:\n    MODULE M; PROCEDURE P; VAR a: ARRAY 1048576 OF CHAR; END P; END M.",
];

const NOTES: Texts = [
    "Notes",
    "the notes of build --notes would have over 67,108,864 bytes",
    "Notes have for each node what stands in each register and which values are homed. Below, @N[ ]\nstands for what it holds, N times, with the number of the time, from 0, for %.",
    "M.Mod:\n    MODULE M; VAR b: BOOLEAN;\n    @3[PROCEDURE P%; VAR @1300[v%, ]w: BOOLEAN;\n    BEGIN @1300[v% := b; ]w := b@1300[&b]; @1300[b := v%; ]b := w END P%; ]END M.",
    "$ trc build M.img M.Mod --notes M.notes\ntrc: limit 67 Notes at 0",
    "$ trc build M.img M.Mod",
];

const OBJECT: Texts = [
    "Object",
    "an object would have over 67,108,864 bytes",
    "It has for each node what stands in each register and which values are homed. Below, @N[ ] stands\nfor what it holds, N times, with the number of the time, from 0, for %.",
    "M.Mod:\n    MODULE M; VAR b: BOOLEAN;\n    @3[PROCEDURE P%; VAR @1300[v%, ]w: BOOLEAN;\n    BEGIN @1300[v% := b; ]w := b@1300[&b]; @1300[b := v%; ]b := w END P%; ]END M.",
    "$ trc object M.obj M.Mod\ntrc: limit 68 Object at 0",
    "$ trc build M.img M.Mod",
];

const JOBS: Texts = [
    "Jobs",
    "the list of batch has over 1,024 lines",
    "No file of a job is read then. Below, @N[ ] stands for what it holds, N times.",
    "list:\n    @1024[0 M.Mod\n    ]0 M.Mod\nM.Mod:\n    MODULE M; END M.",
    "$ trc batch list\ntrc: limit 69 Jobs at 0",
    "list:\n    @1023[0 M.Mod\n    ]0 M.Mod",
];

const JOB_BYTES: Texts = [
    "JobBytes",
    "the files of a batch's jobs have over 67,108,864 bytes in sum",
    "A file that several jobs name counts for each of them. Below, @N[ ] stands for what it holds, N\ntimes.",
    "list:\n    @64[0 M.Mod\n    ]0 M.Mod\nM.Mod:\n    MODULE M; END M.@1048559[ ]",
    "$ trc batch list\ntrc: limit 70 JobBytes at 0",
    "list:\n    @63[0 M.Mod\n    ]0 M.Mod",
];

const PAGE: Texts = [
    "Page",
    "the page of show would have over 67,108,864 bytes",
    "It has a row for each line of code and in it a cell for each register. Below, @N[ ] stands for what\nit holds, N times, with the number of the time, from 0, for %.",
    "M.Mod:\n    MODULE M; VAR s: INTEGER; @24[PROCEDURE P%; VAR a, b, c, d, e, f, g, h, i, j, k, l: INTEGER;\n    BEGIN a := 1; b := 2; c := 3; d := 4; e := 5; f := 6; g := 7; h := 8; i := 9; j := 10; k := 11;\n    l := 12; s := a@7900[+b]+c+d+e+f+g+h+i+j+k+l END P%; ]END M.",
    "$ trc show page.html M.Mod\ntrc: limit 71 Page at 0",
    "$ trc build M.img M.Mod",
];

/// What the page of this limit says, where there is one.
#[tactic(auto, unfolding(crate::specs::Limits::limit_entry))]
pub fn limit_entry(number: u8) -> Option<Entry>
    ensures { option_map plain result ≡ limit_entry number }
{
    match number {
        50 => Some(entry_with(VALUES)),
        51 => Some(entry_with(BLOCKS)),
        52 => Some(entry_with(PROCEDURES)),
        53 => Some(entry_with(GLOBALS)),
        54 => Some(entry_with(CODE)),
        55 => Some(entry_with(SOURCE)),
        56 => Some(entry_with(MODULES)),
        57 => Some(entry_with(TRACES)),
        58 => Some(entry_with(CONSTANTS)),
        59 => Some(entry_with(LOCALS)),
        67 => Some(entry_with(NOTES)),
        68 => Some(entry_with(OBJECT)),
        69 => Some(entry_with(JOBS)),
        70 => Some(entry_with(JOB_BYTES)),
        71 => Some(entry_with(PAGE)),
        _ => None,
    }
}
