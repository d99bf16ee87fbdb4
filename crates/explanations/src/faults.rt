//! Faults of modules.

ghost use Rattle.std.specs.Prelude.{◌≡◌, option_map};
ghost use Rattle.explanations.specs.Entries.{plain};
ghost use Rattle.explanations.specs.Faults.{fault_entry};

use crate::entry::{Entry, Texts, entry_with};

const BAD_BYTE: Texts = [
    "BadByte",
    "a byte begins no symbol",
    "Outside of strings and comments a text holds blanks, letters, digits and the marks of the language.\nThe place is the byte.",
    "M.Mod:\n    MODULE M; BEGIN ! END M.",
    "$ trc run M.Mod\ntrc: M.Mod:1:17: error 10 BadByte",
    "M.Mod:\n    MODULE M; BEGIN END M.",
];

const OPEN_COMMENT: Texts = [
    "OpenComment",
    "a comment isn't closed",
    "Comments nest: each (* wants a *) of its own. The place is the outermost (*.",
    "M.Mod:\n    MODULE M; (* a (* b *) END M.",
    "$ trc run M.Mod\ntrc: M.Mod:1:11: error 11 OpenComment",
    "M.Mod:\n    MODULE M; (* a (* b *) *) END M.",
];

const OPEN_STRING: Texts = [
    "OpenString",
    "the line or the text ends before a string's closing quote",
    "A string ends on the line on which it begins. The place is the opening quote.",
    "M.Mod:\n    MODULE M; CONST s = \"abc; END M.",
    "$ trc run M.Mod\ntrc: M.Mod:1:21: error 12 OpenString",
    "M.Mod:\n    MODULE M; CONST s = \"abc\"; END M.",
];

const NUMBER_TOO_LARGE: Texts = [
    "NumberTooLarge",
    "a literal is past its range",
    "A decimal number is at most 9223372036854775807, a hexadecimal one 0FFFFFFFFFFFFFFFFH, a character\n0FFX. The place is its first digit.",
    "M.Mod:\n    MODULE M; CONST n = 9223372036854775808; END M.",
    "$ trc run M.Mod\ntrc: M.Mod:1:21: error 13 NumberTooLarge",
    "M.Mod:\n    MODULE M; CONST n = 9223372036854775807; END M.",
];

const NAME_TOO_LONG: Texts = [
    "NameTooLong",
    "a name has over 255 bytes",
    "The place is its first byte. Below, @N[ ] stands for what it holds, N times.",
    "M.Mod:\n    MODULE M; VAR @256[a]: CHAR; END M.",
    "$ trc run M.Mod\ntrc: M.Mod:1:15: error 14 NameTooLong",
    "M.Mod:\n    MODULE M; VAR @255[a]: CHAR; END M.",
];

const SYNTAX: Texts = [
    "Syntax",
    "no module has this symbol here",
    "The symbols before it begin some module, and with it they begin none. The place is the symbol, or\nthe text's end.",
    "M.Mod:\n    MODULE M; BEGIN IF END M.",
    "$ trc run M.Mod\ntrc: M.Mod:1:20: error 20 Syntax",
    "M.Mod:\n    MODULE M; BEGIN IF TRUE THEN END END M.",
];

const TOO_DEEP: Texts = [
    "TooDeep",
    "over 100 constructs are open at once",
    "What counts are parentheses, brackets and braces, ~, structured statements, types and procedures.\nThe place is the symbol that opens the 101st. Below, @N[ ] stands for what it holds, N times.",
    "M.Mod:\n    MODULE M; VAR i: INTEGER; BEGIN i := @101[(]1@101[)] END M.",
    "$ trc run M.Mod\ntrc: M.Mod:1:138: error 21 TooDeep",
    "M.Mod:\n    MODULE M; VAR i: INTEGER; BEGIN i := @100[(]1@100[)] END M.",
];

const UNKNOWN: Texts = [
    "Unknown",
    "a name isn't declared, or a record has no such field",
    "A name is known behind its declaration, up to the end of the procedure or module that declares it.\nThe place is the name.",
    "M.Mod:\n    MODULE M; BEGIN x := 1 END M.",
    "$ trc run M.Mod\ntrc: M.Mod:1:17: error 30 Unknown",
    "M.Mod:\n    MODULE M; VAR x: INTEGER; BEGIN x := 1 END M.",
];

const TYPE_MISMATCH: Texts = [
    "TypeMismatch",
    "a type doesn't fit what is done with it",
    "Types have to fit an operator, an assignment, an argument, a guard, a condition or a selector, and\nwhat a name stands for has to be of the sort that is wanted. The place is the operator, else the\nfirst symbol of what was judged.",
    "M.Mod:\n    MODULE M; VAR b: BOOLEAN; BEGIN b := 1 END M.",
    "$ trc run M.Mod\ntrc: M.Mod:1:38: error 31 TypeMismatch",
    "M.Mod:\n    MODULE M; VAR b: BOOLEAN; BEGIN b := TRUE END M.",
];

const NOT_CONSTANT: Texts = [
    "NotConstant",
    "a constant expression has something else in it",
    "Literals, declared constants, sets, operators and ABS, ODD, LSL, ASR, ROR, ORD and CHR are constant.\nThe place is what isn't.",
    "M.Mod:\n    MODULE M; VAR n: INTEGER; a: ARRAY n OF CHAR; END M.",
    "$ trc run M.Mod\ntrc: M.Mod:1:36: error 32 NotConstant",
    "M.Mod:\n    MODULE M; CONST n = 3; VAR a: ARRAY n OF CHAR; END M.",
];

const READ_ONLY: Texts = [
    "ReadOnly",
    "what is written to can only be read",
    "A value parameter of array or record type, a variable of another module, In.Done, and parts of these\ncan only be read, and are no VAR arguments. The place is the designator.",
    "M.Mod:\n    MODULE M; IMPORT In; BEGIN In.Done := TRUE END M.",
    "$ trc run M.Mod\ntrc: M.Mod:1:28: error 33 ReadOnly",
    "M.Mod:\n    MODULE M; IMPORT In; VAR done: BOOLEAN; BEGIN done := In.Done END M.",
];

const NOT_VISIBLE: Texts = [
    "NotVisible",
    "a name isn't seen from here",
    "Of another module the names and fields with a star are seen. A variable or a parameter is seen in\nits own procedure, and not in the procedures inside it. The place is the name.",
    "M.Mod:\n    MODULE M; PROCEDURE P; VAR x: INTEGER; PROCEDURE Q; BEGIN x := 1 END Q; END P; END M.",
    "$ trc run M.Mod\ntrc: M.Mod:1:59: error 34 NotVisible",
    "M.Mod:\n    MODULE M; VAR x: INTEGER; PROCEDURE P; PROCEDURE Q; BEGIN x := 1 END Q; END P; END M.",
];

const CONST_RANGE: Texts = [
    "ConstRange",
    "a constant is out of range",
    "A constant expression would trap, a length isn't from 1 to 1,048,576, a type has over 1,048,576\ncells, or a step of FOR is 0. The place is the expression's first symbol, or ARRAY or RECORD.",
    "M.Mod:\n    MODULE M; CONST n = 1 DIV 0; END M.",
    "$ trc run M.Mod\ntrc: M.Mod:1:21: error 35 ConstRange",
    "M.Mod:\n    MODULE M; CONST n = 1 DIV 1; END M.",
];

const REDECLARED: Texts = [
    "Redeclared",
    "a name is declared twice",
    "A name stands once in a scope, in a record with its bases, among the modules, Out and In, and among\nthe parameters of a procedure type. The place is the second.",
    "M.Mod:\n    MODULE M; VAR x, x: INTEGER; END M.",
    "$ trc run M.Mod\ntrc: M.Mod:1:18: error 36 Redeclared",
    "M.Mod:\n    MODULE M; VAR x, y: INTEGER; END M.",
];

const END_NAME: Texts = [
    "EndName",
    "the name behind END is another",
    "A module and a procedure end with their own name. The place is the name behind END.",
    "M.Mod:\n    MODULE M; END N.",
    "$ trc run M.Mod\ntrc: M.Mod:1:15: error 37 EndName",
    "M.Mod:\n    MODULE M; END M.",
];

const IMPORT_ORDER: Texts = [
    "ImportOrder",
    "what is imported is no earlier module",
    "Modules are named behind those that they import, as in trc run Stack.Mod UseStack.Mod; Out and In\nare always there. The place is the module's name.",
    "M.Mod:\n    MODULE M; IMPORT N; END M.",
    "$ trc run M.Mod\ntrc: M.Mod:1:18: error 38 ImportOrder",
    "M.Mod:\n    MODULE M; IMPORT Out; END M.",
];

const BAD_LABEL: Texts = [
    "BadLabel",
    "a label of CASE doesn't fit",
    "A label is a constant of the selector's type, or a type that extends it; a range runs upward; no two\nlabels overlap; a part for a type has one label. The place is the label, or the range's first.",
    "M.Mod:\n    MODULE M; VAR i: INTEGER; BEGIN CASE i OF 1: | 0 .. 3: END END M.",
    "$ trc run M.Mod\ntrc: M.Mod:1:48: error 39 BadLabel",
    "M.Mod:\n    MODULE M; VAR i: INTEGER; BEGIN CASE i OF 1: | 0, 2 .. 3: END END M.",
];

const BAD_PARAMETER: Texts = [
    "BadParameter",
    "an argument or a parameter doesn't fit",
    "There are more or fewer arguments than parameters, a VAR argument is no variable, or parameters take\nover 24 argument words. The place is the call's designator, the argument or the parameter.",
    "M.Mod:\n    MODULE M; IMPORT Out; BEGIN Out.Int(1) END M.",
    "$ trc run M.Mod\ntrc: M.Mod:1:29: error 40 BadParameter",
    "M.Mod:\n    MODULE M; IMPORT Out; BEGIN Out.Int(1, 0) END M.",
];

const MISSING_RETURN: Texts = [
    "MissingReturn",
    "a procedure with a result has no RETURN, or another has one",
    "The place is the procedure's END, or RETURN.",
    "M.Mod:\n    MODULE M; PROCEDURE P(): INTEGER; END P; END M.",
    "$ trc run M.Mod\ntrc: M.Mod:1:35: error 41 MissingReturn",
    "M.Mod:\n    MODULE M; PROCEDURE P(): INTEGER; RETURN 1 END P; END M.",
];

const BAD_EXTENSION: Texts = [
    "BadExtension",
    "a base can't be extended",
    "A base is a record type, and has under 15 bases itself. The place is its name.",
    "M.Mod:\n    MODULE M; TYPE T = RECORD (INTEGER) END; END M.",
    "$ trc run M.Mod\ntrc: M.Mod:1:28: error 42 BadExtension",
    "M.Mod:\n    MODULE M; TYPE A = RECORD END; T = RECORD (A) END; END M.",
];

/// What the page of this fault says, where there is one.
#[tactic(auto, unfolding(crate::specs::Faults::fault_entry))]
pub fn fault_entry(number: u8) -> Option<Entry>
    ensures { option_map plain result ≡ fault_entry number }
{
    match number {
        10 => Some(entry_with(BAD_BYTE)),
        11 => Some(entry_with(OPEN_COMMENT)),
        12 => Some(entry_with(OPEN_STRING)),
        13 => Some(entry_with(NUMBER_TOO_LARGE)),
        14 => Some(entry_with(NAME_TOO_LONG)),
        20 => Some(entry_with(SYNTAX)),
        21 => Some(entry_with(TOO_DEEP)),
        30 => Some(entry_with(UNKNOWN)),
        31 => Some(entry_with(TYPE_MISMATCH)),
        32 => Some(entry_with(NOT_CONSTANT)),
        33 => Some(entry_with(READ_ONLY)),
        34 => Some(entry_with(NOT_VISIBLE)),
        35 => Some(entry_with(CONST_RANGE)),
        36 => Some(entry_with(REDECLARED)),
        37 => Some(entry_with(END_NAME)),
        38 => Some(entry_with(IMPORT_ORDER)),
        39 => Some(entry_with(BAD_LABEL)),
        40 => Some(entry_with(BAD_PARAMETER)),
        41 => Some(entry_with(MISSING_RETURN)),
        42 => Some(entry_with(BAD_EXTENSION)),
        _ => None,
    }
}
