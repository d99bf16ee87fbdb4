//! Names of rules and limits.

ghost use Rattle.std.specs.Prelude.{◌≡◌};
ghost use Rattle.trc_answers.specs.Names.{name_of_rule, name_of_limit};

/// How a rule of the language is called, by its number; no bytes where no rule has the number.
pub fn rule_name(number: u8) -> &'static str
    ensures { result.now ≡ name_of_rule number }
{
    match number {
        10 => "BadByte",
        11 => "OpenComment",
        12 => "OpenString",
        13 => "NumberTooLarge",
        14 => "NameTooLong",
        20 => "Syntax",
        21 => "TooDeep",
        30 => "Unknown",
        31 => "TypeMismatch",
        32 => "NotConstant",
        33 => "ReadOnly",
        34 => "NotVisible",
        35 => "ConstRange",
        36 => "Redeclared",
        37 => "EndName",
        38 => "ImportOrder",
        39 => "BadLabel",
        40 => "BadParameter",
        41 => "MissingReturn",
        42 => "BadExtension",
        _ => "",
    }
}

/// How a limit of the compiler is called, by its number; no bytes where no limit has the number.
pub fn limit_name(number: u8) -> &'static [u8]
    ensures { result.now ≡ name_of_limit number }
{
    match number {
        50 => b"Values",
        51 => b"Blocks",
        52 => b"Procedures",
        53 => b"Globals",
        54 => b"Code",
        55 => b"Source",
        56 => b"Modules",
        57 => b"Traces",
        58 => b"Constants",
        59 => b"Locals",
        67 => b"Notes",
        68 => b"Object",
        69 => b"Jobs",
        70 => b"JobBytes",
        71 => b"Page",
        _ => b"",
    }
}
