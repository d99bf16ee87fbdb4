//! The predeclared names, and those of Out and In.

ghost use Rattle.std.specs.Prelude.{◌≡◌, ℕ, List, option_map};
ghost use Rattle.std.specs.Str.{bytes_eq};
ghost use Rattle.ob_types.specs.Table.{Table};
ghost use Rattle.ob_judge.specs.Standards.{predeclared as names_before, names_of_out, names_of_in};
ghost use Rattle.check_types.specs.names.Meaning.{entry_of};

use crate::TypeRef;
use crate::names::scope::{Declared, Home, Named, Standard, Variable, VariablePlace};

/// What stands beside the name's spelling in a table, if the name stands there.
macro_rules! in_table {
    ($name:expr, $($spelling:literal => $named:expr),+ $(,)?) => {{
        $(
            if is_name($spelling, $name) {
                return Some(Declared { named: $named, exported: true });
            }
        )+
        None
    }};
}

// Whether two names are the same. Most differ in length already.
#[inline(always)]
fn is_name(spelling: &[u8], name: &[u8]) -> bool
    ensures { result ≡ bytes_eq spelling.now name.now }
{
    spelling.len() == name.len() && spelling == name
}

/// What a name stands for round all modules.
pub fn predeclared(name: &[u8]) -> Option<Declared>
    ensures { (t : Table) (strings : List (List ℕ)) → option_map (entry_of t strings) result ≡ names_before name.now }
{
    in_table!(
        name,
        b"INTEGER" => Named::Type(TypeRef::Int),
        b"BOOLEAN" => Named::Type(TypeRef::Bool),
        b"CHAR" => Named::Type(TypeRef::Char),
        b"BYTE" => Named::Type(TypeRef::Byte),
        b"SET" => Named::Type(TypeRef::Set),
        b"ABS" => Named::Standard(Standard::Abs),
        b"ODD" => Named::Standard(Standard::Odd),
        b"LEN" => Named::Standard(Standard::Len),
        b"LSL" => Named::Standard(Standard::Lsl),
        b"ASR" => Named::Standard(Standard::Asr),
        b"ROR" => Named::Standard(Standard::Ror),
        b"ORD" => Named::Standard(Standard::Ord),
        b"CHR" => Named::Standard(Standard::Chr),
        b"INC" => Named::Standard(Standard::Inc),
        b"DEC" => Named::Standard(Standard::Dec),
        b"INCL" => Named::Standard(Standard::Incl),
        b"EXCL" => Named::Standard(Standard::Excl),
        b"NEW" => Named::Standard(Standard::New),
        b"ASSERT" => Named::Standard(Standard::Assert),
    )
}

/// What a name of Out stands for.
pub fn name_of_out(name: &[u8]) -> Option<Declared>
    ensures { (t : Table) (strings : List (List ℕ)) → option_map (entry_of t strings) result ≡ names_of_out name.now }
{
    in_table!(
        name,
        b"Char" => Named::Standard(Standard::OutChar),
        b"Int" => Named::Standard(Standard::OutInt),
        b"String" => Named::Standard(Standard::OutString),
        b"Ln" => Named::Standard(Standard::OutLn),
    )
}

/// What a name of In stands for.
pub fn name_of_in(name: &[u8]) -> Option<Declared>
    ensures { (t : Table) (strings : List (List ℕ)) → option_map (entry_of t strings) result ≡ names_of_in name.now }
{
    in_table!(
        name,
        b"Char" => Named::Standard(Standard::InChar),
        b"Done" => Named::Variable(Variable {
            of: TypeRef::Bool,
            place: VariablePlace::Done,
            home: Home::ReadOnly,
            owner: 0,
            procedure: None,
        }),
    )
}
