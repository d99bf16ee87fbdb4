//! What names may stand for, and where a construct is judged.

ghost use Rattle.std.specs.Prelude.{◌≡◌, ℕ, List, Some, option_map};
ghost use Rattle.ob_types.specs.Table.{Table};
ghost use Rattle.check_types.specs.TypeMeaning.{type_shape};
ghost use Rattle.check_types.specs.names.Basics.{basic_shape};
ghost use Rattle.check_types.specs.names.Before.{unless_behind};
ghost use Rattle.check_types.specs.names.Meaning.{entry_of};

use crate::names::levels::Level;
use crate::steps::Source;
use crate::{TypeRef, TypeTable};
use items::Items;
use ob_types::Characters;

/// The type of a constant that is no string.
#[derive(Clone, Copy)]
pub enum Basic {
    Int,
    Bool,
    Char,
    Byte,
    Set,
    Nil,
}

impl Basic {
    /// The type.
    pub fn of(self) -> TypeRef
        ensures { (t : Table) → type_shape t result ≡ basic_shape self }
    {
        match self {
            Basic::Int => TypeRef::Int,
            Basic::Bool => TypeRef::Bool,
            Basic::Char => TypeRef::Char,
            Basic::Byte => TypeRef::Byte,
            Basic::Set => TypeRef::Set,
            Basic::Nil => TypeRef::Nil,
        }
    }
}

/// The value of a constant: its type and 64 bits, or the number of its characters among the scope's strings.
#[derive(Clone, Copy)]
pub enum Constant {
    Bits(Basic, u64),
    Chars(u32),
}

/// How a variable may be used: freely; a value parameter of array or record type or In.Done, which are read-only; a VAR
/// parameter of record type, which has a dynamic type; a variable of a module, which is read-only in others.
#[derive(Clone, Copy)]
pub enum Home {
    Free,
    ReadOnly,
    Tagged,
    OfModule,
}

/// Where a variable stands.
#[derive(Clone, Copy)]
pub enum VariablePlace {
    /// In.Done.
    Done,
    /// A variable of a module.
    Global { module: u32, variable: u32 },
    /// A scalar value parameter or a local variable.
    Local(u32),
    /// A parameter that is an address.
    Parameter(u32),
}

/// A variable: its type, where it stands, its module, and the procedure that it belongs to.
#[derive(Clone, Copy)]
pub struct Variable {
    pub of: TypeRef,
    pub place: VariablePlace,
    pub home: Home,
    pub owner: u32,
    pub procedure: Option<u32>,
}

/// The predeclared procedures, and those of Out and In.
#[derive(Clone, Copy)]
pub enum Standard {
    Abs,
    Odd,
    Len,
    Lsl,
    Asr,
    Ror,
    Ord,
    Chr,
    Inc,
    Dec,
    Incl,
    Excl,
    New,
    Assert,
    OutChar,
    OutInt,
    OutString,
    OutLn,
    InChar,
}

/// A module that is imported.
#[derive(Clone, Copy)]
pub enum Imported {
    Out,
    In,
    /// A module before this one, by its number.
    Earlier(u32),
}

/// What a name stands for.
#[derive(Clone, Copy)]
pub enum Named {
    Constant(Constant),
    Type(TypeRef),
    Variable(Variable),
    /// By its number and its signature's; whether it is local to another.
    Procedure {
        number: u32,
        signature: u32,
        is_local: bool,
    },
    Standard(Standard),
    Module(Imported),
}

/// A declaration: what its name stands for, and whether it is exported.
#[derive(Clone, Copy)]
pub struct Declared {
    pub named: Named,
    pub exported: bool,
}

impl Declared {
    // This, unless it is a procedure behind so many.
    #[inline(always)]
    pub(crate) fn seen_before(&self, procedures: u32) -> Option<&Declared>
        ensures { (t : Table) (strings : List (List ℕ)) → option_map (λ d. entry_of t strings d.now) result ≡ unless_behind procedures (Some (entry_of t strings self.now)) }
    {
        match self.named {
            Named::Procedure { number, .. } => {
                if procedures <= number {
                    None
                } else {
                    Some(self)
                }
            }
            _ => Some(self),
        }
    }
}

/// A module before this one: its name, and what its names stand for.
#[derive(Drop)]
pub struct KnownModule {
    pub name: Items<u8>,
    pub names: Level,
}

/// In a part of a CASE on types: the variable, its type there, and the record type.
#[derive(Clone, Copy)]
pub struct Narrowing {
    pub variable: VariablePlace,
    pub of: TypeRef,
    pub tag: u32,
}

/// A procedure's scope that was closed: its names, and how many procedures there were then, in all modules. Of the scopes
/// round it, later procedures aren't seen.
#[derive(Clone, Copy)]
pub struct Closed<'a> {
    pub names: &'a Level,
    pub procedures: u32,
}

/// Where a construct is judged. The innermost scope is the last, unless one that was closed is innermost; the innermost
/// narrowed variable is the last too. The predeclared names aren't among the scopes.
#[derive(Drop)]
pub struct Scope<'a> {
    pub source: &'a Source<'a>,
    pub types: &'a TypeTable,
    pub strings: &'a [Characters],
    pub modules: &'a [KnownModule],
    pub levels: &'a [Level],
    pub closed: Option<Closed<'a>>,
    pub narrowed: &'a [Narrowing],
    pub module_number: u32,
    pub procedure: Option<u32>,
    pub constant: bool,
}
