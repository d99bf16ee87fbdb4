//! A checked program: modules and procedures.

use crate::characters::Characters;
use crate::statements::{Checked, Stmt};
use crate::table::Types;
use crate::types::Formal;
use items::Items;
use std::alloc::Global;

/// The value of a constant.
#[derive(Clone, Copy)]
pub enum Constant {
    /// An INTEGER.
    Int(i64),
    /// A BOOLEAN.
    Bool(bool),
    /// A CHAR.
    Char(u8),
    /// A SET, bit i for element i.
    Set(u64),
    /// A string: its characters are the bytes of that module's source from one place up to another.
    Text { module: u32, from: u32, to: u32 },
    /// NIL.
    Nil,
}

/// What a name of a module stands for.
#[derive(Clone, Copy)]
pub enum Entity {
    /// A constant.
    Constant(Constant),
    /// A type, by its number.
    Type(u32),
    /// A variable, by its place among the module's.
    Variable(u32),
    /// A procedure, by its number.
    Procedure(u32),
}

/// A name that a module declares.
#[derive(Drop)]
pub struct Object {
    /// Its bytes.
    pub name: Items<u8>,
    /// Whether other modules see it.
    pub exported: bool,
    /// What it stands for.
    pub entity: Entity,
}

/// A module.
#[derive(Drop)]
pub struct Module {
    /// Its name's bytes.
    pub name: Items<u8>,
    /// The names that it declares, in the order of their declarations.
    pub objects: Items<Object>,
    /// The types of its variables, in order.
    pub variables: Items<u32>,
    /// The number of its body.
    pub body: u32,
}

/// A procedure, or a module's body.
#[derive(Drop)]
pub struct Procedure {
    /// The module that it stands in.
    pub module: u32,
    /// The line of its name in its heading, or of the module's name, counted from 1.
    pub line: u32,
    /// Whether it is a module's body. Those have no parameters, local variables and result.
    pub is_body: bool,
    /// The parameters, in order.
    pub formals: Items<Formal>,
    /// The type of the result, of kind `Nothing` where there is none.
    pub result: u32,
    /// The types of its local variables, in order.
    pub locals: Items<u32>,
    /// The characters of each use of a string as an array, without the 0X behind them, in the order of the source.
    pub texts: Items<Characters>,
    /// What it does.
    pub body: Items<Stmt>,
    /// The expression behind RETURN.
    pub answer: Option<Checked>,
}

/// All modules of a program, in the order in which their bodies run.
///
/// Procedures are numbered over all modules, within a module in the order of their headings, its body last.
#[derive(Drop)]
pub struct Program {
    /// All types.
    pub types: Types,
    /// The modules.
    pub modules: Items<Module>,
    /// The procedures and bodies.
    pub procedures: Items<Procedure>,
    /// Whether some module imports In.
    pub imports_in: bool,
}

impl Program {
    ghost use Rattle.std.specs.Prelude.{◌≡◌, [], false};

    /// A program without modules; takes no memory.
    pub fn new(alloc: Global) -> Program
        ensures { result ≡ record { types = record { kinds = []; records = []; signatures = [] }; modules = []; procedures = []; imports_in = false } }
    {
        Program {
            types: Types::new(alloc),
            modules: Items::new(alloc),
            procedures: Items::new(alloc),
            imports_in: false,
        }
    }
}
