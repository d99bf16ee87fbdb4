//! A program with its tables.

use crate::first::{first_globals, first_strings};
use crate::row::item;
use crate::rows::{field_rows, global_rows, local_rows, own_cells, text_places, zeroed_cells};
use crate::sizes::{record_cells, sizes};
use eval_store::Objects;
use items::Items;
use ob_types::{Procedure, Program, Types};
use outside::Memory;
use std::alloc::Global;
use std::marker::Model;

/// A program, and where its variables, fields and strings stand: contracts see the program. Each answer is found by one
/// or two indices; none comes for numbers that no checked program has.
#[derive(Drop)]
pub struct LaidProgram<'a> {
    program: &'a Program,
    sizes: Vec<u64>,
    fields: Vec<Items<u64>>,
    globals: Vec<Items<u64>>,
    locals: Vec<Items<u64>>,
    texts: Vec<u64>,
    own: Vec<u64>,
    zeros: Vec<u64>,
}

impl<'a> Model for LaidProgram<'a> {
    ghost use Rattle.ob_types.specs.declared.program.Program.{Program as TheProgram};
    ghost use Rattle.ob_types.specs.contracts.program.Program as e;
    ghost use Rattle.eval_layouts.specs.Lays.{Lays};

    ghost Value = { TheProgram };

    ghost coded = { e.the_row.coded };

    ghost view = { λ t. t.program.now };

    ghost invariant = { λ t. Lays t.program.now t.sizes.items t.fields.items t.globals.items t.locals.items t.texts.items t.own.items t.zeros.items };
}

ghost use Rattle.std.specs.Prelude.{◌≡◌, ℕ, IfSome};
ghost use Rattle.eval_layouts.specs.Tables.{RowsOf};

/// An item of a row of a table, where both are there.
#[inline]
fn item_of(rows: &[Items<u64>], k: u32, i: u32) -> Option<u64>
    ensures { IfSome result (λ n. (f : ℕ → ℕ → ℕ) → RowsOf f rows.now → n ≡ f k i) }
{
    if k as usize >= rows.len() {
        return None;
    }
    let row = &rows[k as usize];
    match item(row.as_slice(), i) {
        Some(n) => Some(n),
        None => None,
    }
}

impl<'a> LaidProgram<'a> {
    ghost use Rattle.std.specs.Prelude.{◌≡◌, take, [], ◌∷◌, map, IfOk, IfSome};
    ghost use Rattle.ob_types.specs.Layout.{cells, cells_of_all, record_cells as cells_of_record, field_place};
    ghost use Rattle.ob_types.specs.Meaning.{procedure_of, globals_of, locals_of, texts_of, text_number, zeroed, zeros};
    ghost use Rattle.ob_types.specs.Store.{Bits};
    ghost use Rattle.eval_layouts.specs.First.{string_of};
    ghost use Rattle.eval_layouts.specs.Lays.{IsMeasured};

    /// A program whose record types have the cells that they say, with its tables.
    pub fn new(alloc: Global, program: &'a Program) -> Result<LaidProgram<'a>, Memory>
        requires { IsMeasured program.now.types }
        ensures { IfOk result (λ t. t ≡ program.now) }
    {
        let sizes = sizes(alloc, &program.types)?;
        let fields = field_rows(alloc, &program.types, sizes.as_slice())?;
        let globals = global_rows(alloc, program, sizes.as_slice())?;
        let locals = local_rows(alloc, program, sizes.as_slice())?;
        let texts = text_places(alloc, program)?;
        let own = own_cells(alloc, program, sizes.as_slice())?;
        let zeros = zeroed_cells(alloc, program, sizes.as_slice())?;
        Ok(LaidProgram {
            program,
            sizes,
            fields,
            globals,
            locals,
            texts,
            own,
            zeros,
        })
    }

    /// The program.
    #[inline]
    pub fn program(&self) -> &'a Program
        ensures { result.now ≡ self.now }
    {
        self.program
    }

    /// Its types.
    #[inline]
    pub fn types(&self) -> &Types
        ensures { result.now ≡ self.now.types }
    {
        &self.program.types
    }

    /// In.Done, and the variables of all modules, before the first body.
    pub fn first_globals(&self, alloc: Global) -> Result<Objects, Memory>
        ensures { IfOk result (λ all. all ≡ (Bits 0 ∷ []) ∷ map (λ m. zeros self.now m.variables) self.now.modules) }
    {
        first_globals(alloc, self.program, self.sizes.as_slice())
    }

    /// The strings of all procedures.
    pub fn first_strings(&self, alloc: Global) -> Result<Objects, Memory>
        ensures { IfOk result (λ all. all ≡ map string_of (texts_of self.now.procedures)) }
    {
        first_strings(alloc, self.program)
    }

    /// A procedure by its number.
    pub fn procedure(&self, g: u32) -> Option<&'a Procedure>
        ensures { IfSome result (λ q. q.now ≡ procedure_of self.now g) }
    {
        self.program.procedures.as_slice().get(g as usize)
    }

    /// The cells of a type.
    #[inline]
    pub fn cells(&self, kind: u32) -> Option<u64>
        ensures { IfSome result (λ n. n ≡ cells self.now.types kind) }
    {
        item(self.sizes.as_slice(), kind)
    }

    /// The cells of a record type.
    pub fn record_cells(&self, r: u32) -> Option<u64>
        ensures { IfSome result (λ n. n ≡ cells_of_record self.now.types r) }
    {
        record_cells(&self.program.types, r)
    }

    /// How many cells into a record a field stands, by the record type that adds it.
    #[inline]
    pub fn field_place(&self, r: u32, field: u32) -> Option<u64>
        ensures { IfSome result (λ n. n ≡ field_place self.now.types r field) }
    {
        item_of(self.fields.as_slice(), r, field)
    }

    /// Where a module's variable stands.
    #[inline]
    pub fn global(&self, module: u32, variable: u32) -> Option<u64>
        ensures { IfSome result (λ n. n ≡ cells_of_all self.now.types (take variable (globals_of self.now «module»))) }
    {
        item_of(self.globals.as_slice(), module, variable)
    }

    /// Where a procedure's variable stands: its scalar value parameters come first.
    #[inline]
    pub fn local(&self, g: u32, variable: u32) -> Option<u64>
        ensures { IfSome result (λ n. n ≡ cells_of_all self.now.types (take variable (locals_of (procedure_of self.now g)))) }
    {
        item_of(self.locals.as_slice(), g, variable)
    }

    /// The number of a procedure's text among all.
    pub fn text_number(&self, g: u32, k: u32) -> Option<u64>
        ensures { IfSome result (λ n. n ≡ text_number self.now g k) }
    {
        match item(self.texts.as_slice(), g) {
            None => None,
            Some(first) => first.checked_add(u64::from(k)),
        }
    }

    /// The cells of a procedure's local variables.
    pub fn own_cells(&self, g: u32) -> Option<u64>
        ensures { IfSome result (λ n. n ≡ cells_of_all self.now.types (procedure_of self.now g).locals) }
    {
        item(self.own.as_slice(), g)
    }

    /// The cells of those that are arrays or records.
    pub fn zeroed_cells(&self, g: u32) -> Option<u64>
        ensures { IfSome result (λ n. n ≡ zeroed self.now (procedure_of self.now g)) }
    {
        item(self.zeros.as_slice(), g)
    }
}
