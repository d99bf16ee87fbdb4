//! Where data stands, for the program and the procedure that are lowered.

ghost use Rattle.std.specs.Prelude.{◌≡◌, ℕ, ◌+◌, ◌*◌, ◌<◌, ◌^◌, min, is_none, Option, Some, None};
ghost use Rattle.ssa_exprs.specs.Tables.{clamped, of_row, global_in, descriptor_in, level_in, size_in, offset_in, first_text_in, text_in, record_in, cells_in, local_in};

use crate::named::Named;
use items::Items;

/// What all procedures of a program share: addresses, offsets and sizes in bytes, each list by the numbers that the checked tree
/// has. Behind the last variable of a module, field of a record type or string stands where the next one would.
#[derive(Drop)]
pub struct ProgramTables {
    /// The addresses of each module's variables.
    pub globals: Items<Items<u32>>,
    /// The address behind all variables, where the descriptors begin.
    pub descriptors: u32,
    /// The levels of the record types.
    pub levels: Items<u32>,
    /// The offsets of the fields that each record type adds.
    pub offsets: Items<Items<u32>>,
    /// The size of each type.
    pub sizes: Items<u32>,
    /// The size of each record type.
    pub records: Items<u32>,
    /// How many cells each record type has.
    pub cells: Items<u32>,
    /// How many cells each type has.
    pub type_cells: Items<u32>,
    /// The addresses of all strings.
    pub texts: Items<u32>,
    /// Which of them is each procedure's first.
    pub first_texts: Items<u32>,
}

/// The tables of a procedure: what it shares with the others, and what is its own.
#[derive(Drop)]
pub struct Tables<'a> {
    pub program: &'a ProgramTables,
    /// Which of the program's strings is its first.
    pub first_text: u32,
    /// What the parameters name.
    pub parameters: Items<Named>,
    /// The distance of each variable in memory from the end of the local data; none for variables in registers.
    pub locals: Items<Option<u32>>,
}

/// The item of a number, or the last one.
fn clamped(list: &[u32], i: usize) -> u32
    ensures { result ≡ clamped list.now i }
{
    if i < list.len() {
        list[i]
    } else if list.len() == 0 {
        0
    } else {
        list[list.len() - 1]
    }
}

/// The item of a number in the list of a number; a number where there is no such list.
fn of_row(lists: &[Items<u32>], i: usize, j: usize, other: u32) -> u32
    ensures { result ≡ of_row lists.now i j other }
{
    if i < lists.len() {
        clamped(lists[i].as_slice(), j)
    } else {
        other
    }
}

impl ProgramTables {
    /// The address of a module's variable.
    pub fn global(&self, unit: u32, variable: u32) -> u32
        ensures { result ≡ global_in self.now unit variable }
    {
        of_row(
            self.globals.as_slice(),
            unit as usize,
            variable as usize,
            self.descriptors,
        )
    }

    /// The address of a record type's descriptor.
    pub fn descriptor(&self, r: u32) -> u32
        ensures { result ≡ descriptor_in self.now r }
    {
        let at = u64::from(self.descriptors) + 128 * u64::from(r);
        if at < 16777215 { at as u32 } else { 16777215 }
    }

    /// The level of a record type.
    pub fn level(&self, r: u32) -> u32
        ensures { result ≡ level_in self.now r }
    {
        let levels = self.levels.as_slice();
        if (r as usize) < levels.len() {
            levels[r as usize]
        } else {
            0
        }
    }

    /// The size of a type.
    pub fn size(&self, k: u32) -> u32
        ensures { result ≡ size_in self.now k }
    {
        let sizes = self.sizes.as_slice();
        if (k as usize) < sizes.len() {
            sizes[k as usize]
        } else {
            8
        }
    }

    /// The size of a record type.
    pub fn record(&self, r: u32) -> u32
        ensures { result ≡ record_in self.now r }
    {
        let records = self.records.as_slice();
        if (r as usize) < records.len() {
            records[r as usize]
        } else {
            0
        }
    }

    /// How many cells a record type has.
    pub fn record_cells(&self, r: u32) -> u32
        ensures { result ≡ cells_in self.now r }
    {
        let cells = self.cells.as_slice();
        if (r as usize) < cells.len() {
            cells[r as usize]
        } else {
            0
        }
    }

    /// The offset of a field.
    pub fn offset(&self, r: u32, field: u32) -> u32
        ensures { result ≡ offset_in self.now r field }
    {
        of_row(self.offsets.as_slice(), r as usize, field as usize, 0)
    }

    /// Which string is a procedure's first.
    pub fn first_text(&self, f: u32) -> u32
        ensures { result ≡ first_text_in self.now f }
    {
        let first_texts = self.first_texts.as_slice();
        if (f as usize) < first_texts.len() {
            first_texts[f as usize]
        } else {
            0
        }
    }
}

impl Tables<'_> {
    /// Whether a local variable is in a register.
    pub fn in_register(&self, x: u32) -> bool
        ensures { result ≡ is_none (local_in self.now x) }
    {
        let locals = self.locals.as_slice();
        if (x as usize) < locals.len() {
            locals[x as usize].is_none()
        } else {
            true
        }
    }

    /// The address of a string of the procedure.
    pub fn text(&self, k: u32) -> u32
        ensures { result ≡ text_in self.now k }
    {
        clamped(
            self.program.texts.as_slice(),
            self.first_text as usize + k as usize,
        )
    }
}
