//! Fields of record types by their names (Oberon-07 report, section 6.3).

ghost use Rattle.std.specs.Prelude.{◌≡◌, ℕ, List, Some, None, IfOk, IfErr, cond, map};
ghost use Rattle.std.specs.Arc.{arc_value};
ghost use Rattle.std.specs.Str.{bytes_eq};
ghost use Rattle.check_types.specs.steps.Maps.{at_bytes};
ghost use Rattle.check_types.specs.Fields.{in_maps, at_fields};

use crate::steps::CheckFault;
use crate::types::TypeRef;
use std::alloc::Global;
use std::collections::BTreeMap;
use std::sync::Arc;

/// A field by its name: the record type that adds it and its place among those that this one adds, its type, and
/// whether it is exported, and by which module.
#[derive(Clone, Copy)]
pub struct FieldEntry {
    pub adder: u32,
    pub number: u32,
    pub of: TypeRef,
    pub exported: bool,
    pub owner: u32,
}

/// Fields by their names: a record type's own while they are judged, and those that it has in common with all types that
/// extend it, its bases' first.
#[derive(Drop)]
pub struct Fields {
    pub own: BTreeMap<Vec<u8>, FieldEntry>,
    pub common: Vec<Arc<BTreeMap<Vec<u8>, FieldEntry>, Global>>,
}

// What the last of these maps that has the name says of it.
fn last_of(maps: &[Arc<BTreeMap<Vec<u8>, FieldEntry>, Global>], name: &[u8]) -> Option<FieldEntry>
    ensures { result ≡ in_maps (map arc_value maps.now) name.now }
{
    let mut found = None;
    for fields in maps {
        if let Some(entry) = fields.get(name) {
            found = Some(*entry);
        }
    }
    found
}

// A copy of what names stand for.
fn copied(
    fields: &BTreeMap<Vec<u8>, FieldEntry>,
) -> Result<BTreeMap<Vec<u8>, FieldEntry>, CheckFault>
    ensures same { IfOk result (λ m. (q : List ℕ) → at_bytes m q ≡ at_bytes fields.now q) }
    ensures memory { IfErr result (λ e. e ≡ CheckFault.Memory) }
{
    Ok(fields.clone()?)
}

// The same maps, for one more type.
fn also(
    alloc: Global,
    maps: &[Arc<BTreeMap<Vec<u8>, FieldEntry>, Global>],
) -> Result<Vec<Arc<BTreeMap<Vec<u8>, FieldEntry>, Global>>, CheckFault>
    ensures same { IfOk result (λ v. map arc_value v.items ≡ map arc_value maps.now) }
    ensures memory { IfErr result (λ e. e ≡ CheckFault.Memory) }
{
    let mut all = Vec::new(alloc);
    for fields in maps {
        all.push(Arc::try_clone(fields)?)?;
    }
    Ok(all)
}

impl Fields {
    /// No fields; takes no memory.
    pub fn new(alloc: Global) -> Fields
        ensures { (q : List ℕ) → at_fields result q ≡ None }
    {
        Fields {
            own: BTreeMap::new(alloc),
            common: Vec::new(alloc),
        }
    }

    /// A field by its name.
    pub fn get(&self, name: &[u8]) -> Option<FieldEntry>
        ensures { result ≡ at_fields self.now name.now }
    {
        match self.own.get(name) {
            Some(entry) => Some(*entry),
            None => last_of(&self.common, name),
        }
    }

    /// One more field.
    pub fn with(self, name: Vec<u8>, entry: FieldEntry) -> Result<Fields, CheckFault>
        ensures with { IfOk result (λ f. (q : List ℕ) → at_fields f q ≡ cond (bytes_eq name.items q) (Some entry) (at_fields self q)) }
        ensures memory { IfErr result (λ e. e ≡ CheckFault.Memory) }
    {
        let mut own = self.own;
        own.insert(name, entry)?;
        Ok(Fields {
            own,
            common: self.common,
        })
    }

    /// The same, where no more are added: types that extend this one have them in common with it.
    pub fn complete(self, alloc: Global) -> Result<Fields, CheckFault>
        ensures same { IfOk result (λ f. (q : List ℕ) → at_fields f q ≡ at_fields self q) }
        ensures memory { IfErr result (λ e. e ≡ CheckFault.Memory) }
    {
        let mut common = self.common;
        common.push(Arc::new(alloc, self.own)?)?;
        Ok(Fields {
            own: BTreeMap::new(alloc),
            common,
        })
    }

    /// The same, for a type that extends this one.
    pub fn extended(&self, alloc: Global) -> Result<Fields, CheckFault>
        ensures same { IfOk result (λ f. (q : List ℕ) → at_fields f q ≡ at_fields self.now q) }
        ensures memory { IfErr result (λ e. e ≡ CheckFault.Memory) }
    {
        let own = copied(&self.own)?;
        let common = also(alloc, &self.common)?;
        Ok(Fields { own, common })
    }
}
