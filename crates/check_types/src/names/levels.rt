//! The names of one scope.

ghost use Rattle.std.specs.Prelude.{◌≡◌, ℕ, List, option_map, OnOk};
ghost use Rattle.ob_types.specs.Table.{Table};
ghost use Rattle.ob_judge.specs.Scopes.{declare, no_names};
ghost use Rattle.check_types.specs.names.Before.{names_before};
ghost use Rattle.check_types.specs.names.Meaning.{entry_of, names_of};

use crate::names::scope::Declared;
use std::alloc::{AllocError, Global};
use std::collections::BTreeMap;

/// The names of one scope, by their bytes.
#[derive(Drop)]
pub struct Level {
    pub names: BTreeMap<Vec<u8>, Declared>,
}

impl Level {
    // The declaration of a name in this scope.
    pub(crate) fn seen(&self, name: &[u8]) -> Option<&Declared>
        ensures { (t : Table) (strings : List (List ℕ)) → option_map (λ d. entry_of t strings d.now) result ≡ names_of t strings self.now name.now }
    {
        self.names.get(name)
    }

    // The declaration of a name in this scope, unless it is a procedure behind so many.
    pub(crate) fn seen_before(&self, procedures: u32, name: &[u8]) -> Option<&Declared>
        ensures { (t : Table) (strings : List (List ℕ)) → option_map (λ d. entry_of t strings d.now) result ≡ names_before procedures (names_of t strings self.now) name.now }
    {
        match self.seen(name) {
            None => None,
            Some(declared) => declared.seen_before(procedures),
        }
    }

    /// What a name stands for in this scope.
    pub fn find(&self, name: &[u8]) -> Option<Declared>
        ensures { (t : Table) (strings : List (List ℕ)) → option_map (entry_of t strings) result ≡ names_of t strings self.now name.now }
    {
        self.seen(name).copied()
    }

    /// Declares a name.
    pub fn declare(
        &mut self,
        alloc: Global,
        name: &[u8],
        declared: Declared,
    ) -> Result<(), AllocError>
        ensures { OnOk result ((t : Table) (strings : List (List ℕ)) → names_of t strings self.new ≡ declare name.now (entry_of t strings declared) (names_of t strings self.old)) }
    {
        let key = Vec::from_slice(alloc, name)?;
        self.names.insert(key, declared)?;
        Ok(())
    }
}
