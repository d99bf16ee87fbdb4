//! Characters of strings.

ghost use Rattle.std.specs.Prelude.{◌≡◌, ℕ, List, length, IfOk};
ghost use Rattle.std.specs.Arc.{arc_value};

use items::Items;
use std::alloc::{AllocError, Global};
use std::marker::Model;
use std::sync::Arc;

/// The characters of a string, which all its uses have in common.
#[derive(Drop)]
pub struct Characters {
    shared: Arc<Items<u8>, Global>,
}

impl Model for Characters {
    ghost Value = { List ℕ };

    ghost view = { λ s. arc_value s.shared };
}

impl Characters {
    /// A copy of characters.
    pub fn from_slice(alloc: Global, characters: &[u8]) -> Result<Characters, AllocError>
        ensures { IfOk result (λ s. s ≡ characters.now) }
    {
        let copy = Items::from_slice(alloc, characters)?;
        Ok(Characters {
            shared: Arc::new(alloc, copy)?,
        })
    }

    /// The same characters, for one more use.
    pub fn again(&self) -> Result<Characters, AllocError>
        ensures { IfOk result (λ s. s ≡ self.now) }
    {
        Ok(Characters {
            shared: Arc::try_clone(&self.shared)?,
        })
    }

    /// How many characters there are.
    pub fn len(&self) -> usize
        ensures { result ≡ length self.now }
    {
        self.shared.len()
    }

    /// The characters, lent.
    pub fn as_slice(&self) -> &[u8]
        ensures { result.now ≡ self.now }
    {
        self.shared.as_slice()
    }
}
