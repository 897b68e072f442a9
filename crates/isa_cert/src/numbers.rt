//! Lists of line numbers.
ghost use Rattle.std.specs.Prelude.{◌≡◌, [], ◌∷◌, ◌++◌, length, OnOk};

use std::alloc::{AllocError, Global};
use std::marker::Model;

/// A list of numbers.
#[derive(Drop)]
pub struct Numbers {
    items: Vec<u32>,
}

impl Model for Numbers {
    ghost use Rattle.std.specs.Prelude.{List, ℕ};

    ghost Value = { List ℕ };

    ghost view = { λ a. a.items.items };
}

impl Numbers {
    /// The empty list, which takes no memory.
    pub fn new(alloc: Global) -> Numbers
        ensures { result ≡ [] }
    {
        Numbers {
            items: Vec::new(alloc),
        }
    }

    /// Puts a number last.
    pub fn push(&mut self, item: u32) -> Result<(), AllocError>
        ensures { OnOk result (self.new ≡ self.old ++ item ∷ []) }
    {
        self.items.push(item)?;
        Ok(())
    }

    /// How many numbers there are.
    pub fn len(&self) -> usize
        ensures { result ≡ length self.now }
    {
        self.items.len()
    }

    /// The numbers, in order.
    pub fn as_slice(&self) -> &[u32]
        ensures { result.now ≡ self.now }
    {
        self.items.as_slice()
    }
}

/// A list of pairs of numbers.
#[derive(Drop)]
pub struct Pairs {
    items: Vec<(u32, u32)>,
}

impl Model for Pairs {
    ghost use Rattle.std.specs.Prelude.{List, ℕ};

    ghost Value = { List (ℕ × ℕ) };

    ghost view = { λ a. a.items.items };
}

impl Pairs {
    /// The empty list, which takes no memory.
    pub fn new(alloc: Global) -> Pairs
        ensures { result ≡ [] }
    {
        Pairs {
            items: Vec::new(alloc),
        }
    }

    /// Puts a pair last.
    pub fn push(&mut self, first: u32, second: u32) -> Result<(), AllocError>
        ensures { OnOk result (self.new ≡ self.old ++ (first, second) ∷ []) }
    {
        self.items.push((first, second))?;
        Ok(())
    }

    /// The pairs, in order.
    pub fn as_slice(&self) -> &[(u32, u32)]
        ensures { result.now ≡ self.now }
    {
        self.items.as_slice()
    }
}
