// The list that grows item by item, with the allocator that it was made with.
ghost use Rattle.std.specs.Prelude.{◌≡◌, ◌++◌, [], ◌∷◌, IfOk, OnErr};

use crate::NoMemory;
use std::alloc::Global;
use std::marker::Model;

/// A list that grows at its end. Contracts see its items, in the order in which they were added. Each list of the answers
/// is one of these under a name of its own, as `Side` and `Numbers` here.
#[derive(Drop)]
pub struct List<T: Drop> {
    items: Vec<T>,
}

impl<T: Drop> Model for List<T> {
    ghost use Rattle.std.specs.Prelude as prelude;

    ghost Value = { prelude.List T };

    ghost view = { λ list. list.items.items };
}

impl<T: Drop> List<T> {
    /// The empty list. It takes no memory.
    pub fn new(alloc: Global) -> List<T>
        ensures { result ≡ [] }
    {
        List {
            items: Vec::new(alloc),
        }
    }

    /// The list of the items of `items`. It takes no memory.
    pub fn from_vec(items: Vec<T>) -> List<T>
        ensures { result ≡ items.items }
    {
        List { items }
    }

    /// The vector of the items. It takes no memory.
    pub fn into_vec(self) -> Vec<T>
        ensures { result.items ≡ self }
    {
        let List { items } = self;
        items
    }

    /// Adds the item at the end. `NoMemory` leaves the list as it was, and drops the item.
    pub fn push(&mut self, item: T) -> Result<(), NoMemory>
        ensures added { IfOk result (λ _. self.new ≡ self.old ++ item ∷ []) }
        ensures unchanged { OnErr result (self.new ≡ self.old) }
    {
        self.items.push(item)?;
        Ok(())
    }

    /// The items, in the order in which they were added.
    pub fn get(&self) -> &[T]
        ensures { result.now ≡ self.now }
    {
        self.items.as_slice()
    }
}

/// A list of truth values, as of a side: one per node.
pub type Side = List<bool>;

/// A list of whole numbers, as of a flow: one per arc.
pub type Numbers = List<i128>;
