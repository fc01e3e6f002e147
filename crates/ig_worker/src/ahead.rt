//! What lies ahead of a worker, in order.
ghost use Rattle.std.specs.Prelude.{◌≡◌, ◌<◌, ◌↔◌, [], ◌∷◌, ◌++◌, length, slice_get, IsTrue, IsSome, IsNone, IfOk, OnOk, OnErr, option_to_list};
ghost use Rattle.std.specs.Option.{option_copied};

use ig_space::List;
use std::alloc::{AllocError, Global};
use std::collections::VecDeque;
use std::marker::Model;

/// A list of items that are taken from its front, seen by contracts as that list.
#[derive(Debug, Drop)]
pub struct Ahead<T> {
    items: VecDeque<T>,
}

impl<T> Model for Ahead<T> {
    ghost use Rattle.std.specs.Prelude.{List as list};

    ghost Value = { list T };

    ghost view = { λ a. a.items.items };
}

impl<T> Ahead<T> {
    /// Nothing.
    pub fn new(alloc: Global) -> Self
        ensures { result ≡ [] }
    {
        Ahead {
            items: VecDeque::new(alloc),
        }
    }

    /// How many items there are.
    pub fn len(&self) -> usize
        ensures { result ≡ length self.now }
    {
        self.items.len()
    }

    /// Whether there is no item.
    pub fn is_empty(&self) -> bool
        ensures { IsTrue result ↔ (self.now ≡ []) }
    {
        self.items.is_empty()
    }

    /// The item at the front.
    pub fn first(&self) -> Option<&T>
        ensures { option_copied result ≡ slice_get self.now 0 }
    {
        self.items.front()
    }

    /// Takes out the item at the front.
    pub fn take(&mut self) -> Option<T>
        ensures some { IsSome result ↔ (0 < length self.old) }
        ensures first { self.old ≡ option_to_list result ++ self.new }
        ensures empty { IsNone result → self.old ≡ [] }
    {
        self.items.pop_front()
    }
}

impl<T: Drop> Ahead<T> {
    /// Adds an item at the end.
    pub fn push(&mut self, item: T) -> Result<(), AllocError>
        ensures ok { OnOk result (self.new ≡ self.old ++ item ∷ []) }
        ensures err { OnErr result (self.new ≡ self.old) }
    {
        self.items.push_back(item)?;
        Ok(())
    }

    /// Adds an item at the front.
    fn push_front(&mut self, item: T) -> Result<(), AllocError>
        ensures ok { OnOk result (self.new ≡ item ∷ self.old) }
    {
        self.items.push_front(item)?;
        Ok(())
    }

    /// The items of a list.
    pub fn of(alloc: Global, list: List<T>) -> Result<Self, AllocError>
        ensures { IfOk result (λ items. items ≡ list) }
    {
        let mut list = list;
        let mut items = Ahead::new(alloc);
        while let Some(item) = list.pop() {
            items.push_front(item)?;
        }
        Ok(items)
    }
}
