ghost use Rattle.std.specs.Prelude.{◌≡◌, ◌<◌, ◌↔◌, [], ◌∷◌, ◌++◌, length, slice_get, slice_set, Some, IsTrue, IsSome, IfSome, IfOk, OnOk, OnErr, option_to_list};
ghost use Rattle.std.specs.Option.{option_copied};
ghost use Rattle.std.specs.Borrow.{LendsIf, sem};
ghost use Rattle.ig_space.specs.contracts.list.List.{the_row};

use crate::{Path, Text};
use std::alloc::{AllocError, Global};
use std::marker::Model;

/// Bytes, as a file holds them.
pub type Bytes = List<u8>;

/// Names of files, each without its directory.
pub type Names = List<Text>;

/// Paths of files.
pub type Paths = List<Path>;

/// The part of each voxel of a box, x fastest, then y, then z; 0 is no part.
pub type Locals = List<u32>;

/// The first voxel of each part of a box, by its number in the box.
pub type Firsts = List<u32>;

/// For each node the least node of its class.
pub type Classes = List<u32>;

/// Labels, one for each part of a box.
pub type Values = List<u64>;

/// A list of items, seen by contracts as that list. It keeps the allocator that it was made with.
#[derive(Debug, Drop)]
pub struct List<T> {
    items: Vec<T>,
}

impl<T> Model for List<T> {
    ghost use Rattle.std.specs.Prelude.{List as list};

    ghost Value = { list T };

    ghost view = { λ l. l.items.items };
}

impl<T> List<T> {
    /// The empty list.
    pub fn new(alloc: Global) -> Self
        ensures { result ≡ [] }
    {
        List {
            items: Vec::new(alloc),
        }
    }

    /// The items of this vector, which keeps its memory.
    pub fn from_vec(items: Vec<T>) -> Self
        ensures { result ≡ items.items }
    {
        List { items }
    }

    /// How many items there are.
    pub fn len(&self) -> usize
        ensures { result ≡ length self.now }
    {
        self.items.len()
    }

    /// Whether there is no item.
    pub fn is_empty(&self) -> bool
        ensures { IsTrue result ↔ (self.now ≡ []) }
    {
        self.items.is_empty()
    }

    /// The item at this place, counted from 0.
    pub fn get(&self, place: usize) -> Option<&T>
        ensures { option_copied result ≡ slice_get self.now place }
    {
        self.items.get(place)
    }

    /// The item at this place, to be changed.
    pub fn get_mut(&mut self, place: usize) -> Option<&mut T>
        ensures* writes_back { sem 𝓛 (LendsIf (the_row T.row) T.row self.entry result (λ item. slice_set self.old place item) self.old) }
        ensures some { IsSome result ↔ (place < length self.old) }
        ensures value { IfSome result (λ item. slice_get self.old place ≡ Some item.now) }
    {
        self.items.get_mut(place)
    }

    /// All items as a slice.
    pub fn as_slice(&self) -> &[T]
        ensures { result.now ≡ self.now }
    {
        self.items.as_slice()
    }

    /// Takes out the last item.
    pub fn pop(&mut self) -> Option<T>
        ensures some { IsSome result ↔ (0 < length self.old) }
        ensures last { self.old ≡ self.new ++ option_to_list result }
    {
        self.items.pop()
    }
}

impl<T: Drop> List<T> {
    /// Adds an item at the end.
    pub fn push(&mut self, item: T) -> Result<(), AllocError>
        ensures ok { OnOk result (self.new ≡ self.old ++ item ∷ []) }
        ensures err { OnErr result (self.new ≡ self.old) }
    {
        self.items.push(item)?;
        Ok(())
    }
}

impl List<u8> {
    /// A copy of these bytes.
    pub fn of(alloc: Global, bytes: &[u8]) -> Result<Self, AllocError>
        ensures { IfOk result (λ list. list ≡ bytes.now) }
    {
        Ok(List {
            items: Vec::from_slice(alloc, bytes)?,
        })
    }

    /// The bytes as a slice.
    pub fn as_bytes(&self) -> &[u8]
        ensures { result.now ≡ self.now }
    {
        self.items.as_slice()
    }
}

/// A value of which a copy can be made where memory is left.
pub trait TryClone: Drop {
    /// An equal value, on the same allocator.
    fn copy(&self) -> Result<Self, AllocError>
        ensures { IfOk result (λ copy. copy ≡ self.now) };
}

impl TryClone for u8 {
    fn copy(&self) -> Result<u8, AllocError> {
        Ok(*self)
    }
}

impl TryClone for u32 {
    fn copy(&self) -> Result<u32, AllocError> {
        Ok(*self)
    }
}

impl TryClone for u64 {
    fn copy(&self) -> Result<u64, AllocError> {
        Ok(*self)
    }
}

impl<T: TryClone> TryClone for List<T> {
    fn copy(&self) -> Result<Self, AllocError> {
        let mut items = Vec::with_capacity(*self.items.allocator(), self.items.len())?;
        for item in &self.items {
            items.push(item.copy()?)?;
        }
        Ok(List { items })
    }
}
