//! A list of items.

ghost use Rattle.std.specs.Prelude.{◌≡◌, ◌++◌, ◌∷◌, [], List, IfErr, OnOk, OnErr};

use std::alloc::AllocFailed;
use std::marker::Model;

/// Any number of items, in their order: those of a claim, or the numbers of each queue, chain or element. Contracts see
/// their list.
#[derive(Debug, Drop)]
pub struct Items<T> {
    items: Vec<T>,
}

impl<T> Model for Items<T> {
    ghost Value = { List T };

    ghost view = { λ list. list.items.items };
}

impl<T> Items<T> {
    /// These items, in their order. Takes no memory.
    pub fn new(items: Vec<T>) -> Self
        ensures { result ≡ items.items }
    {
        Items { items }
    }

    /// Appends an item. If a growth is refused, the item is returned, and the list is unchanged.
    pub fn push(&mut self, item: T) -> Result<(), AllocFailed<T>>
        ensures pushed { OnOk result (self.new ≡ self.old ++ item ∷ []) }
        ensures frame { OnErr result (self.new ≡ self.old) }
        ensures back { IfErr result (λ refused. refused.value ≡ item) }
    {
        self.items.push(item)
    }

    /// The items in their order.
    pub fn as_slice(&self) -> &[T]
        ensures { result.now ≡ self.now }
    {
        self.items.as_slice()
    }

    /// Returns the list. Takes no memory.
    pub fn into_vec(self) -> Vec<T>
        ensures { result.items ≡ self }
    {
        let Items { items } = self;
        items
    }
}
