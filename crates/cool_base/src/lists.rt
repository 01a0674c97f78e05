//! `ListOf` and `TextOf`: a `Vec` and a `String` that contracts see as lists.
ghost use Rattle.std.specs.Prelude.{◌≡◌, ℕ, List, [], ◌∷◌, ◌++◌, OnOk, OnErr, string_bytes};
ghost use Rattle.std.specs.Coded.{coded_list, coded_ℕ};

use crate::want::Memory;
use std::alloc::Global;
use std::marker::Model;

/// A `Vec` that contracts see as the list of its items.
#[derive(Debug, Drop)]
pub struct ListOf<X> {
    items: Vec<X>,
}

impl<X> Model for ListOf<X> {
    ghost Value = { List X };

    ghost coded = { coded_list X.code };

    ghost view = { λ a. a.items.items };
}

impl<X> ListOf<X> {
    /// These items. It takes no memory.
    pub fn of(items: Vec<X>) -> ListOf<X>
        ensures { result ≡ items.items }
    {
        ListOf { items }
    }

    /// No item. It takes no memory.
    pub fn new(alloc: Global) -> ListOf<X>
        ensures { result ≡ [] }
    {
        ListOf {
            items: Vec::new(alloc),
        }
    }

    /// The items, lent.
    pub fn get(&self) -> &[X]
        ensures { result.now ≡ self.now }
    {
        self.items.as_slice()
    }

    /// The items, given back. It takes no memory.
    pub fn into_inner(self) -> Vec<X>
        ensures { result.items ≡ self }
    {
        let ListOf { items } = self;
        items
    }
}

impl<X: Drop> ListOf<X> {
    /// Adds the item at the end. After `Memory` the list is unchanged.
    pub fn push(&mut self, item: X) -> Result<(), Memory>
        ensures ok { OnOk result (self.new ≡ self.old ++ item ∷ []) }
        ensures err { OnErr result (self.new ≡ self.old) }
    {
        self.items.push(item)?;
        Ok(())
    }
}

/// A `String` that contracts see as the list of its bytes.
#[derive(Debug, Drop)]
pub struct TextOf {
    text: String,
}

impl Model for TextOf {
    ghost Value = { List ℕ };

    ghost coded = { coded_list coded_ℕ };

    ghost view = { λ a. string_bytes a.text };
}

impl TextOf {
    /// This text. It takes no memory.
    pub fn of(text: String) -> TextOf
        ensures { result ≡ string_bytes text }
    {
        TextOf { text }
    }

    /// The text, lent.
    pub fn get(&self) -> &str
        ensures { result.now ≡ self.now }
    {
        self.text.as_str()
    }

    /// The text, given back. It takes no memory.
    pub fn into_inner(self) -> String
        ensures { string_bytes result ≡ self }
    {
        let TextOf { text } = self;
        text
    }
}
