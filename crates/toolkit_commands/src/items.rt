//! The items of a menu or of a choice.
ghost use Rattle.std.specs.Prelude.{◌≡◌, ◌<◌, ◌≤◌, ◌↔◌, [], ◌∷◌, ◌++◌, List, length, IsTrue, IsOk, OnOk, OnErr};

use arrayvec::ArrayVec;
use std::default::Default;
use std::marker::Model;
use uicc_types::{Full, ShortText};

/// One item: its identifier and its text, at most 10 bytes.
#[derive(Debug, Drop)]
pub struct Item {
    pub id: u8,
    pub text: ShortText,
}

impl Item {
    /// A second item that is the same.
    pub fn copy(&self) -> Self
        ensures { result ≡ self.now }
    {
        Item {
            id: self.id,
            text: self.text.copy(),
        }
    }

    /// Whether the other item has the same identifier and text.
    pub fn is_same(&self, other: &Self) -> bool
        ensures { IsTrue result ↔ (self.now ≡ other.now) }
    {
        self.id == other.id && self.text.as_slice() == other.text.as_slice()
    }
}

impl Default for Item {
    ghost use Rattle.std.specs.Prelude.{◌≡◌, []};

    ghost is_default = { λ item. item ≡ record { id = 0; text = [] } };

    fn default() -> Self {
        Item {
            id: 0,
            text: ShortText::new(),
        }
    }
}

/// At most 16 items, in order.
#[derive(Debug, Drop)]
pub struct Items {
    list: ArrayVec<Item, 16>,
}

impl Model for Items {
    ghost use Rattle.std.specs.Prelude.{List};
    ghost use Rattle.toolkit_commands.specs.declared.items.Item.{Item};

    ghost Value = { List Item };

    ghost view = { λ items. items.list.items };
}

impl Items {
    /// No items.
    pub fn new() -> Self
        ensures { result ≡ [] }
    {
        Items {
            list: ArrayVec::new(),
        }
    }

    /// Adds an item at the end. `Full`, and no change, exactly where there are 16.
    pub fn push(&mut self, item: Item) -> Result<(), Full>
        ensures room { IsOk result ↔ (length self.old < 16) }
        ensures ok { OnOk result (self.new ≡ self.old ++ item ∷ []) }
        ensures err { OnErr result (self.new ≡ self.old) }
    {
        match self.list.try_push(item) {
            Ok(()) => Ok(()),
            Err(_) => Err(Full),
        }
    }

    /// The items, at most 16.
    pub fn as_slice(&self) -> &[Item]
        ensures value { result.now ≡ self.now }
        ensures fits { length result.now ≤ 16 }
    {
        self.list.as_slice()
    }

    /// A second list of the same items.
    pub fn copy(&self) -> Self
        ensures { result ≡ self.now }
    {
        let mut copied = Items::new();
        for item in self.as_slice() {
            match copied.push(item.copy()) {
                Ok(()) => {}
                Err(Full) => unreachable!(),
            }
        }
        copied
    }

    /// Whether the other list has the same items in the same order.
    pub fn is_same(&self, other: &Self) -> bool
        ensures { IsTrue result ↔ (self.now ≡ other.now) }
    {
        let items = self.as_slice();
        let others = other.as_slice();
        if items.len() != others.len() {
            return false;
        }
        for i in 0..items.len() {
            if !items[i].is_same(&others[i]) {
                return false;
            }
        }
        true
    }
}
