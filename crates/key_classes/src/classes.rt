//! Distinct keys.
ghost use Rattle.std.specs.Prelude.{◌≡◌, ◌↔◌, IsTrue, [], length, Some, IfOk, OnOk, OnErr};
ghost use Rattle.sql_types.specs.Parted.{Apart};
ghost use Rattle.key_classes.specs.Classes.{with_key, number_of};
ghost use Rattle.key_classes.specs.Keys.{values_of};

use crate::key::Key;
use indexmap::IndexSet;
use std::alloc::{AllocError, Global};
use std::marker::Model;

/// Distinct keys in the order in which they first came, which contracts see as the list of their values. No two are the same.
/// No key is copied: the rows are borrowed. The hash has no seed, so who chooses the values can make all keys collide; then each
/// call takes time linear in the keys.
#[derive(Drop)]
pub struct Classes<'a> {
    keys: IndexSet<Key<'a>>,
}

impl<'a> Model for Classes<'a> {
    ghost use Rattle.std.specs.Prelude.{List, map};
    ghost use Rattle.std.specs.Coded.{coded_list};
    ghost use Rattle.sql_types.specs.declared.value.Value.{Value as SqlValue};
    ghost use Rattle.sql_types.specs.contracts.value.Value as sql_value;
    ghost use Rattle.key_classes.specs.Keys.{values_of};

    ghost Value = { List (List SqlValue) };

    ghost coded = { coded_list (coded_list sql_value.the_row.coded) };

    ghost view = { λ c. map values_of c.keys.keys };
}

impl<'a> Classes<'a> {
    /// No key. It takes no memory.
    pub fn start(alloc: Global) -> Classes<'a>
        ensures { result ≡ [] }
    {
        Classes {
            keys: IndexSet::new(alloc),
        }
    }

    /// Adds a key at the end, unless the same key is there, and gives its number. It takes constant time on average, apart from
    /// the key's size. Where memory runs out, nothing was added.
    pub fn add(&mut self, key: Key<'a>) -> Result<usize, AllocError>
        ensures added { OnOk result (self.new ≡ with_key self.old (values_of key.entry)) }
        ensures number { IfOk result (λ number. number_of self.new (values_of key.entry) ≡ Some number) }
        ensures kept { OnErr result (self.new ≡ self.old) }
        ensures apart { Apart self.new }
    {
        let (number, _) = self.keys.insert_full(key)?;
        Ok(number)
    }

    /// The number of the same key, if it is there. It takes no memory, and constant time on average, apart from the key's size.
    pub fn find(&self, key: &Key) -> Option<usize>
        ensures { result ≡ number_of self.now (values_of key.now) }
    {
        self.keys.get_index_of(key)
    }

    /// How many keys there are.
    pub fn len(&self) -> usize
        ensures len { result ≡ length self.now }
        ensures apart { Apart self.now }
    {
        self.keys.len()
    }

    /// Whether there is no key.
    pub fn is_empty(&self) -> bool
        ensures { IsTrue result ↔ (self.now ≡ []) }
    {
        self.keys.is_empty()
    }
}
