//! Entries in order, each found by its name.
ghost use Rattle.std.specs.Prelude.{◌≡◌, ◌<◌, ◌++◌, ◌∷◌, [], length, position, slice_get, Some, OnOk, OnErr};
ghost use Rattle.std.specs.List.{list_any};
ghost use Rattle.sql_catalog.specs.Answers.{Adds};
ghost use Rattle.sql_catalog.specs.Slots.{goes_by};

use crate::refusal::AddRefusal;
use crate::slot::{Called, Slot};
use indexmap::IndexSet;
use sql_types::Text;
use std::alloc::Global;
use std::marker::Model;

/// Entries in order, which contracts see as their list. No two have one name and sort.
#[derive(Drop)]
pub struct ByName<T: Called> {
    slots: IndexSet<Slot<'static, T>>,
}

impl<T: Called> Model for ByName<T> {
    ghost use Rattle.std.specs.Prelude.{List};
    ghost use Rattle.sql_catalog.specs.Slots.{held, AllHeld};

    ghost Value = { List T };

    ghost view = { λ b. held b.slots.keys };

    ghost invariant = { λ b. AllHeld b.slots.keys };
}

impl<T: Called> ByName<T> {
    /// No entry. It takes no memory.
    pub fn start(alloc: Global) -> ByName<T>
        ensures { result ≡ [] }
    {
        ByName {
            slots: IndexSet::new(alloc),
        }
    }

    /// Adds an entry at the end, unless one of its name and sort is there.
    pub fn add(&mut self, entry: T) -> Result<(), AddRefusal>
        ensures answer { Adds (list_any (goes_by T.called T.sort (T.called entry) (T.sort entry)) self.old) result }
        ensures added { OnOk result (self.new ≡ self.old ++ entry ∷ []) }
        ensures kept { OnErr result (self.new ≡ self.old) }
    {
        let added = self.slots.insert(Slot::Held { entry })?;
        if !added {
            return Err(AddRefusal::Duplicate);
        }
        Ok(())
    }

    /// The number of entries.
    pub fn len(&self) -> usize
        ensures { result ≡ length self.now }
    {
        self.slots.len()
    }

    /// The number of the entry of a name and sort. It takes no memory.
    pub fn find(&self, name: &Text, is_function: bool) -> Option<usize>
        ensures { result ≡ position (goes_by T.called T.sort name.now is_function) self.now }
    {
        let sought = Slot::Sought { name, is_function };
        self.slots.get_index_of(&sought)
    }

    /// Whether an entry of a name and sort is there. It takes no memory.
    pub fn has(&self, name: &Text, is_function: bool) -> bool
        ensures { result ≡ list_any (goes_by T.called T.sort name.now is_function) self.now }
    {
        let sought = Slot::Sought { name, is_function };
        self.slots.contains(&sought)
    }

    /// The entry of a number, which is below the number of entries.
    pub fn at(&self, number: usize) -> &T
        requires { number < length self.now }
        ensures { slice_get self.now number ≡ Some result.now }
    {
        match &self.slots[number] {
            Slot::Held { entry } => entry,
            Slot::Sought { .. } => unreachable!(),
        }
    }
}
