//! What is found by name: an entry, or the name that one is sought by.
ghost use Rattle.std.specs.Prelude.{◌≡◌, ℕ, List, Bool, ◌++◌, fold};
ghost use Rattle.std.proofs.Common.{rules};
ghost use Rattle.std.specs.Cmp.Rules.{comparing, hashing};
ghost use Rattle.std.specs.Hash as fed;
ghost use Rattle.std.specs.Str.{str_to_ascii_lowercase};
ghost use Rattle.sql_catalog.specs.Slots.{slot_name, slot_sort, slot_letters, same_slot};

use sql_ast::naming::same_letters;
use sql_types::Text;
use std::hash::{Hash, Hasher};

/// An entry that has a name. Views and functions may share a name, so their sort tells them apart.
pub trait Called: Drop {
    // The entry's name.
    ghost called: { Self → List ℕ };

    // Whether the entry is a function.
    ghost sort: { Self → Bool };

    /// The entry's name.
    fn name(&self) -> &Text
        ensures { result.now ≡ called self.now };

    /// Whether the entry is a function.
    fn is_function(&self) -> bool
        ensures { result ≡ sort self.now };
}

/// An entry, or the name and the sort that one is sought by. Two are equal where name and sort are the same.
#[derive(Drop)]
pub enum Slot<'a, T> {
    Held { entry: T },
    Sought { name: &'a Text, is_function: bool },
}

impl<'a, T: Called> Slot<'a, T> {
    fn letters(&self) -> &[u8]
        ensures { result.now ≡ slot_name T.called T.sort self.now }
    {
        match self {
            Slot::Held { entry } => entry.name().as_bytes(),
            Slot::Sought { name, .. } => name.as_bytes(),
        }
    }

    fn is_function(&self) -> bool
        ensures { result ≡ slot_sort T.called T.sort self.now }
    {
        match self {
            Slot::Held { entry } => entry.is_function(),
            Slot::Sought { is_function, .. } => *is_function,
        }
    }
}

impl<'a, T: Called> PartialEq for Slot<'a, T> {
    ghost eq = { same_slot T.called T.sort };

    ghost laws = { Prim.search (comparing, rules) };

    fn eq(&self, other: &Slot<'a, T>) -> bool {
        self.is_function() == other.is_function() && same_letters(self.letters(), other.letters())
    }
}

impl<'a, T: Called> Eq for Slot<'a, T> {
    ghost laws = { Prim.search (comparing, rules) };
}

impl<'a, T: Called> Hash for Slot<'a, T> {
    ghost hash_input = { λ s. fed.bool (slot_sort T.called T.sort s) ++ fed.slice fed.u8 (slot_letters T.called T.sort s) };

    ghost respects_eq = { Prim.search (hashing, rules) };

    fn hash<H: Hasher>(&self, state: &mut H) {
        self.is_function().hash(state);
        hash_letters(self.letters(), state);
    }
}

/// Hashes a name without regard to ASCII case.
fn hash_letters<H: Hasher>(letters: &[u8], state: &mut H)
    ensures { state.new ≡ fold H.write state.old (fed.slice fed.u8 (str_to_ascii_lowercase letters.now)) }
{
    state.write_usize(letters.len());
    for letter in letters {
        state.write_u8(letter.to_ascii_lowercase());
    }
}
