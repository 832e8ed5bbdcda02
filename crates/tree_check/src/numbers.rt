//! Distinct numbers, found by a hash.
ghost use Rattle.std.specs.Prelude.{◌≡◌, [], ◌∷◌, if◌then◌else◌, not, IfOk, OnOk};
ghost use Rattle.resolved_ast.specs.Columns.{among};

use indexmap::IndexSet;
use std::alloc::{AllocError, Global};
use std::marker::Model;

/// Distinct numbers, which contracts see as their list, the newest first.
#[derive(Drop)]
pub struct Numbers {
    set: IndexSet<u64>,
}

impl Model for Numbers {
    ghost use Rattle.std.specs.Prelude.{ℕ, List};
    ghost use Rattle.std.specs.Coded.{coded_list, coded_ℕ};
    ghost use Rattle.tree_check.specs.Newest.{newest};

    ghost Value = { List ℕ };

    ghost coded = { coded_list coded_ℕ };

    ghost view = { λ n. newest n.set.keys };
}

impl Numbers {
    /// No number. It takes no memory.
    pub fn new(alloc: Global) -> Numbers
        ensures { result ≡ [] }
    {
        Numbers {
            set: IndexSet::new(alloc),
        }
    }

    /// Adds a number, and says whether it was new. It takes constant time on average.
    #[tactic(auto, using(crate::proofs::NumberLaws::any_newest, crate::proofs::NumberLaws::newest_inserted))]
    pub fn add(&mut self, number: u64) -> Result<bool, AllocError>
        ensures was { IfOk result (λ new. new ≡ not (among number self.old)) }
        ensures now { OnOk result (self.new ≡ (if among number self.old then self.old else number ∷ self.old)) }
    {
        let (_, new) = self.set.insert_full(number)?;
        Ok(new)
    }
}
