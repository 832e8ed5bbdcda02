//! What an aggregate makes of the values that come to it one after another.
ghost use Rattle.std.specs.Prelude.{◌≡◌, ◌∷◌, ◌++◌, [], true, IfOk, OnOk, OnErr};
ghost use Rattle.sql_types.specs.Outcome.{Answers};
ghost use Rattle.sql_aggregates.specs.Aggregates.{AggMeans};
ghost use Rattle.sql_aggregates.specs.Calls.{lawful, AllAddable};

use crate::answers::answer;
use crate::arguments::copy_list;
use crate::call::{AggCall, copy_call};
use crate::choosing::goes_over;
use sql_types::{CallFault, OutOfMemory, Value, Values};
use std::alloc::Global;
use std::marker::Model;

/// An aggregate while its values come: a call, and the lists of arguments that were added to it. Contracts see it as
/// these.
///
/// It keeps a copy of each list until `finish`, so it holds memory in proportion to what was added.
#[derive(Drop)]
pub struct Accumulator {
    call: AggCall,
    added: Vec<Values>,
    alloc: Global,
}

impl Model for Accumulator {
    ghost use Rattle.sql_aggregates.specs.Accumulated.{Accumulated, accumulated_code};
    ghost use Rattle.sql_aggregates.specs.Calls.{AllAddable};

    ghost Value = { Accumulated };

    ghost coded = { accumulated_code };

    ghost view = { λ a. record { call = a.call; added = a.added.items } };

    ghost invariant = { λ a. AllAddable a.call a.added.items };
}

impl Accumulator {
    /// An accumulator of this call, to which nothing was added. The call has no modifier, sort item or limit that its
    /// aggregate doesn't take.
    pub fn start(alloc: Global, call: &AggCall) -> Result<Accumulator, OutOfMemory>
        requires { lawful call.now ≡ true }
        ensures { IfOk result (λ a. a ≡ record { call = call.now; added = [] }) }
    {
        Ok(Accumulator {
            call: copy_call(alloc, call)?,
            added: Vec::new(alloc),
            alloc,
        })
    }

    /// Adds the values of a row: one for each argument, and then one for each sort item of the call. The list for
    /// COUNT(*) is empty. The places of the sort items are, in order, those of the last values. All lists have values of
    /// the same types, which the aggregate takes, and STRING_AGG has the same separator each time. With DISTINCT the
    /// first argument is of a groupable type, and each sort value is the same as it. Where memory runs out, nothing was
    /// added.
    pub fn add(&mut self, arguments: &[Value]) -> Result<(), OutOfMemory>
        requires { AllAddable self.old.call (self.old.added ++ arguments.now ∷ []) }
        ensures call { self.new.call ≡ self.old.call }
        ensures ok { OnOk result (self.new.added ≡ self.old.added ++ arguments.now ∷ []) }
        ensures err { OnErr result (self.new.added ≡ self.old.added) }
    {
        let list = copy_list(self.alloc, arguments)?;
        self.added.push(list)?;
        Ok(())
    }

    /// The aggregate of all that was added. A total or a count past its type is the fault OUT_OF_RANGE, and there is no
    /// other fault.
    ///
    /// NULLs are left out first where the aggregate skips them, then DISTINCT keeps one of each group of the same values,
    /// and then come ORDER BY and LIMIT. The time is linear in what was added, and n log n with DISTINCT or ORDER BY.
    pub fn finish(self) -> Result<Value, CallFault>
        ensures { Answers (AggMeans self.call self.added) result }
    {
        let Accumulator { call, added, alloc } = self;
        let lists = goes_over(&call, added);
        answer(alloc, &call, lists)
    }
}
