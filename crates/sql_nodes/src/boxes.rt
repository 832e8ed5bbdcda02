//! Lists of what stands in boxes.
ghost use Rattle.std.specs.Prelude.{◌≡◌, IfOk, OnOk, OnErr, [], ◌∷◌, ◌++◌};

use sql_types::{Boxed, Items, OutOfMemory};
use std::alloc::Global;

/// What stands in a box that may be missing.
pub fn out_of<T>(part: Option<Boxed<T>>) -> Option<T>
    ensures { result ≡ part }
{
    match part {
        Some(part) => Some(part.into_inner()),
        None => None,
    }
}

/// A list of one element.
pub fn one_of<T: Drop>(alloc: Global, first: Boxed<T>) -> Result<Items<T>, OutOfMemory>
    ensures { IfOk result (λ xs. xs ≡ first ∷ []) }
{
    let mut items = Items::new(alloc);
    items.push(first.into_inner())?;
    Ok(items)
}

/// Puts an element behind the others. Without memory the element is gone and the list as it was.
pub fn add<T: Drop>(items: &mut Items<T>, next: Boxed<T>) -> Result<(), OutOfMemory>
    ensures ok { OnOk result (items.new ≡ items.old ++ next ∷ []) }
    ensures err { OnErr result (items.new ≡ items.old) }
{
    items.push(next.into_inner())?;
    Ok(())
}
