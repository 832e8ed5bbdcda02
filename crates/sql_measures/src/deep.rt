//! What has a depth.
ghost use Rattle.std.specs.Prelude.{◌≡◌, ℕ, ◌+◌, ◌-◌, ◌^◌, min, max};
ghost use Rattle.sql_ast.specs.Depths as depths;

use crate::capped::plus;
use sql_types::{Boxed, Items};

/// A part of a query that has a depth: the greatest sum along a path of its tree.
pub trait Deep {
    // The depth.
    ghost deep: { Self → ℕ };

    /// The depth, or `u64::MAX` where it is greater. It takes no memory, and time in the size of the tree.
    fn depth(&self) -> u64
        ensures { result ≡ min (deep self.now) (2 ^ 64 - 1) };
}

impl<P: Deep> Deep for Boxed<P> {
    ghost deep = { λ part. P.deep part };

    fn depth(&self) -> u64 {
        self.get().depth()
    }
}

impl<P: Deep> Deep for Option<P> {
    ghost deep = { depths.if_there P.deep };

    fn depth(&self) -> u64 {
        match self {
            None => 0,
            Some(part) => part.depth(),
        }
    }
}

/// The deepest of a list.
impl<P: Deep> Deep for Items<P> {
    ghost deep = { depths.deepest P.deep };

    fn depth(&self) -> u64 {
        let mut deepest = 0;
        for part in self.as_slice() {
            deepest = part.depth().max(deepest);
        }
        deepest
    }
}

/// The depth of a construct that adds levels to its one part.
pub fn above<P: Deep>(levels: usize, part: &P) -> u64
    ensures { result ≡ min (levels + P.deep part.now) (2 ^ 64 - 1) }
{
    plus(levels as u64, part.depth())
}

/// The depth of a construct that adds levels to the deeper of its two parts.
pub fn above_both<L: Deep, R: Deep>(levels: usize, left: &L, right: &R) -> u64
    ensures { result ≡ min (levels + max (L.deep left.now) (R.deep right.now)) (2 ^ 64 - 1) }
{
    plus(levels as u64, left.depth().max(right.depth()))
}
