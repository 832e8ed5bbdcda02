//! What has a weight.
ghost use Rattle.std.specs.Prelude.{◌≡◌, ℕ, ◌+◌, ◌-◌, ◌^◌, min};
ghost use Rattle.sql_ast.specs.Weights as weights;

use crate::capped::plus;
use sql_types::{Boxed, Items};

/// A part of a query that has a weight: the sum over its tree of what each part counts.
pub trait Weighed {
    // The weight.
    ghost weighs: { Self → ℕ };

    /// The weight, or `u64::MAX` where it is greater. It takes no memory, and time in the size of the tree.
    fn weight(&self) -> u64
        ensures { result ≡ min (weighs self.now) (2 ^ 64 - 1) };
}

impl<P: Weighed> Weighed for Boxed<P> {
    ghost weighs = { λ part. P.weighs part };

    fn weight(&self) -> u64 {
        self.get().weight()
    }
}

impl<P: Weighed> Weighed for Option<P> {
    ghost weighs = { weights.if_there P.weighs };

    fn weight(&self) -> u64 {
        match self {
            None => 0,
            Some(part) => part.weight(),
        }
    }
}

/// The sum over a list.
impl<P: Weighed> Weighed for Items<P> {
    ghost weighs = { weights.sum P.weighs };

    fn weight(&self) -> u64 {
        let mut sum = 0;
        for part in self.as_slice() {
            sum = plus(part.weight(), sum);
        }
        sum
    }
}

/// A clause counts 1 and its parts. One that isn't written counts nothing.
pub fn clause<P: Weighed>(part: &Option<P>) -> u64
    ensures { result ≡ min (weights.clause P.weighs part.now) (2 ^ 64 - 1) }
{
    match part {
        None => 0,
        Some(part) => plus(1, part.weight()),
    }
}

/// A clause that is a list counts 1 and its parts. One that isn't written counts nothing.
pub fn list_clause<P: Weighed>(parts: &Items<P>) -> u64
    ensures { result ≡ min (weights.list_clause P.weighs parts.now) (2 ^ 64 - 1) }
{
    if parts.is_empty() {
        0
    } else {
        plus(1, parts.weight())
    }
}

/// The weight of a construct that counts with its one part.
pub fn with<P: Weighed>(count: u64, part: &P) -> u64
    ensures { result ≡ min (count + P.weighs part.now) (2 ^ 64 - 1) }
{
    plus(count, part.weight())
}

/// The weight of a construct that counts with its two parts.
pub fn with_both<L: Weighed, R: Weighed>(count: u64, left: &L, right: &R) -> u64
    ensures { result ≡ min (count + (L.weighs left.now + R.weighs right.now)) (2 ^ 64 - 1) }
{
    plus(count, plus(left.weight(), right.weight()))
}
