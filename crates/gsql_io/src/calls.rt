//! Calls that are counted, and fail at numbers that are given.
ghost use Rattle.std.specs.Prelude.{◌≡◌, ◌↔◌, IsTrue, Contains};
ghost use Rattle.gsql_io.specs.Outside.{next_number};

use lists::Items;

/// Numbers of calls, from 0, in any order.
pub type Calls = Items<u64>;

// Counts the call of this number, and tells whether it is one of those that fail.
pub(crate) fn counts_call(number: &mut u64, fail_at: &Calls) -> bool
    ensures fails { IsTrue result ↔ Contains fail_at.now number.old }
    ensures counts { number.new ≡ next_number number.old }
{
    let fails = fail_at.as_slice().contains(number);
    *number = number.saturating_add(1);
    fails
}
