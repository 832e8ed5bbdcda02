//! How many grouping sets a GROUP BY has. Each count is `u64::MAX` where it is greater.
ghost use Rattle.std.specs.Prelude.{◌≡◌, ◌-◌, ◌^◌, min};
ghost use Rattle.sql_ast.specs.Weights as weights;

use crate::capped::{plus, power_of_two};
use sql_ast::{Cube, CubeKind, GroupSet, Groups};
use sql_types::Items;

/// How many grouping sets a GROUP BY has.
pub fn grouping_sets<E>(groups: &Groups<E>) -> u64
    ensures { result ≡ min (weights.grouping_sets groups.now) (2 ^ 64 - 1) }
{
    match groups {
        Groups::Keys { .. } | Groups::Empty { .. } => 1,
        Groups::Sets { sets, .. } => listed_sets(sets),
        Groups::Cube { cube, .. } => cube_sets(cube),
    }
}

/// How many sets a list of sets, ROLLUPs and CUBEs stands for.
fn listed_sets<E>(sets: &Items<GroupSet<E>>) -> u64
    ensures { result ≡ min (weights.sum weights.set_sets sets.now) (2 ^ 64 - 1) }
{
    let mut count = 0;
    for set in sets.as_slice() {
        count = plus(sets_of(set), count);
    }
    count
}

fn sets_of<E>(set: &GroupSet<E>) -> u64
    ensures { result ≡ min (weights.set_sets set.now) (2 ^ 64 - 1) }
{
    match set {
        GroupSet::Item { .. } => 1,
        GroupSet::Cube { cube } => cube_sets(cube),
    }
}

/// ROLLUP of n items stands for n + 1 sets, and CUBE for 2 to the n.
fn cube_sets<E>(cube: &Cube<E>) -> u64
    ensures { result ≡ min (weights.cube_sets cube.now) (2 ^ 64 - 1) }
{
    match cube.kind {
        CubeKind::Rollup => plus(1, cube.items.len() as u64),
        CubeKind::Cube => power_of_two(cube.items.len()),
    }
}

/// How often the list, HAVING and the keys of a SELECT count: once per grouping set.
pub fn times<E>(grouping: &Option<Groups<E>>) -> u64
    ensures { result ≡ min (weights.times grouping.now) (2 ^ 64 - 1) }
{
    match grouping {
        None => 1,
        Some(groups) => grouping_sets(groups),
    }
}
