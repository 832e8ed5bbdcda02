//! Which of the lists that were added an aggregate goes over.
ghost use Rattle.std.specs.Prelude.{◌≡◌};
ghost use Rattle.sql_types.specs.Arranged.{Arranged};
ghost use Rattle.sql_aggregates.specs.Calls.{AllAddable};
ghost use Rattle.sql_aggregates.specs.Lists.{kept, Chosen, limited, GoesOver};
ghost use Rattle.sql_aggregates.specs.Sortable.{Sortable};

use crate::arguments::is_null_argument;
use crate::call::{AggCall, skips_nulls};
use crate::identity::{first_order, same_first};
use sql_types::{SortItem, Values, sorting_order};

/// The lists that the aggregate goes over, in an order that the call permits.
pub(crate) fn goes_over(call: &AggCall, lists: Vec<Values>) -> Vec<Values>
    requires { AllAddable call.now lists.items }
    ensures { GoesOver call.now lists.items result.items }
{
    let left = keep(skips_nulls(call), lists);
    let chosen = choose(call.distinct, left);
    let arranged = arrange(call.order.as_slice(), chosen);
    limit(call.limit, arranged)
}

/// Without the lists whose first argument is NULL, where the aggregate skips them.
fn keep(skips: bool, mut lists: Vec<Values>) -> Vec<Values>
    ensures { result.items ≡ kept skips lists.items }
{
    if !skips {
        return lists;
    }
    lists.retain(|list| !is_null_argument(list.as_slice()));
    lists
}

/// With DISTINCT one list of each group with the same first argument.
fn choose(distinct: bool, mut lists: Vec<Values>) -> Vec<Values>
    ensures { Chosen distinct lists.items result.items }
{
    if !distinct {
        return lists;
    }
    lists.sort_unstable_by(|left, right| first_order(left.as_slice(), right.as_slice()));
    lists.dedup_by(|left, right| same_first(left.as_slice(), right.as_slice()));
    lists
}

/// In the order of ORDER BY.
fn arrange(items: &[SortItem], mut lists: Vec<Values>) -> Vec<Values>
    requires { Sortable items.now lists.items }
    ensures { Arranged items.now lists.items result.items }
{
    lists.sort_unstable_by(|left, right| sorting_order(items, left.as_slice(), right.as_slice()));
    lists
}

/// As many as LIMIT keeps.
fn limit(limit: Option<u64>, mut lists: Vec<Values>) -> Vec<Values>
    ensures { result.items ≡ limited limit lists.items }
{
    match limit {
        None => lists,
        Some(count) => {
            lists.truncate(count as usize);
            lists
        }
    }
}
