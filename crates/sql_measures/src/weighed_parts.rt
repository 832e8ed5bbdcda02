//! What each part of a clause counts.
ghost use Rattle.std.specs.Prelude.{◌≡◌, ℕ, ◌-◌, ◌*◌, ◌^◌, min};
ghost use Rattle.sql_ast.specs.Weights as weights;
ghost use Rattle.sql_measures.specs.PartWeights as parts;

use crate::capped::{plus, product};
use crate::sets::{grouping_sets, times};
use crate::weighed::{Weighed, list_clause};
use sql_ast::{
    Aliased, Arg, Binding, Call, Cte, Cube, Edit, FilterPart, GroupItem, GroupSet, Groups, Item,
    LimitPart, Link, On, Part, PivotCall, Replacement, SetTerm, Sort, Turn, Turned, When,
};

impl<E: Weighed> Weighed for Link<E> {
    ghost weighs = { parts.link_weight E.weighs };

    fn weight(&self) -> u64 {
        self.operand.weight()
    }
}

impl<E: Weighed> Weighed for Part<E> {
    ghost weighs = { parts.part_weight E.weighs };

    fn weight(&self) -> u64 {
        match self {
            Part::Field { name } => plus(1, name.weight()),
            Part::Index { index, .. } => plus(1, index.weight()),
        }
    }
}

/// A lambda adds 8.
impl<E: Weighed> Weighed for Arg<E> {
    ghost weighs = { parts.argument_weight E.weighs };

    fn weight(&self) -> u64 {
        match self {
            Arg::Expr { expr } => expr.weight(),
            Arg::Lambda {
                variables,
                body,
                ..
            } => plus(8, plus(variables.weight(), body.weight())),
            Arg::Interval { amount, part, .. } => plus(amount.weight(), part.weight()),
        }
    }
}

/// Every sort item counts 1.
impl<E: Weighed> Weighed for Sort<E> {
    ghost weighs = { parts.sort_weight E.weighs };

    fn weight(&self) -> u64 {
        plus(1, self.expr.weight())
    }
}

/// ORDER BY and LIMIT of a call are clauses.
impl<E: Weighed> Weighed for Call<E> {
    ghost weighs = { parts.call_weight E.weighs };

    fn weight(&self) -> u64 {
        let order = plus(list_clause(&self.order), limit_clause(&self.limit));
        let inside = plus(self.arguments.weight(), order);
        plus(1, plus(self.function.weight(), inside))
    }
}

fn limit_clause(limit: &Option<u64>) -> u64
    ensures { result ≡ weights.clause (λ n. 0) limit.now }
{
    match limit {
        None => 0,
        Some(_) => 1,
    }
}

impl<E: Weighed> Weighed for When<E> {
    ghost weighs = { parts.when_weight E.weighs };

    fn weight(&self) -> u64 {
        plus(self.test.weight(), self.result.weight())
    }
}

impl<E: Weighed> Weighed for Aliased<E> {
    ghost weighs = { parts.aliased_weight E.weighs };

    fn weight(&self) -> u64 {
        plus(self.expr.weight(), self.alias.weight())
    }
}

impl<E: Weighed> Weighed for Binding<E> {
    ghost weighs = { parts.binding_weight E.weighs };

    fn weight(&self) -> u64 {
        plus(self.name.weight(), self.expr.weight())
    }
}

impl<E: Weighed> Weighed for Replacement<E> {
    ghost weighs = { parts.replacement_weight E.weighs };

    fn weight(&self) -> u64 {
        plus(self.expr.weight(), self.name.weight())
    }
}

impl<E: Weighed> Weighed for Edit<E> {
    ghost weighs = { parts.edit_weight E.weighs };

    fn weight(&self) -> u64 {
        plus(self.except.weight(), self.replace.weight())
    }
}

/// Every select item counts 1.
impl<E: Weighed> Weighed for Item<E> {
    ghost weighs = { parts.item_weight E.weighs };

    fn weight(&self) -> u64 {
        match self {
            Item::Star { edit, .. } => plus(1, edit.weight()),
            Item::QualifiedStar {
                qualifier,
                edit,
                ..
            } => plus(1, plus(qualifier.weight(), edit.weight())),
            Item::Expr { expr, alias, .. } => plus(1, plus(expr.weight(), alias.weight())),
        }
    }
}

impl<E: Weighed> Weighed for On<E> {
    ghost weighs = { parts.on_weight E.weighs };

    fn weight(&self) -> u64 {
        match self {
            On::On { condition, .. } => condition.weight(),
            On::Using { columns, .. } => columns.weight(),
        }
    }
}

impl<E: Weighed> Weighed for PivotCall<E> {
    ghost weighs = { parts.pivot_call_weight E.weighs };

    fn weight(&self) -> u64 {
        plus(self.call.weight(), self.alias.weight())
    }
}

/// PIVOT counts its aggregates once per value. The name of its input is a path, each part of which after the first counts 1.
impl<E: Weighed> Weighed for Turn<E> {
    ghost weighs = { parts.turn_weight E.weighs };

    #[tactic(auto, using(crate::proofs::Caps::capped_factor))]
    fn weight(&self) -> u64 {
        match self {
            Turn::Pivot {
                aggregates,
                input,
                values,
                ..
            } => {
                let aggregated = product(values.len() as u64, aggregates.weight());
                let path = (input.len() as u64).saturating_sub(1);
                plus(
                    aggregated,
                    plus(path, plus(input.weight(), values.weight())),
                )
            }
            Turn::Unpivot {
                value,
                label,
                columns,
                ..
            } => plus(value.weight(), plus(label.weight(), columns.weight())),
        }
    }
}

impl<E: Weighed> Weighed for Turned<E> {
    ghost weighs = { parts.turned_weight E.weighs };

    fn weight(&self) -> u64 {
        plus(self.turn.weight(), self.alias.weight())
    }
}

impl<E: Weighed> Weighed for GroupItem<E> {
    ghost weighs = { parts.group_item_weight E.weighs };

    fn weight(&self) -> u64 {
        match self {
            GroupItem::Expr { expr } => expr.weight(),
            GroupItem::List { exprs, .. } => exprs.weight(),
        }
    }
}

impl<E: Weighed> Weighed for Cube<E> {
    ghost weighs = { parts.cube_weight E.weighs };

    fn weight(&self) -> u64 {
        self.items.weight()
    }
}

impl<E: Weighed> Weighed for GroupSet<E> {
    ghost weighs = { parts.set_weight E.weighs };

    fn weight(&self) -> u64 {
        match self {
            GroupSet::Item { item } => item.weight(),
            GroupSet::Cube { cube } => cube.weight(),
        }
    }
}

impl<E: Weighed> Weighed for Groups<E> {
    ghost weighs = { parts.groups_weight E.weighs };

    fn weight(&self) -> u64 {
        match self {
            Groups::Keys { keys, .. } => keys.weight(),
            Groups::Empty { .. } => 0,
            Groups::Sets { sets, .. } => sets.weight(),
            Groups::Cube { cube, .. } => cube.weight(),
        }
    }
}

/// GROUP BY is a clause, and its keys count once per grouping set.
#[tactic(auto, using(crate::proofs::Caps::capped_product))]
pub fn keys_weight<E: Weighed>(grouping: &Option<Groups<E>>) -> u64
    ensures { result ≡ min (parts.keys_weight E.weighs grouping.now) (2 ^ 64 - 1) }
{
    match grouping {
        None => 0,
        Some(groups) => plus(1, product(grouping_sets(groups), groups.weight())),
    }
}

/// What counts once per grouping set.
#[tactic(auto, using(crate::proofs::Caps::capped_product))]
pub fn per_set<E, P: Weighed>(grouping: &Option<Groups<E>>, part: &P) -> u64
    ensures { result ≡ min (weights.times grouping.now * P.weighs part.now) (2 ^ 64 - 1) }
{
    product(times(grouping), part.weight())
}

/// HAVING counts once per grouping set.
pub fn kept_weight<E: Weighed>(grouping: &Option<Groups<E>>, having: &Option<FilterPart<E>>) -> u64
    ensures { result ≡ min (parts.kept_weight E.weighs grouping.now having.now) (2 ^ 64 - 1) }
{
    match having {
        None => 0,
        Some(having) => per_set(grouping, having),
    }
}

/// HAVING is a clause.
impl<E: Weighed> Weighed for FilterPart<E> {
    ghost weighs = { parts.having_weight E.weighs };

    fn weight(&self) -> u64 {
        plus(1, self.test.weight())
    }
}

impl<E: Weighed> Weighed for LimitPart<E> {
    ghost weighs = { parts.limit_weight E.weighs };

    fn weight(&self) -> u64 {
        plus(self.count.weight(), self.offset.weight())
    }
}

impl<Q: Weighed> Weighed for Cte<Q> {
    ghost weighs = { parts.cte_weight Q.weighs };

    fn weight(&self) -> u64 {
        plus(self.name.weight(), self.query.weight())
    }
}

/// Each set operator is a clause.
impl<T: Weighed> Weighed for SetTerm<T> {
    ghost weighs = { parts.set_term_weight T.weighs };

    fn weight(&self) -> u64 {
        plus(1, self.term.weight())
    }
}
