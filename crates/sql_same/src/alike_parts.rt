//! The parts of clauses, over the one sort of tree that each holds.
ghost use Rattle.std.specs.Str.{str_to_ascii_lowercase};
ghost use Rattle.sql_same.specs.Bare as bare;

use crate::alike::Alike;
use sql_ast::{
    Aliased, Arg, Binding, Body, Call, Cte, Cube, Edit, FilterPart, GroupItem, GroupSet, Groups,
    Item, LimitPart, Link, On, Part, PivotCall, Replacement, SetTerm, Sort, Turn, Turned, When,
};

impl<E: Alike> Alike for Link<E> {
    ghost bare = { bare.bare_link E.bare };

    fn alike(&self, other: &Link<E>) -> bool {
        self.operator == other.operator && self.operand.alike(&other.operand)
    }
}

impl<E: Alike> Alike for Part<E> {
    ghost bare = { bare.bare_part str_to_ascii_lowercase E.bare };

    fn alike(&self, other: &Part<E>) -> bool {
        match (self, other) {
            (Part::Field { name }, Part::Field { name: more }) => name.alike(more),
            (
                Part::Index { form, index, .. },
                Part::Index {
                    form: other_form,
                    index: other_index,
                    ..
                },
            ) => form == other_form && index.alike(other_index),
            _ => false,
        }
    }
}

impl<E: Alike> Alike for Sort<E> {
    ghost bare = { bare.bare_sort E.bare };

    fn alike(&self, other: &Sort<E>) -> bool {
        self.expr.alike(&other.expr)
            && self.descending == other.descending
            && self.nulls == other.nulls
    }
}

impl<E: Alike> Alike for Arg<E> {
    ghost bare = { bare.bare_argument str_to_ascii_lowercase E.bare };

    fn alike(&self, other: &Arg<E>) -> bool {
        match (self, other) {
            (Arg::Expr { expr }, Arg::Expr { expr: other_expr }) => expr.alike(other_expr),
            (
                Arg::Lambda {
                    variables,
                    body,
                    ..
                },
                Arg::Lambda {
                    variables: other_variables,
                    body: other_body,
                    ..
                },
            ) => variables.alike(other_variables) && body.alike(other_body),
            (
                Arg::Interval { amount, part, .. },
                Arg::Interval {
                    amount: other_amount,
                    part: other_part,
                    ..
                },
            ) => amount.alike(other_amount) && part.alike(other_part),
            _ => false,
        }
    }
}

impl<E: Alike> Alike for Call<E> {
    ghost bare = { bare.bare_call str_to_ascii_lowercase E.bare };

    fn alike(&self, other: &Call<E>) -> bool {
        self.function.alike(&other.function)
            && self.distinct == other.distinct
            && self.star == other.star
            && self.arguments.alike(&other.arguments)
            && self.nulls == other.nulls
            && self.order.alike(&other.order)
            && self.limit == other.limit
    }
}

impl<E: Alike> Alike for When<E> {
    ghost bare = { bare.bare_when E.bare };

    fn alike(&self, other: &When<E>) -> bool {
        self.test.alike(&other.test) && self.result.alike(&other.result)
    }
}

impl<E: Alike> Alike for Aliased<E> {
    ghost bare = { bare.bare_aliased str_to_ascii_lowercase E.bare };

    fn alike(&self, other: &Aliased<E>) -> bool {
        self.expr.alike(&other.expr) && self.alias.alike(&other.alias)
    }
}

impl<E: Alike> Alike for Binding<E> {
    ghost bare = { bare.bare_binding str_to_ascii_lowercase E.bare };

    fn alike(&self, other: &Binding<E>) -> bool {
        self.name.alike(&other.name) && self.expr.alike(&other.expr)
    }
}

impl<E: Alike> Alike for Replacement<E> {
    ghost bare = { bare.bare_replacement str_to_ascii_lowercase E.bare };

    fn alike(&self, other: &Replacement<E>) -> bool {
        self.expr.alike(&other.expr) && self.name.alike(&other.name)
    }
}

impl<E: Alike> Alike for Edit<E> {
    ghost bare = { bare.bare_edit str_to_ascii_lowercase E.bare };

    fn alike(&self, other: &Edit<E>) -> bool {
        self.except.alike(&other.except) && self.replace.alike(&other.replace)
    }
}

impl<E: Alike> Alike for Item<E> {
    ghost bare = { bare.bare_item str_to_ascii_lowercase E.bare };

    fn alike(&self, other: &Item<E>) -> bool {
        match (self, other) {
            (
                Item::Star { edit, .. },
                Item::Star {
                    edit: other_edit,
                    ..
                },
            ) => edit.alike(other_edit),
            (
                Item::QualifiedStar {
                    qualifier,
                    edit,
                    ..
                },
                Item::QualifiedStar {
                    qualifier: other_qualifier,
                    edit: other_edit,
                    ..
                },
            ) => qualifier.alike(other_qualifier) && edit.alike(other_edit),
            (
                Item::Expr { expr, alias, .. },
                Item::Expr {
                    expr: other_expr,
                    alias: other_alias,
                    ..
                },
            ) => expr.alike(other_expr) && alias.alike(other_alias),
            _ => false,
        }
    }
}

impl<E: Alike> Alike for On<E> {
    ghost bare = { bare.bare_on str_to_ascii_lowercase E.bare };

    fn alike(&self, other: &On<E>) -> bool {
        match (self, other) {
            (
                On::On { condition, .. },
                On::On {
                    condition: other_condition,
                    ..
                },
            ) => condition.alike(other_condition),
            (
                On::Using { columns, .. },
                On::Using {
                    columns: other_columns,
                    ..
                },
            ) => columns.alike(other_columns),
            _ => false,
        }
    }
}

impl<E: Alike> Alike for PivotCall<E> {
    ghost bare = { bare.bare_pivot_call str_to_ascii_lowercase E.bare };

    fn alike(&self, other: &PivotCall<E>) -> bool {
        self.call.alike(&other.call) && self.alias.alike(&other.alias)
    }
}

impl<E: Alike> Alike for Turn<E> {
    ghost bare = { bare.bare_turn str_to_ascii_lowercase E.bare };

    fn alike(&self, other: &Turn<E>) -> bool {
        match (self, other) {
            (
                Turn::Pivot {
                    aggregates,
                    input,
                    values,
                    ..
                },
                Turn::Pivot {
                    aggregates: other_aggregates,
                    input: other_input,
                    values: other_values,
                    ..
                },
            ) => aggregates.alike(other_aggregates)
                && input.alike(other_input)
                && values.alike(other_values),
            (
                Turn::Unpivot {
                    include_nulls,
                    value,
                    label,
                    columns,
                    ..
                },
                Turn::Unpivot {
                    include_nulls: other_include_nulls,
                    value: other_value,
                    label: other_label,
                    columns: other_columns,
                    ..
                },
            ) => include_nulls == other_include_nulls
                && value.alike(other_value)
                && label.alike(other_label)
                && columns.alike(other_columns),
            _ => false,
        }
    }
}

impl<E: Alike> Alike for Turned<E> {
    ghost bare = { bare.bare_turned str_to_ascii_lowercase E.bare };

    fn alike(&self, other: &Turned<E>) -> bool {
        self.turn.alike(&other.turn) && self.alias.alike(&other.alias)
    }
}

impl<E: Alike> Alike for GroupItem<E> {
    ghost bare = { bare.bare_group_item E.bare };

    fn alike(&self, other: &GroupItem<E>) -> bool {
        match (self, other) {
            (GroupItem::Expr { expr }, GroupItem::Expr { expr: other_expr }) => expr.alike(
                other_expr,
            ),
            (
                GroupItem::List { exprs, .. },
                GroupItem::List {
                    exprs: other_exprs,
                    ..
                },
            ) => exprs.alike(other_exprs),
            _ => false,
        }
    }
}

impl<E: Alike> Alike for Cube<E> {
    ghost bare = { bare.bare_cube E.bare };

    fn alike(&self, other: &Cube<E>) -> bool {
        self.kind == other.kind && self.items.alike(&other.items)
    }
}

impl<E: Alike> Alike for GroupSet<E> {
    ghost bare = { bare.bare_set E.bare };

    fn alike(&self, other: &GroupSet<E>) -> bool {
        match (self, other) {
            (GroupSet::Item { item }, GroupSet::Item { item: other_item }) => item.alike(
                other_item,
            ),
            (GroupSet::Cube { cube }, GroupSet::Cube { cube: other_cube }) => cube.alike(
                other_cube,
            ),
            _ => false,
        }
    }
}

impl<E: Alike> Alike for Groups<E> {
    ghost bare = { bare.bare_groups E.bare };

    fn alike(&self, other: &Groups<E>) -> bool {
        match (self, other) {
            (
                Groups::Keys { keys, .. },
                Groups::Keys {
                    keys: other_keys,
                    ..
                },
            ) => keys.alike(other_keys),
            (Groups::Empty { .. }, Groups::Empty { .. }) => true,
            (
                Groups::Sets { sets, .. },
                Groups::Sets {
                    sets: other_sets,
                    ..
                },
            ) => sets.alike(other_sets),
            (
                Groups::Cube { cube, .. },
                Groups::Cube {
                    cube: other_cube,
                    ..
                },
            ) => cube.alike(other_cube),
            _ => false,
        }
    }
}

impl<E: Alike> Alike for FilterPart<E> {
    ghost bare = { bare.bare_having E.bare };

    fn alike(&self, other: &FilterPart<E>) -> bool {
        self.test.alike(&other.test)
    }
}

impl<E: Alike> Alike for LimitPart<E> {
    ghost bare = { bare.bare_limit E.bare };

    fn alike(&self, other: &LimitPart<E>) -> bool {
        self.count.alike(&other.count) && self.offset.alike(&other.offset)
    }
}

impl<Q: Alike> Alike for Cte<Q> {
    ghost bare = { bare.bare_cte str_to_ascii_lowercase Q.bare };

    fn alike(&self, other: &Cte<Q>) -> bool {
        self.name.alike(&other.name) && self.query.alike(&other.query)
    }
}

impl<T: Alike> Alike for SetTerm<T> {
    ghost bare = { bare.bare_set_term T.bare };

    fn alike(&self, other: &SetTerm<T>) -> bool {
        self.kind == other.kind && self.term.alike(&other.term)
    }
}

impl<T: Alike> Alike for Body<T> {
    ghost bare = { bare.bare_body T.bare };

    fn alike(&self, other: &Body<T>) -> bool {
        self.first.alike(&other.first) && self.rest.alike(&other.rest)
    }
}
