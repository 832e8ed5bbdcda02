//! The depth of each part of a clause.
ghost use Rattle.sql_measures.specs.PartDepths as parts;

use crate::capped::plus;
use crate::deep::Deep;
use sql_ast::{
    Aliased, Arg, Binding, Call, Cte, Cube, Edit, FilterPart, GroupItem, GroupSet, Groups, Item,
    LimitPart, Link, On, Part, PivotCall, Replacement, SetTerm, Sort, Turn, Turned, When,
};

impl<E: Deep> Deep for Link<E> {
    ghost deep = { parts.link_depth E.deep };

    fn depth(&self) -> u64 {
        self.operand.depth()
    }
}

impl<E: Deep> Deep for Part<E> {
    ghost deep = { parts.part_depth E.deep };

    fn depth(&self) -> u64 {
        match self {
            Part::Field { .. } => 0,
            Part::Index { index, .. } => index.depth(),
        }
    }
}

/// A lambda adds 6.
impl<E: Deep> Deep for Arg<E> {
    ghost deep = { parts.argument_depth E.deep };

    fn depth(&self) -> u64 {
        match self {
            Arg::Expr { expr } => expr.depth(),
            Arg::Lambda { body, .. } => plus(6, body.depth()),
            Arg::Interval { amount, .. } => amount.depth(),
        }
    }
}

impl<E: Deep> Deep for Sort<E> {
    ghost deep = { parts.sort_depth E.deep };

    fn depth(&self) -> u64 {
        self.expr.depth()
    }
}

impl<E: Deep> Deep for Call<E> {
    ghost deep = { parts.call_depth E.deep };

    fn depth(&self) -> u64 {
        plus(1, self.arguments.depth().max(self.order.depth()))
    }
}

impl<E: Deep> Deep for When<E> {
    ghost deep = { parts.when_depth E.deep };

    fn depth(&self) -> u64 {
        self.test.depth().max(self.result.depth())
    }
}

impl<E: Deep> Deep for Aliased<E> {
    ghost deep = { parts.aliased_depth E.deep };

    fn depth(&self) -> u64 {
        self.expr.depth()
    }
}

impl<E: Deep> Deep for Binding<E> {
    ghost deep = { parts.binding_depth E.deep };

    fn depth(&self) -> u64 {
        self.expr.depth()
    }
}

impl<E: Deep> Deep for Replacement<E> {
    ghost deep = { parts.replacement_depth E.deep };

    fn depth(&self) -> u64 {
        self.expr.depth()
    }
}

impl<E: Deep> Deep for Edit<E> {
    ghost deep = { parts.edit_depth E.deep };

    fn depth(&self) -> u64 {
        self.replace.depth()
    }
}

impl<E: Deep> Deep for Item<E> {
    ghost deep = { parts.item_depth E.deep };

    fn depth(&self) -> u64 {
        match self {
            Item::Star { edit, .. } => edit.depth(),
            Item::QualifiedStar {
                qualifier,
                edit,
                ..
            } => qualifier.depth().max(edit.depth()),
            Item::Expr { expr, .. } => expr.depth(),
        }
    }
}

impl<E: Deep> Deep for On<E> {
    ghost deep = { parts.on_depth E.deep };

    fn depth(&self) -> u64 {
        match self {
            On::On { condition, .. } => condition.depth(),
            On::Using { .. } => 0,
        }
    }
}

impl<E: Deep> Deep for PivotCall<E> {
    ghost deep = { parts.pivot_call_depth E.deep };

    fn depth(&self) -> u64 {
        self.call.depth()
    }
}

/// PIVOT and UNPIVOT add 4. The name of PIVOT's input is a path, each part of which after the first adds 1.
impl<E: Deep> Deep for Turn<E> {
    ghost deep = { parts.turn_depth E.deep };

    fn depth(&self) -> u64 {
        match self {
            Turn::Pivot {
                aggregates,
                input,
                values,
                ..
            } => {
                let path = (input.len() as u64).saturating_sub(1);
                plus(4, aggregates.depth().max(path.max(values.depth())))
            }
            Turn::Unpivot { .. } => 4,
        }
    }
}

impl<E: Deep> Deep for Turned<E> {
    ghost deep = { parts.turned_depth E.deep };

    fn depth(&self) -> u64 {
        self.turn.depth()
    }
}

impl<E: Deep> Deep for GroupItem<E> {
    ghost deep = { parts.group_item_depth E.deep };

    fn depth(&self) -> u64 {
        match self {
            GroupItem::Expr { expr } => expr.depth(),
            GroupItem::List { exprs, .. } => exprs.depth(),
        }
    }
}

impl<E: Deep> Deep for Cube<E> {
    ghost deep = { parts.cube_depth E.deep };

    fn depth(&self) -> u64 {
        self.items.depth()
    }
}

impl<E: Deep> Deep for GroupSet<E> {
    ghost deep = { parts.set_depth E.deep };

    fn depth(&self) -> u64 {
        match self {
            GroupSet::Item { item } => item.depth(),
            GroupSet::Cube { cube } => cube.depth(),
        }
    }
}

/// Grouping sets add 4.
impl<E: Deep> Deep for Groups<E> {
    ghost deep = { parts.groups_depth E.deep };

    fn depth(&self) -> u64 {
        match self {
            Groups::Keys { keys, .. } => keys.depth(),
            Groups::Empty { .. } => 0,
            Groups::Sets { sets, .. } => plus(4, sets.depth()),
            Groups::Cube { cube, .. } => plus(4, cube.depth()),
        }
    }
}

impl<E: Deep> Deep for FilterPart<E> {
    ghost deep = { parts.having_depth E.deep };

    fn depth(&self) -> u64 {
        self.test.depth()
    }
}

impl<E: Deep> Deep for LimitPart<E> {
    ghost deep = { parts.limit_depth E.deep };

    fn depth(&self) -> u64 {
        self.count.depth().max(self.offset.depth())
    }
}

impl<Q: Deep> Deep for Cte<Q> {
    ghost deep = { parts.cte_depth Q.deep };

    fn depth(&self) -> u64 {
        self.query.depth()
    }
}

impl<T: Deep> Deep for SetTerm<T> {
    ghost deep = { parts.set_term_depth T.deep };

    fn depth(&self) -> u64 {
        self.term.depth()
    }
}
