//! Each sort of tree.
ghost use Rattle.std.specs.Prelude.{◌↔◌, IsTrue};
ghost use Rattle.std.specs.Str.{str_to_ascii_lowercase};
ghost use Rattle.sql_same.specs.Bare as bare;

use crate::alike::Alike;
use crate::alike_names::{same_bytes, same_count, same_letters};
use sql_ast::{Expr, FromItem, Joined, Primary, Query, Select, Term};

/// Whether two expressions are the same: the same constructs in the same order, names by `same_name`, literals by what they
/// say. Where they stand in the text doesn't count. It takes no memory, and time in the size of the smaller one.
pub fn same_expr(left: &Expr, right: &Expr) -> bool
    ensures { IsTrue result ↔ bare.SameExpr left.now right.now }
{
    left.alike(right)
}

impl Alike for Expr {
    ghost bare = { bare.BareExpr str_to_ascii_lowercase };

    #[cycle(alike)]
    fn alike(&self, other: &Expr) -> bool {
        match self {
            Expr::Or { first, rest, .. } => match other {
                Expr::Or {
                    first: other_first,
                    rest: other_rest,
                    ..
                } => first.alike(other_first) && rest.alike(other_rest),
                _ => false,
            },
            Expr::And { first, rest, .. } => match other {
                Expr::And {
                    first: other_first,
                    rest: other_rest,
                    ..
                } => first.alike(other_first) && rest.alike(other_rest),
                _ => false,
            },
            Expr::Not {
                operators,
                operand,
                ..
            } => match other {
                Expr::Not {
                    operators: other_operators,
                    operand: other_operand,
                    ..
                } => same_count(operators, other_operators) && operand.alike(other_operand),
                _ => false,
            },
            Expr::BitOr { first, rest, .. } => match other {
                Expr::BitOr {
                    first: other_first,
                    rest: other_rest,
                    ..
                } => first.alike(other_first) && rest.alike(other_rest),
                _ => false,
            },
            Expr::BitXor { first, rest, .. } => match other {
                Expr::BitXor {
                    first: other_first,
                    rest: other_rest,
                    ..
                } => first.alike(other_first) && rest.alike(other_rest),
                _ => false,
            },
            Expr::BitAnd { first, rest, .. } => match other {
                Expr::BitAnd {
                    first: other_first,
                    rest: other_rest,
                    ..
                } => first.alike(other_first) && rest.alike(other_rest),
                _ => false,
            },
            Expr::Shift { first, rest, .. } => match other {
                Expr::Shift {
                    first: other_first,
                    rest: other_rest,
                    ..
                } => first.alike(other_first) && rest.alike(other_rest),
                _ => false,
            },
            Expr::Sum { first, rest, .. } => match other {
                Expr::Sum {
                    first: other_first,
                    rest: other_rest,
                    ..
                } => first.alike(other_first) && rest.alike(other_rest),
                _ => false,
            },
            Expr::Product { first, rest, .. } => match other {
                Expr::Product {
                    first: other_first,
                    rest: other_rest,
                    ..
                } => first.alike(other_first) && rest.alike(other_rest),
                _ => false,
            },
            Expr::Unary {
                operators,
                operand,
                ..
            } => match other {
                Expr::Unary {
                    operators: other_operators,
                    operand: other_operand,
                    ..
                } => operators.alike(other_operators) && operand.alike(other_operand),
                _ => false,
            },
            Expr::Compare {
                left,
                operator,
                right,
                ..
            } => match other {
                Expr::Compare {
                    left: other_left,
                    operator: other_operator,
                    right: other_right,
                    ..
                } => left.alike(other_left)
                    && operator == other_operator
                    && right.alike(other_right),
                _ => false,
            },
            Expr::Like {
                left,
                negated,
                right,
                ..
            } => match other {
                Expr::Like {
                    left: other_left,
                    negated: other_negated,
                    right: other_right,
                    ..
                } => left.alike(other_left) && negated == other_negated && right.alike(other_right),
                _ => false,
            },
            Expr::LikeList {
                left,
                quantifier,
                patterns,
                ..
            } => match other {
                Expr::LikeList {
                    left: other_left,
                    quantifier: other_quantifier,
                    patterns: other_patterns,
                    ..
                } => left.alike(other_left)
                    && quantifier == other_quantifier
                    && patterns.alike(other_patterns),
                _ => false,
            },
            Expr::LikeUnnest {
                left,
                quantifier,
                array,
                ..
            } => match other {
                Expr::LikeUnnest {
                    left: other_left,
                    quantifier: other_quantifier,
                    array: other_array,
                    ..
                } => left.alike(other_left)
                    && quantifier == other_quantifier
                    && array.alike(other_array),
                _ => false,
            },
            Expr::Between {
                subject,
                negated,
                low,
                high,
                ..
            } => match other {
                Expr::Between {
                    subject: other_subject,
                    negated: other_negated,
                    low: other_low,
                    high: other_high,
                    ..
                } => subject.alike(other_subject)
                    && negated == other_negated
                    && low.alike(other_low)
                    && high.alike(other_high),
                _ => false,
            },
            Expr::InList {
                left,
                negated,
                list,
                ..
            } => match other {
                Expr::InList {
                    left: other_left,
                    negated: other_negated,
                    list: other_list,
                    ..
                } => left.alike(other_left) && negated == other_negated && list.alike(other_list),
                _ => false,
            },
            Expr::InQuery {
                left,
                negated,
                query,
                ..
            } => match other {
                Expr::InQuery {
                    left: other_left,
                    negated: other_negated,
                    query: other_query,
                    ..
                } => left.alike(other_left) && negated == other_negated && query.alike(other_query),
                _ => false,
            },
            Expr::InUnnest {
                left,
                negated,
                array,
                ..
            } => match other {
                Expr::InUnnest {
                    left: other_left,
                    negated: other_negated,
                    array: other_array,
                    ..
                } => left.alike(other_left) && negated == other_negated && array.alike(other_array),
                _ => false,
            },
            Expr::Is {
                left,
                negated,
                test,
                ..
            } => match other {
                Expr::Is {
                    left: other_left,
                    negated: other_negated,
                    test: other_test,
                    ..
                } => left.alike(other_left) && negated == other_negated && test == other_test,
                _ => false,
            },
            Expr::Distinct {
                left,
                negated,
                right,
                ..
            } => match other {
                Expr::Distinct {
                    left: other_left,
                    negated: other_negated,
                    right: other_right,
                    ..
                } => left.alike(other_left) && negated == other_negated && right.alike(other_right),
                _ => false,
            },
            Expr::Postfix { first, parts, .. } => match other {
                Expr::Postfix {
                    first: other_first,
                    parts: other_parts,
                    ..
                } => first.alike(other_first) && parts.alike(other_parts),
                _ => false,
            },
            Expr::Integer { value, .. } => match other {
                Expr::Integer {
                    value: other_value,
                    ..
                } => value == other_value,
                _ => false,
            },
            Expr::Text { value, .. } => match other {
                Expr::Text {
                    value: other_value,
                    ..
                } => value.alike(other_value),
                _ => false,
            },
            Expr::Bytes { value, .. } => match other {
                Expr::Bytes {
                    value: other_value,
                    ..
                } => same_bytes(value, other_value),
                _ => false,
            },
            Expr::Bool { value, .. } => match other {
                Expr::Bool {
                    value: other_value,
                    ..
                } => value == other_value,
                _ => false,
            },
            Expr::Null { .. } => matches!(other, Expr::Null { .. }),
            Expr::Date { text, .. } => match other {
                Expr::Date {
                    text: other_text,
                    ..
                } => text.alike(other_text),
                _ => false,
            },
            Expr::Parameter { name, .. } => match other {
                Expr::Parameter {
                    name: other_name,
                    ..
                } => same_letters(name, other_name),
                _ => false,
            },
            Expr::Name { name, .. } => match other {
                Expr::Name {
                    name: other_name,
                    ..
                } => same_letters(name, other_name),
                _ => false,
            },
            Expr::Call { call, .. } => match other {
                Expr::Call {
                    call: other_call,
                    ..
                } => call.alike(other_call),
                _ => false,
            },
            Expr::SafeCall { call, .. } => match other {
                Expr::SafeCall {
                    call: other_call,
                    ..
                } => call.alike(other_call),
                _ => false,
            },
            Expr::Scalar { query, .. } => match other {
                Expr::Scalar {
                    query: other_query,
                    ..
                } => query.alike(other_query),
                _ => false,
            },
            Expr::Tuple { parts, .. } => match other {
                Expr::Tuple {
                    parts: other_parts,
                    ..
                } => parts.alike(other_parts),
                _ => false,
            },
            Expr::Case {
                subject,
                branches,
                otherwise,
                ..
            } => match other {
                Expr::Case {
                    subject: other_subject,
                    branches: other_branches,
                    otherwise: other_otherwise,
                    ..
                } => subject.alike(other_subject)
                    && branches.alike(other_branches)
                    && otherwise.alike(other_otherwise),
                _ => false,
            },
            Expr::Cast { safe, expr, ty, .. } => match other {
                Expr::Cast {
                    safe: other_safe,
                    expr: other_expr,
                    ty: other_ty,
                    ..
                } => safe == other_safe && expr.alike(other_expr) && ty.alike(other_ty),
                _ => false,
            },
            Expr::Extract { part, expr, .. } => match other {
                Expr::Extract {
                    part: other_part,
                    expr: other_expr,
                    ..
                } => part.alike(other_part) && expr.alike(other_expr),
                _ => false,
            },
            Expr::Grouping { argument, .. } => match other {
                Expr::Grouping {
                    argument: other_argument,
                    ..
                } => argument.alike(other_argument),
                _ => false,
            },
            Expr::Exists { query, .. } => match other {
                Expr::Exists {
                    query: other_query,
                    ..
                } => query.alike(other_query),
                _ => false,
            },
            Expr::ArrayQuery { query, .. } => match other {
                Expr::ArrayQuery {
                    query: other_query,
                    ..
                } => query.alike(other_query),
                _ => false,
            },
            Expr::Array { element, items, .. } => match other {
                Expr::Array {
                    element: other_element,
                    items: other_items,
                    ..
                } => element.alike(other_element) && items.alike(other_items),
                _ => false,
            },
            Expr::Struct { parts, .. } => match other {
                Expr::Struct {
                    parts: other_parts,
                    ..
                } => parts.alike(other_parts),
                _ => false,
            },
            Expr::TypedStruct { fields, parts, .. } => match other {
                Expr::TypedStruct {
                    fields: other_fields,
                    parts: other_parts,
                    ..
                } => fields.alike(other_fields) && parts.alike(other_parts),
                _ => false,
            },
            Expr::With {
                bindings,
                result,
                ..
            } => match other {
                Expr::With {
                    bindings: other_bindings,
                    result: other_result,
                    ..
                } => bindings.alike(other_bindings) && result.alike(other_result),
                _ => false,
            },
        }
    }
}

impl Alike for Primary {
    ghost bare = { bare.BarePrimary str_to_ascii_lowercase };

    #[cycle(alike)]
    fn alike(&self, other: &Primary) -> bool {
        match (self, other) {
            (
                Primary::Table {
                    name,
                    alias,
                    turned,
                    ..
                },
                Primary::Table {
                    name: other_name,
                    alias: other_alias,
                    turned: other_turned,
                    ..
                },
            ) => name.alike(other_name) && alias.alike(other_alias) && turned.alike(other_turned),
            (
                Primary::Query {
                    query,
                    alias,
                    turned,
                    ..
                },
                Primary::Query {
                    query: other_query,
                    alias: other_alias,
                    turned: other_turned,
                    ..
                },
            ) => query.alike(other_query) && alias.alike(other_alias) && turned.alike(other_turned),
            (
                Primary::Path {
                    path,
                    alias,
                    offset,
                    ..
                },
                Primary::Path {
                    path: other_path,
                    alias: other_alias,
                    offset: other_offset,
                    ..
                },
            ) => path.alike(other_path) && alias.alike(other_alias) && offset.alike(other_offset),
            (
                Primary::Unnest {
                    array,
                    alias,
                    offset,
                    ..
                },
                Primary::Unnest {
                    array: other_array,
                    alias: other_alias,
                    offset: other_offset,
                    ..
                },
            ) => array.alike(other_array) && alias.alike(other_alias) && offset.alike(other_offset),
            _ => false,
        }
    }
}

impl Alike for Joined {
    ghost bare = { bare.BareJoined str_to_ascii_lowercase };

    #[cycle(alike)]
    fn alike(&self, other: &Joined) -> bool {
        self.word == other.word && self.primary.alike(&other.primary) && self.on.alike(&other.on)
    }
}

impl Alike for FromItem {
    ghost bare = { bare.BareFrom str_to_ascii_lowercase };

    #[cycle(alike)]
    fn alike(&self, other: &FromItem) -> bool {
        self.first.alike(&other.first) && self.rest.alike(&other.rest)
    }
}

impl Alike for Term {
    ghost bare = { bare.BareTerm str_to_ascii_lowercase };

    #[cycle(alike)]
    fn alike(&self, other: &Term) -> bool {
        match self {
            Term::Select { select } => match other {
                Term::Select {
                    select: other_select,
                } => select.alike(other_select),
                _ => false,
            },
            Term::Query { query, .. } => match other {
                Term::Query {
                    query: other_query,
                    ..
                } => query.alike(other_query),
                _ => false,
            },
        }
    }
}

impl Alike for Select {
    ghost bare = { bare.BareSelect str_to_ascii_lowercase };

    #[cycle(alike)]
    fn alike(&self, other: &Select) -> bool {
        self.distinct == other.distinct
            && self.as_struct == other.as_struct
            && self.items.alike(&other.items)
            && self.from.alike(&other.from)
            && self.filter.alike(&other.filter)
            && self.grouping.alike(&other.grouping)
            && self.having.alike(&other.having)
    }
}

impl Alike for Query {
    ghost bare = { bare.BareQuery str_to_ascii_lowercase };

    #[cycle(alike)]
    fn alike(&self, other: &Query) -> bool {
        self.ctes.alike(&other.ctes)
            && self.body.alike(&other.body)
            && self.order.alike(&other.order)
            && self.limit.alike(&other.limit)
    }
}
