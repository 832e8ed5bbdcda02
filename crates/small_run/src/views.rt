//! Which expressions, select items and items of FROM are of the first form.
ghost use Rattle.std.specs.Prelude.{◌≡◌, ℕ, false, None, MatchOption};
ghost use Rattle.sql_ast.specs.declared.expr.Expr.{out-Expr};
ghost use Rattle.sql_ast.specs.declared.query.Primary.{out-Primary};
ghost use Rattle.sql_ast.specs.declared.query.Query.{out-Query};
ghost use Rattle.sql_ast.specs.declared.query.Select.{out-Select};
ghost use Rattle.sql_ast.specs.declared.query.Term.{out-Term};
ghost use Rattle.sql_ast.specs.declared.expr.Expr.TheOpen as ast;
ghost use Rattle.sql_ast.specs.declared.clauses.Item.TheVariants as items;
ghost use Rattle.sql_rules.specs.Typing.{is_name};
ghost use Rattle.small_run.specs.Parts.{is_plain, is_table_name, is_select, plain_parts, one_term};

use sql_ast::{Expr, Item, Name, Primary, Query, Select, Term};
use sql_types::Text;

/// The name that an expression is, if it is one.
pub fn name_of(expr: &Expr) -> Option<&Text>
    ensures { MatchOption result (is_name (out-Expr expr.now) ≡ false)
        (λ name. (place : ℕ) × (out-Expr expr.now ≡ ast.Name name.now place)) }
{
    match expr {
        Expr::Name { name, .. } => Some(name),
        _ => None,
    }
}

/// The expression of a select item, if it is one without an alias.
pub fn plain_expr(item: &Item<Expr>) -> Option<&Expr>
    ensures { MatchOption result (is_plain item.now ≡ false)
        (λ expr. (place : ℕ) × (item.now ≡ items.Expr expr.now None place)) }
{
    match item {
        Item::Expr {
            expr,
            alias: None,
            ..
        } => Some(expr),
        _ => None,
    }
}

/// The name of the table that an item of FROM is, if it is a name with neither an alias nor PIVOT or UNPIVOT.
pub fn table_name(primary: &Primary) -> Option<&Name>
    ensures { MatchOption result (is_table_name (out-Primary primary.now) ≡ false)
        (λ name. (place : ℕ) × (out-Primary primary.now ≡ ast.Table name.now None None place)) }
{
    match primary {
        Primary::Table {
            name,
            alias: None,
            turned: None,
            ..
        } => Some(name),
        _ => None,
    }
}

/// The SELECT that a term is, if it is not a query in brackets.
pub fn select_in(term: &Term) -> Option<&Select>
    ensures { MatchOption result (is_select (out-Term term.now) ≡ false)
        (λ select. out-Term term.now ≡ ast.Select select.now) }
{
    match term {
        Term::Select { select } => Some(select.get()),
        Term::Query { .. } => None,
    }
}

/// Whether a SELECT has no part but FROM, WHERE and its select list.
pub fn is_plain_select(select: &Select) -> bool
    ensures { result ≡ plain_parts (out-Select select.now) }
{
    !select.distinct && !select.as_struct && select.grouping.is_none() && select.having.is_none()
}

/// Whether a query is one SELECT or query in brackets, without WITH, ORDER BY and LIMIT.
pub fn is_plain_query(query: &Query) -> bool
    ensures { result ≡ one_term (out-Query query.now) }
{
    query.ctes.is_empty()
        && query.body.rest.is_empty()
        && query.order.is_empty()
        && query.limit.is_none()
}
