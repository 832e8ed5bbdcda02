//! What holds of the grammar.
ghost use Rattle.std.specs.Prelude.{◌≡◌, List};
ghost use Rattle.sql_ast.specs.declared.expr.Expr.{Expr};
ghost use Rattle.sql_ast.specs.declared.query.Query.{Query};
ghost use Rattle.sql_ast.specs.declared.token.Token.{Token};
ghost use Rattle.sql_ast.specs.Grammar.{ExprOf, QueryOf, TextOf};

/// At most one tree spells a text, a query, or an expression.
pub fn one_tree()
    ensures text { (left right : Query) (tokens : List Token) → TextOf left tokens → TextOf right tokens → left ≡ right }
    ensures query { (left right : Query) (tokens : List Token) → QueryOf left tokens → QueryOf right tokens → left ≡ right }
    ensures expr { (left right : Expr) (tokens : List Token) → ExprOf left tokens → ExprOf right tokens → left ≡ right }
{}
