//! What holds of the tokens of every text.
ghost use Rattle.std.specs.Prelude.{◌≡◌, ℕ, List, Result, Ok};
ghost use Rattle.sql_ast.specs.declared.token.Token.{Token};
ghost use Rattle.sql_ast.specs.Tokens.{TokensOf};
ghost use Rattle.sql_lexer.specs.Spans.{Apart};

/// A text has one list of tokens, or one first fault, and not both.
pub fn one_answer()
    ensures some { (text : List ℕ) → (answer : Result (List Token) ℕ) × TokensOf text answer }
    ensures one { (text : List ℕ) (left right : Result (List Token) ℕ) → TokensOf text left → TokensOf text right → left ≡ right }
{}

/// The spans of the tokens are in order and don't overlap, and what lies between them, before the first and behind the last
/// is white space and comments alone.
pub fn spans_apart()
    ensures { (text : List ℕ) (tokens : List Token) → TokensOf text (Ok tokens) → Apart text 0 tokens }
{}
