//! What holds of the canonical print of every query.
ghost use Rattle.std.specs.Prelude.{ℕ, List};
ghost use Rattle.sql_ast.specs.declared.query.Query.{Query};
ghost use Rattle.sql_ast.specs.Canon.{Canon};
ghost use Rattle.sql_same.specs.Bare.{SamePlacesAside};
ghost use Rattle.sql_print.specs.ReadBack.{SpellsAside};

/// For a query that some text spells, places aside, its canonical print spells the query, places aside, and no other.
pub fn read_back()
    ensures spells { (text : List ℕ) (query : Query) → SpellsAside text query → SpellsAside (Canon query) query }
    ensures alone { (text : List ℕ) (query other : Query) → SpellsAside text query → SpellsAside (Canon query) other → SamePlacesAside other query }
{}
