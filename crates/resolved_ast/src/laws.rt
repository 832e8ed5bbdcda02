//! What holds of all trees.
ghost use Rattle.std.specs.Prelude.{List};
ghost use Rattle.sql_types.specs.Joined.{Row};
ghost use Rattle.sql_types.specs.Outcome.{Outcome};
ghost use Rattle.sql_types.specs.declared.rows.Param.{Param};
ghost use Rattle.resolved_ast.specs.Meanings.{TableRows, TreeMeans};
ghost use Rattle.resolved_ast.specs.Slots.{Slots};
ghost use Rattle.resolved_ast.specs.declared.scan.Tree.{Tree};

/// Each tree has at least one outcome, over all tables and parameters and in all slots: a valid tree over those that fit it, and
/// every other tree as well, since what can't be found in one has a value all the same.
pub fn tree_has_outcome()
    ensures { (tree : Tree) (tables : TableRows) (params : List Param) (slots : Slots) → (o : Outcome (List Row)) × TreeMeans tables params tree slots o }
{}
