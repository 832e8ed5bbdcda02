//! What holds of the outcomes of all valid trees.
ghost use Rattle.std.specs.Prelude.{◌≡◌, true, map, List, Ok};
ghost use Rattle.std.specs.List.{list_all};
ghost use Rattle.sql_types.specs.Fits.{fits_row};
ghost use Rattle.sql_types.specs.Joined.{Row};
ghost use Rattle.sql_types.specs.declared.rows.Param.{Param};
ghost use Rattle.resolved_ast.specs.Fitting.{Fitting};
ghost use Rattle.resolved_ast.specs.Flaws.{Valid};
ghost use Rattle.resolved_ast.specs.Meanings.{TableRows, TreeMeans};
ghost use Rattle.resolved_ast.specs.Slots.{Slots};
ghost use Rattle.resolved_ast.specs.declared.scan.Output.{Output};
ghost use Rattle.resolved_ast.specs.declared.scan.Tree.{Tree};

/// The rows that a valid tree may give over tables and parameters that fit it have one fitting value per column of its answer,
/// whatever the slots.
pub fn tree_outcomes_fit()
    ensures { (tree : Tree) (tables : TableRows) (params : List Param) (slots : Slots) (rows : List Row) → Valid tree → Fitting tree tables params → TreeMeans tables params tree slots (Ok rows) → list_all (fits_row (map (λ (o : Output). record { name = o.name; ty = o.ty }) tree.outputs)) rows ≡ true }
{}
