//! What holds of the texts of all trees.
ghost use Rattle.std.specs.Prelude.{◌≡◌, ℕ, List};
ghost use Rattle.resolved_ast.specs.declared.scan.Tree.{Tree};
ghost use Rattle.resolved_ast.specs.Flaws.{Valid};
ghost use Rattle.resolved_ast.specs.TreeText.{TreeText};
ghost use Rattle.tree_texts.specs.Numbered.{Numbered};

/// The text of a valid tree is that of no other valid tree whose tables one catalog numbers: it tells each node and the order of
/// its parts, each name, type, value and number, and which parts may be missing.
pub fn tree_text_once()
    ensures { (numbers : List ℕ → ℕ) (left right : Tree) → Valid left → Valid right → Numbered numbers left → Numbered numbers right → TreeText left ≡ TreeText right → left ≡ right }
{}
