//! Base trees.
ghost use Rattle.std.specs.Prelude.{◌≡◌};
ghost use Rattle.resolved_ast.specs.Fitting.{is_base};

use resolved_ast::Checked;

/// Whether a tree is a base tree. Each is, since no node is of another kind yet. It takes no memory.
pub fn is_base(checked: &Checked) -> bool
    ensures { result ≡ is_base checked.now.scan }
{
    let _tree = checked.tree();
    true
}
