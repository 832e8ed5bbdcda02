//! Trees that are valid.
ghost use Rattle.std.specs.Prelude.{◌≡◌};
ghost use Rattle.resolved_ast.specs.Flaws.{Valid};

use crate::scan::Tree;
use std::marker::Model;

/// A valid tree, by its type. Contracts see the tree.
#[derive(Drop)]
pub struct Checked {
    tree: Tree,
}

impl Model for Checked {
    ghost use Rattle.std.specs.Coded.{codes};
    ghost use Rattle.resolved_ast.specs.declared.scan.Tree.{Tree};
    ghost use Rattle.resolved_ast.specs.Flaws.{Valid};
    ghost use Rattle.resolved_ast.specs.contracts.scan.Tree as tree_row;

    ghost Value = { Tree };

    ghost coded = { Prim.hlevel (codes, tree_row.the_row.coded) };

    ghost view = { λ c. c.tree };

    ghost invariant = { λ c. Valid c.tree };
}

impl Checked {
    /// A tree that is known to be valid. It takes no memory.
    pub fn seal(tree: Tree) -> Checked
        requires { Valid tree }
        ensures { result ≡ tree }
    {
        Checked { tree }
    }

    /// The tree.
    pub fn tree(&self) -> &Tree
        ensures tree { result.now ≡ self.now }
        ensures valid { Valid self.now }
    {
        &self.tree
    }

    /// Gives the tree back. It takes no memory.
    pub fn into_tree(self) -> Tree
        ensures tree { result ≡ self }
        ensures valid { Valid result }
    {
        let Checked { tree } = self;
        tree
    }
}
