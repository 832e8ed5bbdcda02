//! What has lines in the text of a tree, and lists of it.
ghost use Rattle.std.specs.Prelude.{◌≡◌, OnOk, List, ℕ, Bool, true};
ghost use Rattle.resolved_ast.specs.Lines as lines;
ghost use Rattle.resolved_ast.specs.LiteralsFit.{each_fits};
ghost use Rattle.resolved_ast.specs.Pages as pages;
ghost use Rattle.resolved_ast.specs.Parts.{there};

use crate::lines::{compute_line, cte_line};
use crate::page::Page;
use crate::rex::Compute;
use crate::scan::Cte;
use sql_types::{Boxed, Items};
use std::alloc::AllocError;

/// A part of a tree with its lines.
pub trait Shown {
    // The lines, by the spaces before each.
    ghost shown: { Self → List ℕ → List ℕ };

    // Each Literal's value fits its type.
    ghost fit: { Self → Bool };

    /// Writes the lines, in time linear in what is written.
    fn show(&self, page: &mut Page) -> Result<(), AllocError>
        requires { fit self.now ≡ true }
        ensures { OnOk result (page.new ≡ pages.written page.old (shown self.now page.old.margin)) };
}

impl<P: Shown> Shown for Boxed<P> {
    ghost shown = { λ part. P.shown part };

    ghost fit = { λ part. P.fit part };

    fn show(&self, page: &mut Page) -> Result<(), AllocError> {
        self.get().show(page)
    }
}

impl<P: Shown> Shown for Option<P> {
    ghost shown = { λ part. lines.each_text P.shown (there part) };

    ghost fit = { λ part. each_fits P.fit (there part) };

    #[tactic(auto, using(crate::proofs::PageLaws::written_append, crate::proofs::PageLaws::written_none))]
    fn show(&self, page: &mut Page) -> Result<(), AllocError> {
        match self {
            None => Ok(()),
            Some(part) => part.show(page),
        }
    }
}

/// One part after another.
impl<P: Shown> Shown for Items<P> {
    ghost shown = { lines.each_text P.shown };

    ghost fit = { each_fits P.fit };

    fn show(&self, page: &mut Page) -> Result<(), AllocError> {
        show_all(page, self.as_slice())
    }
}

fn show_all<P: Shown>(page: &mut Page, parts: &[P]) -> Result<(), AllocError>
    requires { each_fits P.fit parts.now ≡ true }
    ensures { OnOk result (page.new ≡ pages.written page.old (lines.each_text P.shown parts.now page.old.margin)) }
{
    for part in parts {
        part.show(page)?;
    }
    Ok(())
}

/// Writes the lines of a part two spaces further in.
pub fn show_below<P: Shown>(page: &mut Page, part: &P) -> Result<(), AllocError>
    requires { P.fit part.now ≡ true }
    ensures { OnOk result (page.new ≡ pages.below page.old (P.shown part.now)) }
{
    let depth = page.depth();
    page.deepen()?;
    part.show(page)?;
    page.narrow(depth);
    Ok(())
}

impl<R: Shown> Shown for Compute<R> {
    ghost shown = { lines.compute_of R.shown };

    ghost fit = { λ c. R.fit c.expr };

    fn show(&self, page: &mut Page) -> Result<(), AllocError> {
        compute_line(page, &self.column)?;
        show_below(page, &self.expr)
    }
}

impl<S: Shown> Shown for Cte<S> {
    ghost shown = { lines.cte_of S.shown };

    ghost fit = { λ c. S.fit c.scan };

    fn show(&self, page: &mut Page) -> Result<(), AllocError> {
        cte_line(page, self.number, &self.columns)?;
        show_below(page, &self.scan)
    }
}
