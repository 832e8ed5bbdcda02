//! How far the check has come.
ghost use Rattle.std.specs.Prelude.{◌≡◌, ◌==◌, ◌++◌, ◌&&◌, [], ◌∷◌, not, true, ℕ, suc, IfOk};
ghost use Rattle.resolved_ast.specs.Columns.{among, numbers};
ghost use Rattle.resolved_ast.specs.Flaws as flaws;
ghost use Rattle.tree_check.specs.Made.{made_of};
ghost use Rattle.tree_check.specs.Orders.{order_of};
ghost use Rattle.tree_check.specs.Walked.{Walked};

use crate::numbers::Numbers;
use crate::order::{Order, first_kind};
use crate::refusal::CheckRefusal;
use resolved_ast::MadeColumn;
use std::alloc::{AllocError, Global};
use std::marker::Model;

/// The columns that a node makes: a list, or one and another that may be missing.
#[derive(Clone, Copy)]
pub enum Made<'a> {
    Listed(&'a [MadeColumn]),
    Element(&'a MadeColumn, &'a Option<MadeColumn>),
}

/// What stands before a node: how many nodes, and the numbers of the columns that they make.
#[derive(Drop)]
pub struct Progress {
    nodes: u64,
    made: Numbers,
}

impl Model for Progress {
    ghost use Rattle.std.specs.Coded.{codes};
    ghost use Rattle.resolved_ast.specs.Flaws.{Before};

    ghost Value = { Before };

    ghost coded = { Prim.hlevel (codes) };

    ghost view = { λ p. record { nodes = p.nodes; made = p.made } };
}

impl Progress {
    /// Nothing stands before. It takes no memory.
    pub fn start(alloc: Global) -> Progress
        ensures { result ≡ flaws.nothing_before }
    {
        Progress {
            nodes: 0,
            made: Numbers::new(alloc),
        }
    }

    /// Goes past a node that makes these columns, or refuses it where it has a flaw. It takes time linear in the columns.
    #[tactic(auto, unfolding(resolved_ast::specs::Flaws::at_node))]
    pub fn pass(&mut self, order: Order, made: Made) -> Result<(), CheckRefusal>
        ensures { Walked (flaws.at_node (order_of order) (made_of made.entry) [] self.old) self.new result }
    {
        let new = add_made(&mut self.made, made)?;
        match first_kind(order, new) {
            Some(kind) => Err(CheckRefusal::Flaw {
                place: self.nodes,
                kind,
            }),
            None => {
                self.nodes = one_more(self.nodes)?;
                Ok(())
            }
        }
    }
}

/// The next number. Memory never holds as many nodes as there are numbers.
fn one_more(number: u64) -> Result<u64, AllocError>
    ensures { IfOk result (λ next. next ≡ suc number) }
{
    number.checked_add(1).ok_or(AllocError)
}

/// Adds the numbers of the columns that a node makes, and says whether each was new and above 0.
fn add_made(known: &mut Numbers, made: Made) -> Result<bool, AllocError>
    ensures new { IfOk result (λ new. new ≡ flaws.are_new (numbers (made_of made.entry)) known.old) }
    ensures known { IfOk result (λ new. new ≡ true → known.new ≡ numbers (made_of made.entry) ++ known.old) }
{
    match made {
        Made::Listed(columns) => add_all(known, columns),
        Made::Element(element, None) => add_one(known, element.id.0),
        Made::Element(element, Some(offset)) => add_two(known, element.id.0, offset.id.0),
    }
}

/// Adds the second number and then the first.
fn add_two(known: &mut Numbers, first: u64, second: u64) -> Result<bool, AllocError>
    ensures new { IfOk result (λ new. new ≡ flaws.are_new (first ∷ second ∷ []) known.old) }
    ensures known { IfOk result (λ new. new ≡ true → known.new ≡ first ∷ second ∷ known.old) }
{
    if !add_one(known, second)? {
        return Ok(false);
    }
    add_one(known, first)
}

/// Adds the numbers of columns, the last first, and says whether each was new and above 0.
fn add_all(known: &mut Numbers, made: &[MadeColumn]) -> Result<bool, AllocError>
    ensures new { IfOk result (λ new. new ≡ flaws.are_new (numbers made.now) known.old) }
    ensures known { IfOk result (λ new. new ≡ true → known.new ≡ numbers made.now ++ known.old) }
{
    let mut left = made.len();
    while left > 0 {
        left -= 1;
        if !add_one(known, made[left].id.0)? {
            return Ok(false);
        }
    }
    Ok(true)
}

/// Adds one number, and says whether it was new and above 0.
fn add_one(known: &mut Numbers, number: u64) -> Result<bool, AllocError>
    ensures new { IfOk result (λ new. new ≡ (not (number == 0) && not (among number known.old))) }
    ensures known { IfOk result (λ new. new ≡ true → known.new ≡ number ∷ known.old) }
{
    if number == 0 {
        return Ok(false);
    }
    known.add(number)
}
