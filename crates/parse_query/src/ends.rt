//! How the items of a select list begin and end.
ghost use Rattle.std.specs.Prelude.{◌≡◌, IfOk};
ghost use Rattle.sql_grammar.specs.Queries as queries;
ghost use Rattle.parse_query.specs.Ends.{edited_item, except_in};

use parse_words::kept::Kept;
use sql_ast::{Edit, Expr, Item};
use sql_nodes::part_nodes;
use sql_types::{Boxed, OutOfMemory};
use std::alloc::Global;
use std::marker::Model;

/// How the items of a select list end: by a comma behind them, or by the word EXCEPT behind a `*`, which was read.
#[derive(Drop)]
pub struct ItemsEnd {
    word: Option<Kept>,
}

impl Model for ItemsEnd {
    ghost use Rattle.sql_grammar.specs.Queries.{ItemsEnd as End};
    ghost use Rattle.parse_query.specs.Ends.{end_of};

    ghost Value = { End };

    ghost view = { λ k. end_of k.word };
}

impl ItemsEnd {
    /// By a comma.
    pub fn comma() -> ItemsEnd
        ensures { result ≡ queries.at_comma }
    {
        ItemsEnd { word: None }
    }

    /// By the word EXCEPT.
    pub fn except(word: Kept) -> ItemsEnd
        ensures { result ≡ queries.at_except word }
    {
        ItemsEnd { word: Some(word) }
    }
}

/// The end of the items, where the last was a `*` and EXCEPT was read.
pub fn except_end(word: Option<Kept>) -> Option<ItemsEnd>
    ensures { result ≡ queries.except_end word }
{
    match word {
        None => None,
        Some(word) => Some(ItemsEnd::except(word)),
    }
}

/// The word EXCEPT that ends the items, if it does.
pub fn except_of(end: Option<ItemsEnd>) -> Option<Kept>
    ensures { result ≡ except_in end }
{
    match end {
        None => None,
        Some(end) => end.word,
    }
}

/// What an item begins with that is a `*`: nothing, or an expression and a dot.
#[derive(Drop)]
pub enum Starred {
    All { place: u64 },
    Qualified { qualifier: Boxed<Expr>, place: u64 },
}

/// The item of such a beginning with an edit.
pub fn edited_item(
    alloc: Global,
    starred: Starred,
    edit: Boxed<Edit<Expr>>,
) -> Result<Boxed<Item<Expr>>, OutOfMemory>
    ensures { IfOk result (λ i. i ≡ edited_item starred edit) }
{
    match starred {
        Starred::All { place } => part_nodes::item_star(alloc, edit, place),
        Starred::Qualified { qualifier, place } => part_nodes::item_qualified_star(
            alloc, qualifier, edit, place,
        ),
    }
}
