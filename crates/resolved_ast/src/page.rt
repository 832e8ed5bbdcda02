//! A page on which the lines of a tree are written.
ghost use Rattle.std.specs.Prelude.{◌≡◌, ◌++◌, OnOk, codes, length, true};
ghost use Rattle.sql_names.specs.Spelling.{quote_name};
ghost use Rattle.sql_types.specs.TypeText.{type_text};
ghost use Rattle.sql_ast.specs.Literals.{LiteralText, dates_fit};
ghost use Rattle.resolved_ast.specs.Numeral.{numeral};
ghost use Rattle.resolved_ast.specs.Pages as pages;
ghost use Rattle.resolved_ast.specs.TreeText as text;

use crate::spelled::{Spelled, write_list, write_number};
use sql_ast::spelling::write_name;
use sql_ast::write_literal;
use sql_types::{Bytes, Items, SqlType, Text, Value, write_type};
use std::alloc::{AllocError, Global};
use std::marker::Model;

/// The lines that are written so far, and the spaces before the next. After a failed call its text is of no use.
#[derive(Drop)]
pub struct Page {
    text: Vec<u8>,
    margin: Vec<u8>,
}

impl Model for Page {
    ghost use Rattle.resolved_ast.specs.Pages.{Page};

    ghost Value = { Page };

    ghost view = { λ p. record { text = p.text.items; margin = p.margin.items } };
}

impl Page {
    /// Nothing is written yet. It takes no memory.
    pub fn new(alloc: Global) -> Page
        ensures { result ≡ pages.blank }
    {
        Page {
            text: Vec::new(alloc),
            margin: Vec::new(alloc),
        }
    }

    /// The text that is written.
    pub fn finish(self) -> Bytes
        ensures { result ≡ self.text }
    {
        let Page { text, margin: _ } = self;
        Items::from_vec(text)
    }

    /// Begins a line with the word of a node.
    #[tactic(auto, using(crate::proofs::PageLaws::written_append), unfolding(crate::specs::Pages::written))]
    pub fn open(&mut self, word: &[u8]) -> Result<(), AllocError>
        ensures { OnOk result (self.new ≡ pages.written self.old (self.old.margin ++ word.now)) }
    {
        self.text.extend_from_slice(self.margin.as_slice())?;
        self.text.extend_from_slice(word)
    }

    /// Ends a line.
    #[tactic(auto, unfolding(crate::specs::Pages::written))]
    pub fn close(&mut self) -> Result<(), AllocError>
        ensures { OnOk result (self.new ≡ pages.written self.old (codes "\n")) }
    {
        self.text.extend_from_slice(b"\n")
    }

    /// A field that is a word.
    #[tactic(auto, unfolding(crate::specs::Pages::written))]
    pub fn word(&mut self, word: &[u8]) -> Result<(), AllocError>
        ensures { OnOk result (self.new ≡ pages.written self.old (codes " " ++ word.now)) }
    {
        self.text.extend_from_slice(b" ")?;
        self.text.extend_from_slice(word)
    }

    /// A field that is a name of the catalog.
    #[tactic(auto, unfolding(crate::specs::Pages::written))]
    pub fn name(&mut self, name: &Text) -> Result<(), AllocError>
        ensures { OnOk result (self.new ≡ pages.written self.old (codes " " ++ quote_name name.now)) }
    {
        self.text.extend_from_slice(b" ")?;
        write_name(&mut self.text, name)
    }

    /// A field that is a number.
    #[tactic(auto, unfolding(crate::specs::Pages::written))]
    pub fn number(&mut self, number: u64) -> Result<(), AllocError>
        ensures { OnOk result (self.new ≡ pages.written self.old (codes " " ++ numeral number)) }
    {
        self.text.extend_from_slice(b" ")?;
        write_number(&mut self.text, number)
    }

    /// A field that is a type.
    #[tactic(auto, unfolding(crate::specs::Pages::written))]
    pub fn ty(&mut self, ty: &SqlType) -> Result<(), AllocError>
        ensures { OnOk result (self.new ≡ pages.written self.old (codes " " ++ type_text ty.now)) }
    {
        self.text.extend_from_slice(b" ")?;
        write_type(&mut self.text, ty)
    }

    /// A field that is a literal. Each DATE in it lies in DATE's range.
    #[tactic(auto, unfolding(crate::specs::Pages::written))]
    pub fn value(&mut self, value: &Value) -> Result<(), AllocError>
        requires { dates_fit value.now ≡ true }
        ensures { OnOk result (self.new ≡ pages.written self.old (codes " " ++ LiteralText value.now)) }
    {
        self.text.extend_from_slice(b" ")?;
        write_literal(&mut self.text, value)
    }

    /// A field that is a column.
    #[tactic(auto, unfolding(crate::specs::Pages::written))]
    pub fn column<C: Spelled>(&mut self, column: &C) -> Result<(), AllocError>
        ensures { OnOk result (self.new ≡ pages.written self.old (codes " " ++ C.spelled column.now)) }
    {
        self.text.extend_from_slice(b" ")?;
        column.write(&mut self.text)
    }

    /// A field that is a list of columns.
    #[tactic(auto, unfolding(crate::specs::Pages::written))]
    pub fn columns<C: Spelled>(&mut self, columns: &Items<C>) -> Result<(), AllocError>
        ensures { OnOk result (self.new ≡ pages.written self.old (codes " " ++ text.list_text C.spelled columns.now)) }
    {
        self.text.extend_from_slice(b" ")?;
        write_list(&mut self.text, columns.as_slice())
    }

    /// How many spaces stand before the next line.
    pub fn depth(&self) -> usize
        ensures { result ≡ length self.now.margin }
    {
        self.margin.len()
    }

    /// The next lines stand two spaces further in.
    #[tactic(auto, unfolding(crate::specs::Pages::deeper))]
    pub fn deepen(&mut self) -> Result<(), AllocError>
        ensures { OnOk result (self.new ≡ pages.deeper self.old) }
    {
        self.margin.extend_from_slice(b"  ")
    }

    /// The next lines stand behind this many spaces.
    #[tactic(auto, unfolding(crate::specs::Pages::narrowed))]
    pub fn narrow(&mut self, depth: usize)
        ensures { self.new ≡ pages.narrowed self.old depth }
    {
        self.margin.truncate(depth);
    }
}
