//! A writer of tokens, which knows where a space stands between two.
ghost use Rattle.std.specs.Prelude.{◌≡◌, ◌++◌, OnOk, true, false};
ghost use Rattle.sql_ast.specs.Pieces as pieces;
ghost use Rattle.sql_ast.specs.declared.token.Lexeme.TheVariants as lexeme;
ghost use Rattle.sql_print.specs.Pages as pages;

use crate::spelled::{reserved_text, sign_text, word_text};
use itoa::Buffer;
use sql_ast::spelling::{write_bytes, write_name, write_text};
use sql_ast::{Reserved, Sign, Word};
use sql_types::{Bytes, Items, Text};
use std::alloc::{AllocError, Global};
use std::marker::Model;

/// Tokens that are written one after another. After a failed call its text is of no use.
#[derive(Drop)]
pub struct Writer {
    text: Vec<u8>,
    behind: bool,
}

impl Model for Writer {
    ghost use Rattle.sql_print.specs.Pages.{Page};

    ghost Value = { Page };

    ghost view = { λ w. record { text = w.text.items; behind = w.behind } };
}

impl Writer {
    /// Nothing is written yet. It takes no memory.
    pub fn new(alloc: Global) -> Writer
        ensures { result ≡ pages.blank }
    {
        Writer {
            text: Vec::new(alloc),
            behind: false,
        }
    }

    /// The text that is written.
    pub fn finish(self) -> Bytes
        ensures { result ≡ self.text }
    {
        let Writer { text, behind: _ } = self;
        Items::from_vec(text)
    }

    /// A reserved word, in upper case.
    #[tactic(auto, unfolding(crate::specs::Pages::after, sql_ast::specs::Pieces::lexeme_text))]
    pub fn word(&mut self, word: Reserved) -> Result<(), AllocError>
        ensures { OnOk result (self.new ≡ pages.after self.old (pieces.word word)) }
    {
        self.gap(true)?;
        self.text.extend_from_slice(reserved_text(word))?;
        self.behind = true;
        Ok(())
    }

    /// A word that the grammar reads at its place, in upper case.
    #[tactic(auto, using(crate::proofs::WordLaws::plain_word), unfolding(crate::specs::Pages::after, sql_ast::specs::Pieces::lexeme_text))]
    pub fn read_word(&mut self, word: Word) -> Result<(), AllocError>
        ensures { OnOk result (self.new ≡ pages.after self.old (pieces.read_word word)) }
    {
        self.gap(true)?;
        self.text.extend_from_slice(word_text(word))?;
        self.behind = true;
        Ok(())
    }

    /// A name, in backquotes where it isn't plain.
    #[tactic(auto, unfolding(crate::specs::Pages::after, sql_ast::specs::Pieces::lexeme_text))]
    pub fn name(&mut self, name: &Text) -> Result<(), AllocError>
        ensures { OnOk result (self.new ≡ pages.after self.old (pieces.name name.now)) }
    {
        self.gap(true)?;
        write_name(&mut self.text, name)?;
        self.behind = true;
        Ok(())
    }

    /// An integer, in decimal.
    #[tactic(auto, unfolding(crate::specs::Pages::after, sql_ast::specs::Pieces::lexeme_text))]
    pub fn integer(&mut self, number: u64) -> Result<(), AllocError>
        ensures { OnOk result (self.new ≡ pages.after self.old (pieces.spaced (lexeme.Integer number))) }
    {
        self.gap(true)?;
        let mut buffer = Buffer::new();
        self.text
            .extend_from_slice(buffer.format(number).as_bytes())?;
        self.behind = true;
        Ok(())
    }

    /// A STRING literal.
    #[tactic(auto, unfolding(crate::specs::Pages::after, sql_ast::specs::Pieces::lexeme_text))]
    pub fn text(&mut self, text: &Text) -> Result<(), AllocError>
        ensures { OnOk result (self.new ≡ pages.after self.old (pieces.spaced (lexeme.Text text.now))) }
    {
        self.gap(true)?;
        write_text(&mut self.text, text)?;
        self.behind = true;
        Ok(())
    }

    /// A BYTES literal.
    #[tactic(auto, unfolding(crate::specs::Pages::after, sql_ast::specs::Pieces::lexeme_text))]
    pub fn bytes(&mut self, bytes: &Bytes) -> Result<(), AllocError>
        ensures { OnOk result (self.new ≡ pages.after self.old (pieces.spaced (lexeme.Bytes bytes.now))) }
    {
        self.gap(true)?;
        write_bytes(&mut self.text, bytes.as_slice())?;
        self.behind = true;
        Ok(())
    }

    /// A parameter: `@` and its name.
    #[tactic(auto, unfolding(crate::specs::Pages::after, sql_ast::specs::Pieces::lexeme_text))]
    pub fn parameter(&mut self, name: &Text) -> Result<(), AllocError>
        ensures { OnOk result (self.new ≡ pages.after self.old (pieces.spaced (lexeme.Parameter name.now))) }
    {
        self.gap(true)?;
        self.text.extend_from_slice(b"@")?;
        write_name(&mut self.text, name)?;
        self.behind = true;
        Ok(())
    }

    /// An operator or a mark. No space stands before `)`, `]`, `,` and `.`, and none behind `(`, `[` and `.`.
    pub fn sign(&mut self, sign: Sign) -> Result<(), AllocError>
        ensures { OnOk result (self.new ≡ pages.after self.old (pieces.sign sign)) }
    {
        self.mark(sign, space_before(sign), space_behind(sign))
    }

    /// An operator or a mark with no space before or behind it.
    pub fn close_sign(&mut self, sign: Sign) -> Result<(), AllocError>
        ensures { OnOk result (self.new ≡ pages.after self.old (pieces.close_sign sign)) }
    {
        self.mark(sign, false, false)
    }

    /// An operator or a mark, and whether a space may stand before it and behind it.
    #[tactic(auto, unfolding(crate::specs::Pages::after, sql_ast::specs::Pieces::lexeme_text))]
    pub fn mark(&mut self, sign: Sign, before: bool, behind: bool) -> Result<(), AllocError>
        ensures { OnOk result (self.new ≡ pages.after self.old (record { lexeme = lexeme.Sign sign; before = before; behind = behind })) }
    {
        self.gap(before)?;
        self.text.extend_from_slice(sign_text(sign))?;
        self.behind = behind;
        Ok(())
    }

    /// The space before a token, where one stands there.
    fn gap(&mut self, before: bool) -> Result<(), AllocError>
        ensures { OnOk result (self.new ≡ record { text = self.old.text ++ pages.gap self.old before; behind = self.old.behind }) }
    {
        if self.behind && before {
            self.text.extend_from_slice(b" ")?;
        }
        Ok(())
    }
}

fn space_before(sign: Sign) -> bool
    ensures { result ≡ pieces.space_before sign }
{
    !matches!(
        sign,
        Sign::CloseRound | Sign::CloseSquare | Sign::Comma | Sign::Dot
    )
}

fn space_behind(sign: Sign) -> bool
    ensures { result ≡ pieces.space_behind sign }
{
    !matches!(sign, Sign::OpenRound | Sign::OpenSquare | Sign::Dot)
}
