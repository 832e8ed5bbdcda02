//! Lists of tokens, and the answer of the lexer.
ghost use Rattle.std.specs.Prelude.{◌≡◌, ◌<◌, [], ◌∷◌, ◌++◌, length, slice_get, Some, OnOk, OnErr};

use sql_ast::Token;
use sql_types::{Items, ListType, OutOfMemory};
use std::alloc::{AllocError, Global};

/// The tokens of a text in order, and beside them the length of the text in bytes, which is their end.
#[derive(Debug, Drop)]
pub struct Tokens {
    list: Items<Token>,
    end: u64,
}

impl Tokens {
    /// No tokens, with the end 0. It takes no memory.
    pub fn start(alloc: Global) -> Tokens
        ensures list { result.list ≡ [] }
        ensures end { result.end ≡ 0 }
    {
        Tokens::with_end(Items::start(alloc), 0)
    }

    /// These tokens of a text of this length.
    pub(crate) fn with_end(list: Items<Token>, end: u64) -> Tokens
        ensures list { result.list ≡ list }
        ensures end { result.end ≡ end }
    {
        Tokens { list, end }
    }

    /// Puts a token behind the others. The end stays. Without memory the tokens are as before.
    pub fn push(&mut self, token: Token) -> Result<(), OutOfMemory>
        ensures ok { OnOk result (self.new.list ≡ self.old.list ++ token ∷ []) }
        ensures err { OnErr result (self.new.list ≡ self.old.list) }
        ensures end { self.new.end ≡ self.old.end }
    {
        self.list.push(token)
    }

    /// How many tokens there are.
    pub fn len(&self) -> usize
        ensures { result ≡ length self.now.list }
    {
        self.list.len()
    }

    /// The token at an index below the length, from 0.
    pub fn at(&self, index: usize) -> &Token
        requires { index < length self.now.list }
        ensures { slice_get self.now.list index ≡ Some result.now }
    {
        self.list.at(index)
    }

    /// The tokens as a slice.
    pub fn as_slice(&self) -> &[Token]
        ensures { result.now ≡ self.now.list }
    {
        self.list.as_slice()
    }

    /// The length of the text in bytes.
    pub fn end(&self) -> u64
        ensures { result ≡ self.now.end }
    {
        self.end
    }
}

/// Why a text has no tokens.
#[derive(Clone, Copy, Debug, PartialEq, Eq)]
pub enum LexFault {
    /// The token or comment whose first byte stands at this place, from 0, can't be read.
    At { place: u64 },
    OutOfMemory,
}

impl From<AllocError> for LexFault {
    ghost use Rattle.std.specs.Prelude.{◌≡◌};
    ghost use Rattle.sql_lexer.specs.declared.tokens.LexFault.TheVariants.{OutOfMemory};

    ghost from_gives = { λ _ e. e ≡ OutOfMemory };

    fn from(_: AllocError) -> LexFault {
        LexFault::OutOfMemory
    }
}
