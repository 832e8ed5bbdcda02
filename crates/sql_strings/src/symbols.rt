//! Texts that are read symbol by symbol.
ghost use Rattle.std.specs.Prelude.{◌≡◌, ℕ, List, [], ◌∷◌, MatchOption};
ghost use Rattle.std.specs.Str.{chars};

use crate::characters::first_character;

/// A text that is read symbol by symbol.
pub(crate) trait Symbols: Copy {
    // The symbols in order.
    ghost symbols: { Self → List ℕ };

    /// The first symbol, and the text behind it.
    fn first(self) -> Option<(u32, Self)>
        ensures { MatchOption result (symbols self ≡ []) (λ r. symbols self ≡ r.0 ∷ symbols r.1) };
}

/// By characters.
impl<'a> Symbols for &'a str {
    ghost symbols = { λ text. chars text.now };

    fn first(self) -> Option<(u32, &'a str)> {
        match first_character(self) {
            Some((character, behind)) => Some((character as u32, behind)),
            None => None,
        }
    }
}

/// By bytes.
impl<'a> Symbols for &'a [u8] {
    ghost symbols = { λ bytes. bytes.now };

    fn first(self) -> Option<(u32, &'a [u8])> {
        match self.split_first() {
            Some((byte, behind)) => Some((*byte as u32, behind)),
            None => None,
        }
    }
}
