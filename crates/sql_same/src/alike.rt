//! What can be the same, places aside.
ghost use Rattle.std.specs.Prelude.{◌≡◌, ◌↔◌, IsTrue, map, option_map};

use sql_types::{Boxed, Items};

/// A tree or a part of one.
pub trait Alike {
    // It with each place 0, and each name in lower case.
    ghost bare: { Self → Self };

    /// Whether two are the same, places aside, names by `same_name`. It takes no memory, and time in the size of the smaller.
    fn alike(&self, other: &Self) -> bool
        ensures { IsTrue result ↔ (bare self.now ≡ bare other.now) };
}

impl<P: Alike> Alike for Boxed<P> {
    ghost bare = { λ part. P.bare part };

    fn alike(&self, other: &Boxed<P>) -> bool {
        self.get().alike(other.get())
    }
}

impl<P: Alike> Alike for Option<P> {
    ghost bare = { option_map P.bare };

    fn alike(&self, other: &Option<P>) -> bool {
        match self {
            None => other.is_none(),
            Some(part) => match other {
                None => false,
                Some(more) => part.alike(more),
            },
        }
    }
}

/// As many, each alike.
impl<P: Alike> Alike for Items<P> {
    ghost bare = { map P.bare };

    fn alike(&self, other: &Items<P>) -> bool {
        let mut rest = other.as_slice();
        for part in self.as_slice() {
            match rest {
                [] => return false,
                [next, more @ ..] => {
                    if !part.alike(next) {
                        return false;
                    }
                    rest = more;
                }
            }
        }
        rest.is_empty()
    }
}
