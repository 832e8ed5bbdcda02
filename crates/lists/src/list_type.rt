//! The words that all list types share.
ghost use Rattle.std.specs.Prelude.{◌≡◌, ◌<◌, List, [], length, slice_get, Some};

use sqlite_items::Items;
use std::alloc::Global;

/// A list type: small types over a vector, which contracts see as lists.
/// `push`, `len` and `as_slice` are those of `Items`.
pub trait ListType<T>: Sized {
    // The elements in order.
    ghost elements: { Self → List T };

    /// The empty list. It takes no memory.
    fn start(alloc: Global) -> Self
        ensures { elements result ≡ [] };

    /// The element at an index below the length, from 0.
    fn at(&self, index: usize) -> &T
        requires { index < length (elements self.now) }
        ensures { slice_get (elements self.now) index ≡ Some result.now };
}

impl<T> ListType<T> for Items<T> {
    ghost elements = { λ list. list };

    fn start(alloc: Global) -> Items<T>
        ensures { result ≡ [] }
    {
        Items::new(alloc)
    }

    fn at(&self, index: usize) -> &T
        requires { index < length self.now }
        ensures { slice_get self.now index ≡ Some result.now }
    {
        &self.as_slice()[index]
    }
}
