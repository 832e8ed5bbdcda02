//! What takes bytes.
ghost use Rattle.std.specs.Prelude.{◌≡◌, ℕ, ◌<◌, ◌≤◌, List, Option, None, length, IfOk, OnOk, OnErr, IfNone};
ghost use Rattle.std.specs.Io.KnownBytes.{WriteAppends};
ghost use Rattle.gsql_io.specs.Outside.{Rose};

use crate::inputs::Failed;

/// What takes bytes, one piece after the other.
///
/// Contracts speak of two things that such an object has: the bytes that were written so far, which may not be told
/// (`None` says so), and a count of the calls that failed.
pub trait Sink {
    // The bytes that were written so far. `None` where they are not told.
    ghost written: { Self → Option (List ℕ) };

    // How many calls failed, up to the counter's last value, 2^64 - 1.
    ghost faults: { Self → ℕ };

    /// Appends the first bytes of the piece to what was written, and tells how many: at most as many as the piece has,
    /// and at least 1 of a piece that is not empty.
    ///
    /// `Failed` comes only where the count of faults rose in this call. Then nothing was written. It takes no memory.
    fn write(&mut self, piece: &[u8]) -> Result<usize, Failed>
        ensures bound { IfOk result (λ n. n ≤ length piece.now) }
        ensures some { IfOk result (λ n. 0 < length piece.now → 0 < n) }
        ensures appends { WriteAppends (written self.old) (written self.new) result piece.now }
        ensures unchanged { OnErr result (written self.new ≡ written self.old) }
        ensures untold { IfNone (written self.old) (written self.new ≡ None) }

        ensures never_falls { faults self.old ≤ faults self.new }
        ensures stays { OnOk result (faults self.new ≡ faults self.old) }
        ensures rose { OnErr result (Rose (faults self.old) (faults self.new)) };
}
