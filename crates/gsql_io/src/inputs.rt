//! Named files that are read from front to back.
ghost use Rattle.std.specs.Prelude.{◌≡◌, ℕ, ◌<◌, ◌≤◌, List, [], Bool, true, Option, Some, None, length, is_err, IfOk, OnOk, OnErr, IfNone, string_bytes};
ghost use Rattle.std.specs.Io.KnownBytes.{ReadConsumes};
ghost use Rattle.gsql_io.specs.Outside.{Rose};

/// A call of the outside failed. Each object counts the calls that it fails, and its contracts say that this answer
/// comes only where the count rose, or stands at the counter's last value: no function can answer it without a cause.
#[derive(Clone, Copy, Debug, PartialEq, Eq)]
pub struct Failed;

/// Named files that are read from front to back, one at a time.
///
/// Contracts speak of five things that such an object has: the name that was begun last, whether that file is broken,
/// what each file holds, what is left of the file that was begun last, and a count of the calls that failed. What files
/// hold, and what is left, may not be told: `None` says so. Before the first `begin` nothing is begun and nothing is left.
pub trait Inputs {
    // The name that was handed to the last `begin`. `None` before the first.
    ghost begun: { Self → Option (List ℕ) };

    // The last `begin`, or a `read` after it, failed.
    ghost broken: { Self → Bool };

    // What the file of a name holds. `None` where that is not told, and where there is no such file.
    ghost content: { Self → List ℕ → Option (List ℕ) };

    // What is unread of the file that was begun last. `None` where that is not told.
    ghost left: { Self → Option (List ℕ) };

    // How many calls failed, up to the counter's last value, 2^64 - 1.
    ghost faults: { Self → ℕ };

    /// Begins the file of a name, which the object keeps: all that the file holds is now left.
    ///
    /// `Failed` comes only where the count of faults rose in this call. Then nothing is left. A file that is missing is
    /// `Failed`. It takes no memory.
    fn begin(&mut self, name: String) -> Result<(), Failed>
        ensures begins { begun self.new ≡ Some (string_bytes name) }
        ensures breaks { broken self.new ≡ is_err result }
        ensures same_content { content self.new ≡ content self.old }

        ensures opened { OnOk result (left self.new ≡ content self.old (string_bytes name)) }
        ensures emptied { OnErr result (left self.new ≡ Some []) }

        ensures never_falls { faults self.old ≤ faults self.new }
        ensures stays { OnOk result (faults self.new ≡ faults self.old) }
        ensures rose { OnErr result (Rose (faults self.old) (faults self.new)) };

    /// Moves the first bytes that are left to the front of the buffer, and tells how many. These are at most as many as
    /// the buffer has, and 0 exactly where the buffer is empty or nothing is left.
    ///
    /// `Failed` comes only where the count of faults rose in this call. Then the file is broken, and what was left still
    /// is. It takes no memory.
    fn read(&mut self, buf: &mut [u8]) -> Result<usize, Failed>
        ensures same_begun { begun self.new ≡ begun self.old }
        ensures breaks { OnErr result (broken self.new ≡ true) }
        ensures same_broken { OnOk result (broken self.new ≡ broken self.old) }
        ensures same_content { content self.new ≡ content self.old }

        // Nothing is read only where the buffer is empty or nothing is left, and where nothing is left nothing is read.
        ensures bound { IfOk result (λ n. n ≤ length buf.new) }
        ensures moves { ReadConsumes (left self.old) (left self.new) result buf.new }
        ensures at_end { left self.old ≡ Some [] → IfOk result (λ n. n ≡ 0) }
        ensures unchanged { OnErr result (left self.new ≡ left self.old) }
        ensures untold { IfNone (left self.old) (left self.new ≡ None) }

        ensures never_falls { faults self.old ≤ faults self.new }
        ensures stays { OnOk result (faults self.new ≡ faults self.old) }
        ensures rose { OnErr result (Rose (faults self.old) (faults self.new)) };
}
