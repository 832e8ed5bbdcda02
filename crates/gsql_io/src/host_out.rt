//! A writer of the host, which is written through `Sink`.
ghost use Rattle.std.specs.Prelude.{◌≡◌, ℕ, ◌<◌, ◌≤◌, length, IfOk, OnOk, OnErr, is_err};
ghost use Rattle.gsql_io.specs.Outside.{Rose, count_after};

use crate::inputs::Failed;
use crate::sink::Sink;
use std::io::Write;
use std::marker::Model;

/// A writer of the host, as its standard output, its standard error or a file. Contracts see it as its count of faults.
/// What was written is not told: this is the trusted edge.
///
/// A call fails exactly where it meets an error of the host, and where the host took nothing of a piece that is not
/// empty. The count of faults rises in these calls alone.
#[derive(Drop)]
pub struct HostOut<W: Write> {
    to: W,
    faults: u64,
}

impl<W: Write> Model for HostOut<W> {
    ghost use Rattle.std.specs.Prelude.{ℕ};

    ghost Value = { ℕ };

    ghost view = { λ host. host.faults };
}

impl<W: Write> HostOut<W> {
    /// Writes to `to`. No call failed.
    pub fn new(to: W) -> HostOut<W>
        ensures { result ≡ 0 }
    {
        HostOut { to, faults: 0 }
    }
}

impl<W: Write> Sink for HostOut<W> {
    ghost use Rattle.gsql_io.specs.Host.{untold};

    ghost written = { λ _. untold };

    ghost faults = { λ faults. faults };

    fn write(&mut self, piece: &[u8]) -> Result<usize, Failed>
        ensures bound { IfOk result (λ n. n ≤ length piece.now) }
        ensures some { IfOk result (λ n. 0 < length piece.now → 0 < n) }

        ensures never_falls { self.old ≤ self.new }
        ensures stays { OnOk result (self.new ≡ self.old) }
        ensures rose { OnErr result (Rose self.old self.new) }

        // Beyond what the trait says: the count rises in the calls that fail, and in no others.
        ensures counts { self.new ≡ count_after (is_err result) self.old }
    {
        match self.to.write(piece) {
            Ok(n) if n > 0 || piece.is_empty() => Ok(n),
            _ => {
                self.faults = self.faults.saturating_add(1);
                Err(Failed)
            }
        }
    }
}
