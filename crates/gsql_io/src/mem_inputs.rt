//! Files in memory, which are read through `Inputs`.
ghost use Rattle.std.specs.Prelude.{◌≡◌, ℕ, ◌<◌, ◌≤◌, ◌↔◌, [], length, min, Some, None, Contains, IsTrue, IsErr, is_err, IfOk, OnOk, OnErr, true, false, string_bytes};
ghost use Rattle.std.specs.Io.KnownBytes.{ReadConsumes};
ghost use Rattle.gsql_io.specs.Outside.{Rose, next_number, count_after};
ghost use Rattle.gsql_io.specs.Files.{bytes_of};
ghost use Rattle.gsql_io.specs.Memory.{BeginFails};

use crate::calls::{Calls, counts_call};
use crate::files::{Files, copy_from_file, find_file};
use crate::inputs::{Failed, Inputs};
use std::marker::Model;

/// Files in memory. It tells all that `Inputs` speaks of.
///
/// The calls of `begin` and `read` are counted together, from 0. Those whose numbers were given fail, and so does
/// `begin` with a name that no file has. No other call fails.
#[derive(Debug, Drop)]
pub struct MemInputs {
    files: Files,
    fail_at: Calls,
    calls: u64,
    begun: Option<String>,
    broken: bool,
    opened: Option<usize>,
    place: usize,
    faults: u64,
}

impl Model for MemInputs {
    ghost use Rattle.std.specs.Prelude.{option_map, string_bytes};
    ghost use Rattle.gsql_io.specs.Files.{unread};
    ghost use Rattle.gsql_io.specs.Memory.{MemoryFiles};

    ghost Value = { MemoryFiles };

    ghost view = { λ inputs. record {
      files = inputs.files;
      fail_at = inputs.fail_at;
      calls = inputs.calls;
      begun = option_map string_bytes inputs.begun;
      broken = inputs.broken;
      left = unread inputs.files inputs.opened inputs.place;
      faults = inputs.faults;
    } };
}

impl MemInputs {
    /// Holds the files. Nothing is begun, nothing is left, and no call was made or failed.
    pub fn new(files: Files, fail_at: Calls) -> MemInputs
        ensures { result ≡ record {
          files = files;
          fail_at = fail_at;
          calls = 0;
          begun = None;
          broken = false;
          left = [];
          faults = 0;
        } }
    {
        MemInputs {
            files,
            fail_at,
            calls: 0,
            begun: None,
            broken: false,
            opened: None,
            place: 0,
            faults: 0,
        }
    }
}

impl Inputs for MemInputs {
    ghost use Rattle.std.specs.Prelude.{Some};
    ghost use Rattle.gsql_io.specs.Files.{bytes_of};

    ghost begun = { λ inputs. inputs.begun };

    ghost broken = { λ inputs. inputs.broken };

    ghost content = { λ inputs. bytes_of inputs.files };

    ghost left = { λ inputs. Some inputs.left };

    ghost faults = { λ inputs. inputs.faults };

    fn begin(&mut self, name: String) -> Result<(), Failed>
        ensures begins { self.new.begun ≡ Some (string_bytes name) }
        ensures breaks { self.new.broken ≡ is_err result }

        ensures opened { OnOk result (Some self.new.left ≡ bytes_of self.old.files (string_bytes name)) }
        ensures emptied { OnErr result (self.new.left ≡ []) }

        ensures never_falls { self.old.faults ≤ self.new.faults }
        ensures stays { OnOk result (self.new.faults ≡ self.old.faults) }
        ensures rose { OnErr result (Rose self.old.faults self.new.faults) }

        // Beyond what the trait says: it fails in these cases, and in no others.
        ensures fails { IsErr result ↔ BeginFails self.old (string_bytes name) }
        ensures counts { self.new.faults ≡ count_after (is_err result) self.old.faults }
        ensures numbers { self.new.calls ≡ next_number self.old.calls }
        ensures same_files { self.new.files ≡ self.old.files }
        ensures same_fail_at { self.new.fail_at ≡ self.old.fail_at }
    {
        let failing = counts_call(&mut self.calls, &self.fail_at);
        self.opened = if failing {
            None
        } else {
            find_file(&self.files, name.as_str())
        };
        self.begun = Some(name);
        self.place = 0;
        self.broken = self.opened.is_none();
        if self.broken {
            self.faults = self.faults.saturating_add(1);
            return Err(Failed);
        }
        Ok(())
    }

    fn read(&mut self, buf: &mut [u8]) -> Result<usize, Failed>
        ensures same_begun { self.new.begun ≡ self.old.begun }
        ensures breaks { OnErr result (self.new.broken ≡ true) }
        ensures same_broken { OnOk result (self.new.broken ≡ self.old.broken) }

        ensures bound { IfOk result (λ n. n ≤ length buf.new) }
        ensures moves { ReadConsumes (Some self.old.left) (Some self.new.left) result buf.new }
        ensures at_end { Some self.old.left ≡ Some [] → IfOk result (λ n. n ≡ 0) }
        ensures unchanged { OnErr result (self.new.left ≡ self.old.left) }

        ensures never_falls { self.old.faults ≤ self.new.faults }
        ensures stays { OnOk result (self.new.faults ≡ self.old.faults) }
        ensures rose { OnErr result (Rose self.old.faults self.new.faults) }

        // Beyond what the trait says: it fails at the numbers that were given and at no others, and else reads as much
        // as there is room for.
        ensures takes { IfOk result (λ n. n ≡ min (length buf.old) (length self.old.left)) }
        ensures fails { IsErr result ↔ Contains self.old.fail_at self.old.calls }
        ensures counts { self.new.faults ≡ count_after (is_err result) self.old.faults }
        ensures numbers { self.new.calls ≡ next_number self.old.calls }
        ensures same_files { self.new.files ≡ self.old.files }
        ensures same_fail_at { self.new.fail_at ≡ self.old.fail_at }
    {
        if counts_call(&mut self.calls, &self.fail_at) {
            self.broken = true;
            self.faults = self.faults.saturating_add(1);
            return Err(Failed);
        }
        let n = match self.opened {
            None => 0,
            Some(index) => copy_from_file(&self.files, index, self.place, buf),
        };
        self.place += n;
        Ok(n)
    }
}
