//! The files of the host, which are read through `Inputs`.
ghost use Rattle.std.specs.Prelude.{◌≡◌, ℕ, ◌<◌, ◌≤◌, List, [], length, None, Some, IfOk, OnOk, OnErr, IfNone, is_err, true, false, string_bytes};
ghost use Rattle.std.specs.Io.KnownBytes.{ReadConsumes};
ghost use Rattle.gsql_io.specs.Outside.{Rose, count_after};
ghost use Rattle.gsql_io.specs.Host.{untold};

use crate::inputs::{Failed, Inputs};
use std::io::Read;
use std::marker::Model;
use std::{fs, rt};

/// The files of the host, named by their paths. What they hold is not told: this is the trusted edge.
///
/// A call fails exactly where it meets an error of the host, as at a missing file, and the count of faults rises in
/// these calls alone.
#[derive(Drop)]
pub struct HostFiles<R: rt::Files> {
    rt: R,
    file: Option<R::File>,
    begun: Option<String>,
    broken: bool,
    faults: u64,
}

impl<R: rt::Files> Model for HostFiles<R> {
    ghost use Rattle.std.specs.Prelude.{option_map, string_bytes};
    ghost use Rattle.gsql_io.specs.Host.{HostState, left_of};

    ghost Value = { HostState };

    ghost view = { λ host. record {
      begun = option_map string_bytes host.begun;
      broken = host.broken;
      left = left_of host.file;
      faults = host.faults;
    } };
}

impl<R: rt::Files + Drop> HostFiles<R> {
    /// Stands before the host's files. Nothing is begun, nothing is left, and no call failed.
    pub fn new(rt: R) -> HostFiles<R>
        ensures { result ≡ record { begun = None; broken = false; left = Some []; faults = 0 } }
    {
        HostFiles {
            rt,
            file: None,
            begun: None,
            broken: false,
            faults: 0,
        }
    }
}

impl<R: rt::Files + Drop> Inputs for HostFiles<R> {
    ghost use Rattle.gsql_io.specs.Host.{untold};

    ghost begun = { λ host. host.begun };

    ghost broken = { λ host. host.broken };

    ghost content = { λ _ _. untold };

    ghost left = { λ host. host.left };

    ghost faults = { λ host. host.faults };

    fn begin(&mut self, name: String) -> Result<(), Failed>
        ensures begins { self.new.begun ≡ Some (string_bytes name) }
        ensures breaks { self.new.broken ≡ is_err result }

        ensures opened { OnOk result (self.new.left ≡ untold) }
        ensures emptied { OnErr result (self.new.left ≡ Some []) }

        ensures never_falls { self.old.faults ≤ self.new.faults }
        ensures stays { OnOk result (self.new.faults ≡ self.old.faults) }
        ensures rose { OnErr result (Rose self.old.faults self.new.faults) }

        // Beyond what the trait says: the count rises in the calls that fail, and in no others.
        ensures counts { self.new.faults ≡ count_after (is_err result) self.old.faults }
    {
        let opened = fs::open(&self.rt, name.as_str());
        self.begun = Some(name);
        match opened {
            Ok(file) => {
                self.file = Some(file);
                self.broken = false;
                Ok(())
            }
            Err(_) => {
                self.file = None;
                self.broken = true;
                self.faults = self.faults.saturating_add(1);
                Err(Failed)
            }
        }
    }

    fn read(&mut self, buf: &mut [u8]) -> Result<usize, Failed>
        ensures same_begun { self.new.begun ≡ self.old.begun }
        ensures breaks { OnErr result (self.new.broken ≡ true) }
        ensures same_broken { OnOk result (self.new.broken ≡ self.old.broken) }

        ensures bound { IfOk result (λ n. n ≤ length buf.new) }
        ensures moves { ReadConsumes self.old.left self.new.left result buf.new }
        ensures at_end { self.old.left ≡ Some [] → IfOk result (λ n. n ≡ 0) }
        ensures unchanged { self.new.left ≡ self.old.left }

        ensures never_falls { self.old.faults ≤ self.new.faults }
        ensures stays { OnOk result (self.new.faults ≡ self.old.faults) }
        ensures rose { OnErr result (Rose self.old.faults self.new.faults) }

        // Beyond what the trait says: the count rises in the calls that fail, and in no others.
        ensures counts { self.new.faults ≡ count_after (is_err result) self.old.faults }
    {
        match &mut self.file {
            None => Ok(0),
            Some(file) => match file.read(buf) {
                Ok(n) => Ok(n),
                Err(_) => {
                    self.broken = true;
                    self.faults = self.faults.saturating_add(1);
                    Err(Failed)
                }
            },
        }
    }
}
