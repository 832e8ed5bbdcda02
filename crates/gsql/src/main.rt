//! The program: analyses a query and runs it over CSV tables.
#![tactic(auto)]

mod arguments;
mod report;
mod run;
mod stages;
mod status;
mod stop;
#[cfg(test)]
mod tests;

use gsql_io::{HostFiles, HostOut};
use run::run_gsql;
use status::{Status, UsageKind};
use std::alloc::Global;
use std::process::ExitCode;
use std::rt::Env;
use std::{env, io};

// The words behind the program's name.
fn words(rt: &(impl Env + Alloc<A = Global>)) -> io::Result<Vec<String>> {
    let mut all = Vec::new(rt.alloc());
    for word in env::args(rt)?.skip(1) {
        all.push(word)?;
    }
    Ok(all)
}

// Words that can't be read are refused like other words, where memory didn't fail.
fn unread_words(error: &io::Error) -> Status {
    if error.kind() == io::ErrorKind::OutOfMemory {
        Status::OutOfMemory
    } else {
        Status::Usage {
            kind: UsageKind::Words,
        }
    }
}

fn main(rt: HostRuntime) -> ExitCode {
    let alloc = rt.alloc();
    let mut out = HostOut::new(rt.stdout());
    let mut err = HostOut::new(rt.stderr());
    match words(&rt) {
        Ok(words) => {
            let mut inputs = HostFiles::new(rt);
            let status = run_gsql(alloc, words.as_slice(), &mut inputs, &mut out, &mut err);
            ExitCode::from(status.exit_code())
        }
        Err(error) => ExitCode::from(unread_words(&error).exit_code()),
    }
}
