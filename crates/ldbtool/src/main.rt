//! The command line of the database: `get`, `scan` and `export` print what it has, `check` says
//! whether a directory is good, and `dump` prints its entries; `run` answers a script of commands,
//! `import` writes lines, and `compact` merges tables. `ldbtool help VERB` has the rest.
#![tactic(auto)]

mod version;

use crate::version::VERSION;
use std::alloc::AllocGlobal;
use std::io::IsTerminal;
use std::process::ExitCode;
use std::rt::Env;
use std::{env, io};
use tool::{Terminals, refuse_words, start};

fn main(rt: HostRuntime) -> ExitCode {
    let mut faults = rt.stderr();
    let words = match arguments(&rt) {
        Ok(words) => words,
        Err(error) => return ExitCode::from(refuse_words(&mut faults, &error)),
    };
    let mut answers = rt.stdout();
    let input = rt.stdin();
    let terminals = Terminals {
        input: input.is_terminal(),
        faults: faults.is_terminal(),
    };
    ExitCode::from(start(
        &rt,
        words.as_slice(),
        VERSION,
        terminals,
        input,
        &mut answers,
        &mut faults,
    ))
}

fn arguments(rt: &(impl Env + AllocGlobal)) -> io::Result<Vec<String>> {
    Ok(env::args(rt)?.collect(rt.alloc())?)
}
