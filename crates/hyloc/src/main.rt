//! The compiler and its machine as a program. `README.md` says how it is used, `docs/ARCHITECTURE.md` what stands where.
#![tactic(auto)]

mod host;

use host::{HostFiles, HostInput, HostOutput};
use hy_driver::hyloc;
use std::alloc::{AllocError, Global};
use std::process::ExitCode;
use std::{env, io, rt};

// The words after the program's name.
fn command_words<R: rt::Env + AllocGlobal>(rt: &R) -> io::Result<Vec<String>> {
    let mut words = Vec::new(rt.alloc());
    for word in env::args(rt)?.skip(1) {
        words.push(word)?;
    }
    Ok(words)
}

fn main(rt: HostRuntime) -> ExitCode {
    let alloc = rt.alloc();
    let Ok(words) = command_words(&rt) else {
        return ExitCode::from(20);
    };
    let mut input = HostInput::new(rt.stdin());
    let mut out = HostOutput::new(rt.stdout());
    let mut err = HostOutput::new(rt.stderr());
    let mut files = HostFiles::new(rt);
    let report = hyloc(alloc, &words, &mut files, &mut input, &mut out, &mut err);
    ExitCode::from(report.status)
}
