//! The program `a2`: assembles and runs sources, and answers Monitor and debugger scripts.
#![tactic(auto)]

mod program;
mod words;

use a2_host::{HostFiles, arguments_of};
use a2_stream::{FromRead, ToWrite};
use program::{obey, refuse_words};
use std::process::ExitCode;
use words::WordsFault;

fn main(rt: HostRuntime) -> ExitCode {
    let mut output = ToWrite::new(rt.stdout());
    let mut complaints = ToWrite::new(rt.stderr());
    let status = match arguments_of(&rt) {
        Ok(words) => obey(
            rt.alloc(),
            words.as_slice(),
            &mut HostFiles::new(&rt),
            &mut FromRead::new(rt.stdin()),
            &mut output,
            &mut complaints,
        ),
        Err(fault) => refuse_words(WordsFault::from(fault), &mut complaints),
    };
    ExitCode::from(status)
}
