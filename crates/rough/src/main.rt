//! Reads a script on standard input, runs it and writes its answers to standard output.
#![tactic(auto)]

use rough_io::{StdSink, StdSource};
use rough_main::{Status, Through, rough};
use std::process::ExitCode;
use std::rt::Env;
use std::{env, io};

/// The words of the command line, without the program's name.
fn command_line(rt: &(impl Env + AllocGlobal)) -> io::Result<Vec<String>> {
    match env::args(rt) {
        Ok(words) => Ok(words.skip(1).collect(rt.alloc())?),
        Err(error) if error.kind() == io::ErrorKind::OutOfMemory => Err(error),
        // A word that isn't text is a wrong word, as the empty word is.
        Err(_) => Ok(vec![in rt.alloc(); String::new(rt.alloc())]?),
    }
}

fn main(rt: HostRuntime) -> ExitCode {
    let Ok(words) = command_line(&rt) else {
        return ExitCode::from(Status::NoMemory.code());
    };
    let mut source = StdSource::new(rt.stdin());
    let mut sink = StdSink::new(rt.stdout());
    ExitCode::from(rough(&rt, rt.alloc(), &words, &mut source, &mut sink, &Through))
}
