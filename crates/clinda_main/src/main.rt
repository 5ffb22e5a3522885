//! The program: it hands its arguments and the standard streams to the top call, and ends with that call's status.
#![tactic(auto)]

use cl_outside::{ReaderSource, WriterSink};
use clinda::run;
use std::io::{ErrorKind, IsTerminal};
use std::process::ExitCode;
use std::{env, io};

// The arguments, the program's name first.
fn arguments(rt: &HostRuntime) -> io::Result<Vec<String>> {
    let arguments = env::args(rt)?.collect(rt.alloc())?;
    Ok(arguments)
}

// What a person at a terminal is told who asks for nothing.
const COMMANDS: &str = "commands: seq SEED [steps=N], print; each reads a source on standard input";

// Tells the commands on the error stream where nothing is asked for and standard input is a terminal. What can't be
// told there is lost.
fn tell_commands(rt: &HostRuntime, arguments: &[String]) {
    if arguments.len() <= 1 && rt.reader().is_terminal() {
        let _told = rt.eprintln(COMMANDS);
    }
}

fn main(rt: HostRuntime) -> ExitCode {
    let arguments = match arguments(&rt) {
        Ok(arguments) => arguments,
        Err(error) if error.kind() == ErrorKind::OutOfMemory => return ExitCode::from(8),
        // Arguments that aren't text spell no command.
        Err(_) => Vec::new(rt.alloc()),
    };
    tell_commands(&rt, arguments.as_slice());
    let mut src = ReaderSource::new(rt.reader());
    let mut out = WriterSink::new(io::writer(&rt));
    run(rt.alloc(), arguments.as_slice(), &mut src, &mut out)
}
