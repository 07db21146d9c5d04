//! The program `wcet`: its words come from the command line, its files from the system, and its text goes to standard
//! output.
#![tactic(auto)]

use std::process::ExitCode;
use std::{env, io};
use wcet_cli::wcet;
use wcet_front::say_memory;
use wx_base::{HostSink, HostStore};

fn main(rt: HostRuntime) -> ExitCode {
    let status = match words(&rt) {
        Ok(words) => run(&rt, words.as_slice()),
        Err(error) if error.kind() == io::ErrorKind::OutOfMemory => say_memory(&mut HostSink::new(
            &rt,
        )),
        // A word that is no text fits no form, and neither do no words.
        Err(_) => run(&rt, &[]),
    };
    ExitCode::from(status)
}

/// The status of the command that the words are, over the system's files and standard output.
fn run(rt: &HostRuntime, words: &[String]) -> u8 {
    let mut store = HostStore::new(rt);
    let mut sink = HostSink::new(rt);
    wcet(rt.alloc(), words, &mut store, &mut sink)
}

/// The words of the command line, without the program's name.
fn words(rt: &HostRuntime) -> io::Result<Vec<String>> {
    let mut words = Vec::new(rt.alloc());
    for word in env::args(rt)?.skip(1) {
        words.push(word)?;
    }
    Ok(words)
}
