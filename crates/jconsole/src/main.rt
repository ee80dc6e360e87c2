//! `jconsole`: runs a script of J sentences from standard input, and writes its session to standard output.
#![tactic(auto)]

mod outcome;
mod session;
mod top;

use jio::{StdSink, StdSource};
use jsession::Status;
pub use outcome::{Outcome, exit_code, message};
use std::process::ExitCode;
use std::rt::Env;
use std::{env, io};
pub use top::run_solo;

// The words behind the program's name, or why there is no session.
fn words_of(rt: &(impl Env + AllocGlobal)) -> Result<Vec<String>, Status> {
    let args = match env::args(rt) {
        Ok(args) => args,
        Err(error) if error.kind() == io::ErrorKind::OutOfMemory => return Err(Status::NoMemory),
        Err(_) => return Err(Status::Usage),
    };
    let mut words = Vec::new(rt.alloc());
    for word in args.skip(1) {
        if words.push(word).is_err() {
            return Err(Status::NoMemory);
        }
    }
    Ok(words)
}

fn status_of(rt: &HostRuntime) -> Status {
    match words_of(rt) {
        Ok(words) => {
            let mut script = StdSource::new(rt.stdin());
            let mut out = StdSink::new(rt.stdout());
            run_solo(rt.alloc(), &words, &mut script, &mut out).status
        }
        Err(status) => status,
    }
}

fn main(rt: HostRuntime) -> ExitCode {
    let status = status_of(&rt);
    if let Some(words) = message(status) {
        let _ = eprintln!(rt; "jconsole: {words}");
    }
    ExitCode::from(exit_code(status))
}

#[cfg(test)]
mod tests;
