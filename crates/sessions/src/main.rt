//! Runs the worked sessions of its folder, and tells of each file how many of them print what stands beside them.
#![tactic(auto)]

mod case;
mod session;

use case::Case;
use jsession::Status;
use session::run_case;
use std::rt::Env;
use std::{env, fs, io};

// How many sessions of a file there are, and how many are done and print what they are to.
#[derive(Drop)]
struct Count {
    all: u64,
    right: u64,
}

fn report(rt: &HostRuntime, case: &Case<'_>, got: &[u8]) -> io::Result<()> {
    println!(rt;
        "{}:\n{}\nprints\n{}",
        case.name,
        case.script,
        String::from_utf8_lossy(rt.alloc(), got)?
    )
}

fn run_file(rt: &HostRuntime, text: &str) -> io::Result<Count> {
    let mut count = Count { all: 0, right: 0 };
    for piece in text.split("=== ").skip(1) {
        let case = Case::of(piece);
        let ran = run_case(rt.alloc(), &case)?;
        count.all = count.all.saturating_add(1);
        if ran.status == Status::Done && ran.prints.as_slice() == case.prints.as_bytes() {
            count.right = count.right.saturating_add(1);
        } else {
            report(rt, &case, &ran.prints)?;
        }
    }
    Ok(count)
}

fn main(rt: HostRuntime) -> io::Result<()> {
    for name in env::args(&rt)?.skip(1) {
        let text = fs::read_to_string(&rt, name.as_str())?;
        let count = run_file(&rt, text.as_str())?;
        println!(rt; "{name}: {} of {}", count.right, count.all)?;
    }
    Ok(())
}
