//! `turn_bench THREADS TURNS`: so many threads take so many turns at one counter, and each turn adds 1. It prints what the counter then has, and no time.
#![tactic(auto)]

ghost use Rattle.std.specs.Prelude.{◌≤◌, IfOk};

use anyhow::{Context, bail};
use jcount::pooled;
use std::env;

// The most threads and turns that it takes.
const MOST_THREADS: u32 = 64;

const MOST_TURNS: u32 = 100_000_000;

fn number(word: &str, most: u32) -> anyhow::Result<u32>
    ensures { IfOk result (λ n. n ≤ most) }
{
    let number: u32 = word.parse().context("a number is decimal digits")?;
    if number > most {
        bail!("a number is at most {most}");
    }
    Ok(number)
}

fn main(rt: HostRuntime) -> anyhow::Result<()> {
    let words: Vec<String> = env::args(&rt)?.collect(rt.alloc())?;
    let [_, threads, turns] = words.as_slice() else {
        bail!("usage: turn_bench THREADS TURNS");
    };
    let threads = number(threads.as_str(), MOST_THREADS)?;
    let turns = number(turns.as_str(), MOST_TURNS)?;
    let ones = vec![in rt.alloc(); 1u32; turns as usize]?;
    let count = pooled(&rt, rt.alloc(), threads, ones.as_slice())?;
    println!(rt; "{threads} threads of {turns} turns: {count}")?;
    Ok(())
}
