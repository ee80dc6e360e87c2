//! `yard_bench WHAT THREADS BLOCKS CALLS`: each of 1, 2 or 4 threads makes so many calls of a kind on blocks of one yard: `take` (and leave), `share` (and leave) or `sole`. It prints how many answered what they must not, and no time.
#![tactic(auto)]

ghost use Rattle.std.specs.Prelude.{◌≡◌, ◌≤◌, ℕ, Option, IfSome};
ghost use Rattle.jyard.specs.Yards.{blocks_of, IsHoldOf, IsPassOf};

use anyhow::{Context, bail};
use jyard::{Hold, NoShare, Yard, YardPass};
use std::alloc::Global;
use std::env;
use std::marker::Model;
use std::thread::{Threads, join};

/// The most blocks that a yard can have.
const MOST_BLOCKS: u32 = 65_536;

#[derive(Clone, Copy, Drop)]
enum What {
    Take,
    Share,
    Sole,
}

fn kind_of(word: &str) -> anyhow::Result<What> {
    match word {
        "take" => Ok(What::Take),
        "share" => Ok(What::Share),
        "sole" => Ok(What::Sole),
        _ => bail!("take, share or sole"),
    }
}

/// One thread's hold and pass, with an owner of the yard. It gives its unit back when it is let go of.
struct Worker {
    yard: Yard<u64>,
    pass: YardPass,
    hold: Hold<u64>,
}

impl Model for Worker {
    ghost use Rattle.std.specs.Prelude.{Option, ℕ};
    ghost use Rattle.jyard.specs.Yards.{blocks_of, IsHoldOf, IsPassOf};

    ghost Value = { Option ℕ };

    ghost view = { λ w. w.hold.seat.value };

    ghost invariant = { λ w. IsHoldOf (blocks_of w.yard) w.hold × IsPassOf (blocks_of w.yard) w.pass };
}

impl Drop for Worker {
    fn drop(self) {
        let Self {
            yard,
            mut pass,
            hold,
        } = self;
        let _ = hold.leave(&yard, &mut pass);
        pass.end();
    }
}

// A hold for one more thread: of the same block where blocks are to be shared, and else of another one.
fn one_more(
    yard: &Yard<u64>,
    what: What,
    pass: &mut YardPass,
    hold: &mut Hold<u64>,
) -> Option<Hold<u64>>
    requires { IsPassOf (blocks_of yard.now) pass.old × IsHoldOf (blocks_of yard.now) hold.old }
    ensures { IsPassOf (blocks_of yard.now) pass.new × IsHoldOf (blocks_of yard.now) hold.new × IfSome result (IsHoldOf (blocks_of yard.now)) }
{
    match what {
        What::Share => hold.share(yard).ok(),
        What::Take | What::Sole => yard.take(pass, 0).ok(),
    }
}

impl Worker {
    fn first(alloc: Global, blocks: u32) -> Option<Worker>
        requires { (1 ≤ blocks) × (blocks ≤ 65536) }
    {
        let (yard, mut pass) = Yard::new(alloc, blocks).ok()?;
        match yard.take(&mut pass, 0) {
            Ok(hold) => Some(Worker { yard, pass, hold }),
            Err(_) => {
                pass.end();
                None
            }
        }
    }

    // The pass begins at a block of its own, so that threads seldom meet.
    fn another(&mut self, alloc: Global, what: What, start: u32) -> Option<Worker> {
        let yard = self.yard.again(alloc).ok()?;
        let hold = one_more(&self.yard, what, &mut self.pass, &mut self.hold)?;
        let pass = yard.pass_from(start);
        Some(Worker { yard, pass, hold })
    }

    fn takes(&mut self, value: u64) -> bool {
        match self.yard.take(&mut self.pass, value) {
            Ok(hold) => hold.leave(&self.yard, &mut self.pass) == Some(value),
            Err(_) => false,
        }
    }

    fn shares(&mut self) -> bool {
        match self.hold.share(&self.yard) {
            Ok(again) => again.leave(&self.yard, &mut self.pass).is_none(),
            Err(
                NoShare::Moved {
                    expected: _,
                    found: _,
                },
            ) => true,
            Err(NoShare::Many { count: _ }) => false,
        }
    }

    fn writes(&mut self, value: u64) -> bool {
        match self.hold.sole(&self.yard) {
            Ok(place) => {
                *place = value;
                true
            }
            Err(_) => false,
        }
    }

    fn call(&mut self, what: What, value: u64) -> bool {
        match what {
            What::Take => self.takes(value),
            What::Share => self.shares(),
            What::Sole => self.writes(value),
        }
    }
}

fn work(what: What, calls: u64, mut worker: Worker) -> u64 {
    let mut wrong = 0u64;
    for call in 0..calls {
        if !worker.call(what, call) {
            wrong = wrong.wrapping_add(1);
        }
    }
    wrong
}

fn two<R: Threads + Sync>(rt: &R, what: What, calls: u64, a: Worker, b: Worker) -> u64 {
    let (x, y) = join(rt, || work(what, calls, a), || work(what, calls, b));
    x.wrapping_add(y)
}

fn run<R: Threads + Sync>(
    rt: &R,
    alloc: Global,
    what: What,
    threads: u32,
    blocks: u32,
    calls: u64,
) -> Option<u64>
    requires { (1 ≤ blocks) × (blocks ≤ 65536) }
{
    let mut first = Worker::first(alloc, blocks)?;
    if threads == 1 {
        return Some(work(what, calls, first));
    }
    let second = first.another(alloc, what, blocks / 2)?;
    if threads == 2 {
        return Some(two(rt, what, calls, first, second));
    }
    let third = first.another(alloc, what, blocks / 4)?;
    let fourth = first.another(alloc, what, blocks / 4 * 3)?;
    let (x, y) = join(
        rt,
        || two(rt, what, calls, first, second),
        || two(rt, what, calls, third, fourth),
    );
    Some(x.wrapping_add(y))
}

fn main(rt: HostRuntime) -> anyhow::Result<()> {
    let words: Vec<String> = env::args(&rt)?.collect(rt.alloc())?;
    let [_, kind, threads, blocks, calls] = words.as_slice() else {
        bail!("usage: yard_bench WHAT THREADS BLOCKS CALLS");
    };
    let threads: u32 = match threads.as_str() {
        "1" => 1,
        "2" => 2,
        "4" => 4,
        _ => bail!("1, 2 or 4 threads"),
    };
    let blocks: u32 = blocks
        .as_str()
        .parse()
        .context("a number is decimal digits")?;
    if blocks < 1 || blocks > MOST_BLOCKS {
        bail!("1 to {MOST_BLOCKS} blocks");
    }
    let calls: u64 = calls
        .as_str()
        .parse()
        .context("a number is decimal digits")?;
    let what = kind_of(kind.as_str())?;
    let wrong = run(&rt, rt.alloc(), what, threads, blocks, calls).context("no memory")?;
    println!(rt; "{kind}: {calls} calls on each of {threads} threads, {wrong} wrong")?;
    Ok(())
}
