ghost use Rattle.std.specs.Prelude.{◌≡◌, [], All};
ghost use Rattle.jyard.specs.Yards.{blocks_of, IsHoldOf, IsPassOf};

use crate::{Gathered, Held, Hold, Kept, NoShare, NotShared, Yard, YardPass};
use std::alloc::{AllocFailed, Global};
use std::marker::Model;
use std::process::Abort;
use std::thread::join;

#[test]
fn two_blocks_a_share_and_two_leaves(rt: HostRuntime) {
    let (yard, mut pass) = Yard::new(rt.alloc(), 2).expect(&rt, "memory");
    let mut one = yard.take(&mut pass, 10u64).expect(&rt, "a free block");
    let other = yard.take(&mut pass, 20u64).expect(&rt, "a free block");
    let third = match yard.take(&mut pass, 30u64) {
        Ok(hold) => hold.leave(&yard, &mut pass),
        Err(value) => Some(value),
    };
    assert_eq!(rt; (one.block(), other.block(), third), (0, 1, Some(30)));
    let mut again = one.share(&yard).expect(&rt, "a share");
    assert_eq!(rt;
        (again.block(), *again.items(&yard), *one.items(&yard)),
        (0, 10, 10)
    );
    assert_eq!(rt; again.sole(&yard).err(), Some(Held { count: 2 }));
    assert_eq!(rt; one.leave(&yard, &mut pass), None);
    if let Ok(place) = again.sole(&yard) {
        *place = 11;
    }
    assert_eq!(rt; *again.items(&yard), 11);
    assert_eq!(rt; again.leave(&yard, &mut pass), Some(11));
    let again = yard.take(&mut pass, 40u64).expect(&rt, "a free block");
    assert_eq!(rt;
        (again.block(), again.leave(&yard, &mut pass)),
        (0, Some(40))
    );
    assert_eq!(rt; other.leave(&yard, &mut pass), Some(20));
    pass.end();
}

#[test]
fn two_holds_together_are_counted(rt: HostRuntime) {
    let (yard, mut pass) = Yard::new(rt.alloc(), 1).expect(&rt, "memory");
    let mut one = yard.take(&mut pass, 5u64).expect(&rt, "a free block");
    let other = one.share(&yard).expect(&rt, "a share");
    let both = Gathered::of(one).add(other);
    let mut mine = yard.pass();
    let (count, both) = both.count(&yard, &mut mine);
    let (other, first) = both.part();
    let one = first.only();
    assert_eq!(rt; (count, *one.items(&yard), *other.items(&yard)), (2, 5, 5));
    assert_eq!(rt;
        (one.leave(&yard, &mut pass), other.leave(&yard, &mut pass)),
        (None, Some(5))
    );
    yard.join(pass, mine).end();
}

#[test]
fn kept_holds_give_their_units_back(rt: HostRuntime) {
    let (yard, mut pass) = Yard::new(rt.alloc(), 1).expect(&rt, "memory");
    let owner = yard.again(rt.alloc()).expect(&rt, "memory");
    let hold = yard.take(&mut pass, 7u64).expect(&rt, "a free block");
    let mut one = Kept::of(owner, hold);
    let mut other = one.share(rt.alloc()).expect(&rt, "a share");
    assert_eq!(rt; (*one.items(), *other.items()), (7, 7));
    assert_eq!(rt; other.replace(8), Err((8, Held { count: 2 })));
    drop(one);
    assert_eq!(rt; other.replace(8), Ok(7));
    assert_eq!(rt; *other.items(), 8);
    assert_eq!(rt; other.leave(&mut pass), Some(8));
    let hold = yard.take(&mut pass, 9u64).expect(&rt, "a free block");
    assert_eq!(rt; hold.leave(&yard, &mut pass), Some(9));
    pass.end();
}

// Shares a kept hold and lets the second one go, a thousand times: how often the payload wasn't what was put, or there were too many holds.
fn keeps(alloc: Global, mut kept: Kept<u64>) -> u64 {
    let mut wrong = 0u64;
    for _ in 0..1000 {
        let is_right = match kept.share(alloc) {
            Ok(again) => *again.items() == 7,
            Err(NotShared::NoMemory) => false,
            Err(NotShared::Refused(NoShare::Many { count: _ })) => false,
            Err(
                NotShared::Refused(
                    NoShare::Moved {
                        expected: _,
                        found: _,
                    },
                ),
            ) => true,
        };
        if !is_right {
            wrong = wrong.wrapping_add(1);
        }
    }
    wrong
}

#[test]
fn two_threads_keep_one_block(rt: HostRuntime) {
    let (yard, mut pass) = Yard::new(rt.alloc(), 1).expect(&rt, "memory");
    let owner = yard.again(rt.alloc()).expect(&rt, "memory");
    let hold = yard.take(&mut pass, 7u64).expect(&rt, "a free block");
    let mut one = Kept::of(owner, hold);
    let other = one.share(rt.alloc()).expect(&rt, "a share");
    let wrong = join(&rt, || keeps(rt.alloc(), one), || keeps(rt.alloc(), other));
    assert_eq!(rt; wrong, (0, 0));
    let hold = yard.take(&mut pass, 9u64).expect(&rt, "a free block");
    assert_eq!(rt; hold.leave(&yard, &mut pass), Some(9));
    pass.end();
}

// Takes and leaves, a thousand of each: how many payloads read or given out were not the one that was put.
fn takes(yard: &Yard<u64>, pass: &mut YardPass, from: u64) -> u64
    requires { IsPassOf (blocks_of yard.now) pass.old }
{
    let mut wrong = 0u64;
    for round in 0..1000u64 {
        let value = from.wrapping_add(round);
        if let Ok(hold) = yard.take(pass, value) {
            let seen = *hold.items(yard);
            let given = hold.leave(yard, pass);
            if seen != value || given != Some(value) {
                wrong = wrong.wrapping_add(1);
            }
        }
    }
    wrong
}

#[test]
fn two_threads_take_one_block(rt: HostRuntime) {
    let (yard, mut one) = Yard::new(rt.alloc(), 1).expect(&rt, "memory");
    let mut other = yard.pass();
    let wrong = join(
        &rt,
        || takes(&yard, &mut one, 0),
        || takes(&yard, &mut other, 5000),
    );
    one.end();
    other.end();
    assert_eq!(rt; wrong, (0, 0));
}

// A thread's own hold, which is given back when it is let go of.
struct Worker {
    yard: Yard<u64>,
    pass: YardPass,
    hold: Hold<u64>,
}

impl Model for Worker {
    ghost use Rattle.std.specs.Prelude.{Option, ℕ};
    ghost use Rattle.jyard.specs.Yards.{blocks_of, IsHoldOf};

    ghost Value = { Option ℕ };

    ghost view = { λ w. w.hold.seat.value };

    ghost invariant = { λ w. IsHoldOf (blocks_of w.yard) w.hold };
}

impl Drop for Worker {
    fn drop(self) {
        let Self {
            yard,
            mut pass,
            hold,
        } = self;
        let _ = hold.leave(&yard, &mut pass);
        pass.end();
    }
}

impl Worker {
    fn new(yard: Yard<u64>, hold: Hold<u64>) -> Worker
        requires { IsHoldOf (blocks_of yard) hold }
    {
        let pass = yard.pass();
        Worker { yard, pass, hold }
    }

    // Shares and leaves: whether that gave the payload out, or found too many holds.
    fn is_wrong(&mut self) -> bool {
        match self.hold.share(&self.yard) {
            Ok(again) => again.leave(&self.yard, &mut self.pass).is_some(),
            Err(NoShare::Many { count: _ }) => true,
            Err(
                NoShare::Moved {
                    expected: _,
                    found: _,
                },
            ) => false,
        }
    }

    fn reads(&self) -> u64 {
        *self.hold.items(&self.yard)
    }
}

fn shares(mut worker: Worker) -> u64 {
    let mut wrong = 0u64;
    for _ in 0..10_000 {
        if worker.is_wrong() {
            wrong = wrong.wrapping_add(1);
        }
    }
    wrong
}

fn reads(worker: Worker) -> u64 {
    let mut wrong = 0u64;
    for _ in 0..10_000 {
        if worker.reads() != 7 {
            wrong = wrong.wrapping_add(1);
        }
    }
    wrong
}

fn one_more(rt: &impl Abort, alloc: Global, yard: &Yard<u64>, hold: &mut Hold<u64>) -> Worker
    requires { IsHoldOf (blocks_of yard.now) hold.old }
    ensures { IsHoldOf (blocks_of yard.now) hold.new }
{
    let theirs = yard.again(alloc).expect(rt, "memory");
    Worker::new(theirs, hold.share(yard).expect(rt, "a share"))
}

#[test]
fn four_threads_share_what_one_reads(rt: HostRuntime) {
    let (yard, mut pass) = Yard::new(rt.alloc(), 1).expect(&rt, "memory");
    let mut hold = yard.take(&mut pass, 7).expect(&rt, "a free block");
    let a = one_more(&rt, rt.alloc(), &yard, &mut hold);
    let b = one_more(&rt, rt.alloc(), &yard, &mut hold);
    let c = one_more(&rt, rt.alloc(), &yard, &mut hold);
    let d = one_more(&rt, rt.alloc(), &yard, &mut hold);
    let e = one_more(&rt, rt.alloc(), &yard, &mut hold);
    let wrong = join(
        &rt,
        || join(&rt, || shares(a), || shares(b)),
        || join(&rt, || join(&rt, || shares(c), || shares(d)), || reads(e)),
    );
    assert_eq!(rt; wrong, ((0, 0), ((0, 0), 0)));
    assert_eq!(rt; hold.leave(&yard, &mut pass), Some(7));
    pass.end();
}

// Every block of a yard, with its own number as payload, and then a value too many.
fn fill(rt: &impl Abort, yard: &Yard<u64>, pass: &mut YardPass, holds: &mut Vec<Hold<u64>>) -> u64
    requires { IsPassOf (blocks_of yard.now) pass.old × (holds.old.items ≡ []) }
    ensures { IsPassOf (blocks_of yard.now) pass.new × All (IsHoldOf (blocks_of yard.now)) holds.new.items }
{
    for number in 0..65536u64 {
        let hold = yard.take(pass, number).expect(rt, "a free block");
        if let Err(failed) = holds.push(hold) {
            let AllocFailed { value } = failed;
            let _ = value.leave(yard, pass);
            return 0;
        }
    }
    match yard.take(pass, 7) {
        Ok(hold) => hold.leave(yard, pass).unwrap_or(0),
        Err(value) => value,
    }
}

// How many holds didn't give out what was put.
fn empty(yard: &Yard<u64>, pass: &mut YardPass, mut holds: Vec<Hold<u64>>) -> usize
    requires { IsPassOf (blocks_of yard.now) pass.old × All (IsHoldOf (blocks_of yard.now)) holds.items }
    ensures { IsPassOf (blocks_of yard.now) pass.new }
{
    let mut wrong = 0usize;
    while let Some(hold) = holds.pop() {
        let number = hold.block() as u64;
        if hold.leave(yard, pass) != Some(number) {
            wrong = wrong.wrapping_add(1);
        }
    }
    holds.destroy_empty();
    wrong
}

#[test]
fn a_yard_of_65536_blocks(rt: HostRuntime) {
    let (yard, mut pass) = Yard::new(rt.alloc(), 65536).expect(&rt, "memory");
    let mut holds = Vec::new(rt.alloc());
    assert_eq!(rt; fill(&rt, &yard, &mut pass, &mut holds), 7);
    assert_eq!(rt; holds.len(), 65536);
    assert_eq!(rt; empty(&yard, &mut pass, holds), 0);
    let again = yard.again(rt.alloc()).expect(&rt, "memory");
    let hold = again.take(&mut pass, 1).expect(&rt, "a free block");
    assert_eq!(rt; (hold.block(), hold.leave(&yard, &mut pass)), (0, Some(1)));
    pass.end();
}
