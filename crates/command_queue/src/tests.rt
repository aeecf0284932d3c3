//! A line on one thread, step by step, and with four threads that send.

ghost use Rattle.std.specs.Prelude.{◌≡◌, ◌<◌, ◌≤◌, length};
ghost use Rattle.command_queue.specs.Ends.{AreEnds};

use crate::{Full, Line, Rest, SendEnd, TakeEnd};
use command_set::{Command, Entry};
use std::sync::Wait;
use std::test::*;
use std::thread;
use std::thread::Threads;

// Sends by the end k, if its quota allows it.
fn send_at<R: Wait>(
    rt: &R,
    line: &Line,
    ends: &mut [SendEnd],
    k: usize,
    slot: u8,
) -> Option<Result<u32, Full>>
    requires ends { AreEnds line.now ends.old × (k < length ends.old) }
    requires slot { slot ≤ 31 }
    ensures { AreEnds line.now ends.new }
{
    let end = &mut ends[k];
    if end.count() < end.quota() {
        Some(line.send(rt, end, 0, Command::Store { slot }))
    } else {
        None
    }
}

#[test]
fn one_place(rt: HostRuntime) -> Result<(), Fail> {
    let (line, mut taker, mut ends) = Line::new(rt.alloc(), 1, &[4])?;
    assert_eq!(rt; (line.places(), taker.total()), (1, 4));
    assert_eq!(rt;
        (ends[0].number(), ends[0].quota(), ends[0].others()),
        (0, 4, 0)
    );
    let sent = send_at(&rt, &line, ends.as_mut_slice(), 0, 7);
    assert!(rt; matches!(sent, Some(Ok(0))));
    assert!(rt; !ends[0].was_refused());
    let full = send_at(&rt, &line, ends.as_mut_slice(), 0, 8);
    assert!(rt;
        matches!(
            full,
            Some(Err(Full {
                command: Command::Store { slot: 8 }
            }))
        )
    );
    assert!(rt; ends[0].was_refused());
    assert_eq!(rt; ends[0].count(), 1);
    let first = line.take(&rt, &mut taker).ok_or("nothing")?;
    assert_eq!(rt; (first.script, first.seq, first.sent_at), (0, 0, 0));
    assert!(rt; matches!(first.command, Command::Store { slot: 7 }));
    assert!(rt; line.take(&rt, &mut taker).is_none());
    let mut rest = line.finish(&rt, taker, ends);
    assert!(rt; rest.next(&rt).is_none());
    Ok(())
}

// Sends up to this count, and tries again where the line is full.
fn fill<R: Wait>(rt: &R, line: &Line, end: &mut SendEnd, count: u32)
    requires line { end.old.line ≡ line.now }
    ensures { (end.new.line ≡ end.old.line) × (end.new.number ≡ end.old.number) }
{
    for _ in rt.forever() {
        let sent = end.count();
        if sent >= count || sent >= end.quota() {
            return;
        }
        if line
            .send(rt, end, sent, Command::Store { slot: 7 })
            .is_err()
        {
            thread::yield_now();
        }
    }
}

// How many entries of each end came, and whether each came with the number that was next.
#[derive(Drop)]
struct Tally {
    next: [u32; 4],
    in_order: bool,
}

impl Tally {
    fn add(&mut self, entry: &Entry) {
        match self.next.get_mut(entry.script as usize) {
            Some(next) => {
                self.in_order = self.in_order && *next == entry.seq && entry.sent_at == entry.seq;
                *next = next.saturating_add(1);
            }
            None => self.in_order = false,
        }
    }
}

// Takes this many entries.
fn take_some<R: Wait>(rt: &R, line: &Line, taker: &mut TakeEnd, number: u64, tally: &mut Tally)
    requires { taker.old.line ≡ line.now }
    ensures { taker.new.line ≡ taker.old.line }
{
    let mut taken = 0;
    for _ in rt.forever() {
        if taken >= number {
            return;
        }
        match line.take(rt, taker) {
            Some(entry) => {
                tally.add(&entry);
                taken += 1;
            }
            None => thread::yield_now(),
        }
    }
}

// Takes what rests.
fn take_rest<R: Wait>(rt: &R, rest: &mut Rest, tally: &mut Tally) {
    for _ in rt.forever() {
        match rest.next(rt) {
            Some(entry) => tally.add(&entry),
            None => return,
        }
    }
}

// Two ends send a few entries, each lent to a thread.
fn two_lent<R: Threads + Wait + Sync>(rt: &R, line: &Line, ends: &mut [SendEnd])
    requires { AreEnds line.now ends.old × (length ends.old ≡ 4) }
    ensures { AreEnds line.now ends.new }
{
    let (low, high) = ends.split_at_mut(2);
    let one = &mut low[0];
    let two = &mut high[1];
    thread::join_mut(
        rt,
        &mut || fill(rt, line, one, 3),
        &mut || fill(rt, line, two, 3),
    );
}

// All ends send, each from a thread of its own.
fn fill_all<R: Threads + Wait + Sync>(rt: &R, line: &Line, ends: &mut [SendEnd])
    requires { AreEnds line.now ends.old }
    ensures { AreEnds line.now ends.new }
{
    thread::for_each_mut(rt, ends, 4, &|_, end| fill(rt, line, end, 1000));
}

// All ends send while another thread takes this many entries.
fn pass<R: Threads + Wait + Sync>(
    rt: &R,
    line: &Line,
    ends: &mut [SendEnd],
    taker: &mut TakeEnd,
    number: u64,
    tally: &mut Tally,
)
    requires ends { AreEnds line.now ends.old }
    requires taker { taker.old.line ≡ line.now }
    ensures ends { AreEnds line.now ends.new }
    ensures taker { taker.new.line ≡ line.now }
{
    thread::join_mut(
        rt,
        &mut ||
            requires { AreEnds line.now ends.now }
            ensures { AreEnds line.entry.now ends.exit.now }
        { fill_all(rt, line, ends) },
        &mut || take_some(rt, line, taker, number, tally),
    );
}

#[test]
fn four_threads(rt: HostRuntime) -> Result<(), Fail> {
    let (line, mut taker, mut ends) = Line::new(rt.alloc(), 8, &[1000, 1000, 1000, 1000])?;
    let early = taker.total().saturating_sub(8);
    let mut tally = Tally {
        next: [0; 4],
        in_order: true,
    };
    two_lent(&rt, &line, ends.as_mut_slice());
    pass(
        &rt,
        &line,
        ends.as_mut_slice(),
        &mut taker,
        early,
        &mut tally,
    );
    let mut rest = line.finish(&rt, taker, ends);
    take_rest(&rt, &mut rest, &mut tally);
    assert_eq!(rt; tally.next, [1000, 1000, 1000, 1000]);
    assert!(rt; tally.in_order);
    Ok(())
}
