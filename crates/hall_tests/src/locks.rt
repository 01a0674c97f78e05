ghost use Rattle.std.specs.Prelude.{◌≡◌, ◌<◌, [], ◌∷◌, ◌++◌, length, List};
ghost use Rattle.turn_lock.specs.Seats.{StaysOrAdds};

use std::alloc::Global;
use std::sync::Wait;
use std::test::Fail;
use std::thread;
use turn_lock::{Booked, Seat, TurnLock};

// A list of numbers with a name.
#[derive(Drop)]
struct Slate {
    name: u64,
    lines: Vec<u64>,
}

impl Booked for Slate {
    type Entry = u64;

    type Ground = u64;

    ghost footing = { λ s. s.name };

    ghost book = { λ s. s.lines.items };

    fn count(&self) -> u64 {
        self.lines.len() as u64
    }
}

impl Slate {
    fn add(&mut self, line: u64) -> bool
        ensures name { self.new.name ≡ self.old.name }
        ensures lines { StaysOrAdds self.old.lines.items self.new.lines.items }
    {
        self.lines.push(line).is_ok()
    }

    // The lines of one writer, whose numbers begin at `first`, stand in the order in which it wrote
    // them, each once.
    fn is_in_order(&self, first: u64, count: u64) -> bool {
        let mut next = 0;
        for line in &self.lines {
            if first <= *line && *line - first < count {
                if *line - first != next {
                    return false;
                }
                next += 1;
            }
        }
        next == count
    }
}

// One thread's part.
#[derive(Drop)]
struct Writer<'a> {
    lock: &'a TurnLock<Slate>,
    seat: Seat<Slate>,
    first: u64,
    wrote: u64,
    ghost of_lock: { seat.lock ≡ lock.now },
}

fn hire(lock: &TurnLock<Slate>, seat: Seat<Slate>, first: u64) -> Writer
    requires { seat.lock ≡ lock.now }
{
    Writer {
        lock,
        seat,
        first,
        wrote: 0,
    }
}

impl<'a> Writer<'a> {
    fn write<R: Wait>(&mut self, rt: &R, line: u64) {
        let done = self
            .lock
            .with(rt, &mut self.seat, |slate: &mut Slate| slate.add(line));
        if done {
            self.wrote = self.wrote.saturating_add(1);
        }
    }

    fn work<R: Wait>(&mut self, rt: &R) {
        let first = self.first;
        for i in 0..100 {
            self.write(rt, first.saturating_add(i));
        }
    }
}

fn make_slate(alloc: Global) -> Slate {
    Slate {
        name: 7,
        lines: Vec::new(alloc),
    }
}

#[test]
fn a_seat_knows_what_was_done(rt: HostRuntime) -> Result<(), Fail> {
    let (lock, mut first) = TurnLock::new(rt.alloc(), make_slate(rt.alloc()))?;
    assert!(rt; lock.look(&mut first) == 0);
    let mut second = lock.split(&mut first);
    assert!(rt; lock.with(&rt, &mut second, |s: &mut Slate| s.add(5)));
    assert!(rt; lock.look(&mut first) == 1);
    assert!(rt; lock.with(&rt, &mut first, |s: &mut Slate| s.add(6)));
    lock.join(&mut first, second);
    let lines = lock.with(
        &rt,
        &mut first,
        |s: &mut Slate| (s.name, s.lines.len(), s.lines.last().copied()),
    );
    assert!(rt; lines == (7, 2, Some(6)));
    Ok(())
}

#[test]
fn threads_write_into_one_list(rt: HostRuntime) -> Result<(), Fail> {
    let (lock, mut seat) = TurnLock::new(rt.alloc(), make_slate(rt.alloc()))?;
    let other = lock.split(&mut seat);
    let third = lock.split(&mut seat);
    let mut team = [hire(&lock, other, 1000), hire(&lock, third, 2000)];
    thread::for_each_mut(
        &rt,
        &mut team,
        2,
        &|_, writer: &mut Writer| writer.work(&rt),
    );
    assert!(rt; team[0].wrote == 100 && team[1].wrote == 100);
    assert!(rt; lock.look(&mut seat) == 200);
    let whole = lock.with(&rt, &mut seat, |s: &mut Slate| {
        s.lines.len() == 200 && s.is_in_order(1000, 100) && s.is_in_order(2000, 100)
    });
    assert!(rt; whole);
    Ok(())
}
