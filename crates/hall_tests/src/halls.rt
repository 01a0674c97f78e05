ghost use Rattle.std.specs.Prelude.{◌≡◌, ◌≤◌};

use cool_base::{DocId, FileId};
use hall_machine::{Entered, HallState, Label, Labelled, MailBag};
use poll_hall::{Hall, HallPort, Port};
use std::alloc::Global;
use std::sync::Wait;
use std::test::Fail;
use std::thread;
use turn_lock::{Seat, TurnLock};

// A mail that is its number.
#[derive(Drop)]
struct Note(u64);

impl Labelled for Note {
    ghost tag = { λ n. record { kind = 3; number = n.0 } };

    fn label(&self) -> Label {
        Label {
            kind: 3,
            number: self.0,
        }
    }
}

type TheHall = Hall<u32, Note>;

type TheSeat = Seat<HallState<u32, Note>>;

// Ten mails to one document. How many were posted.
fn post_ten<R: Wait>(rt: &R, hall: &TheHall, seat: &mut TheSeat, who: u32, doc: DocId) -> u64
    requires { seat.old.lock ≡ hall.now.lock }
    ensures lock { seat.new.lock ≡ hall.now.lock }
    ensures few { result ≤ 10 }
{
    let mut done = 0;
    for k in 0..10 {
        let (answer, _) = hall.post(rt, seat, who, doc, Note(k), false);
        if answer.is_ok() {
            done += 1;
        }
    }
    done
}

// One thread's part: ten files of its own, and ten mails to each. How many calls were not refused.
fn enter_ten<R: Wait>(
    rt: &R,
    alloc: Global,
    hall: &TheHall,
    seat: &mut TheSeat,
    who: u32,
    letter: &str,
) -> u64
    requires { seat.old.lock ≡ hall.now.lock }
    ensures { seat.new.lock ≡ hall.now.lock }
{
    let mut done: u64 = 0;
    for digit in ["0", "1", "2", "3", "4", "5", "6", "7", "8", "9"] {
        let Some(file) = named(alloc, letter, digit) else {
            return done;
        };
        let (answer, _) = hall.enter(rt, seat, who, &file);
        if let Ok(Entered::Fresh(doc)) = answer {
            let posted = post_ten(rt, hall, seat, who, doc);
            done = done.saturating_add(posted + 1);
        }
    }
    done
}

// The mails of each of the twenty documents came in the order in which they were posted.
fn all_in_order<R: Wait>(rt: &R, alloc: Global, hall: &TheHall, seat: &mut TheSeat) -> bool
    requires { seat.old.lock ≡ hall.now.lock }
    ensures { seat.new.lock ≡ hall.now.lock }
{
    for i in 0..20 {
        let Ok(bag) = MailBag::new(alloc) else {
            return false;
        };
        let ((_, first), _) = hall.collect(rt, seat, 0, DocId(i), bag);
        let Ok(bag) = MailBag::new(alloc) else {
            return false;
        };
        let ((_, second), _) = hall.collect(rt, seat, 1, DocId(i), bag);
        if are_in_order(first) == are_in_order(second) {
            return false;
        }
    }
    true
}

fn named(alloc: Global, letter: &str, digit: &str) -> Option<FileId> {
    let mut name = String::new(alloc);
    name.push_str(letter).ok()?;
    name.push_str(digit).ok()?;
    FileId::read(name.as_str())
}

// The ten mails of one document came in the order in which they were posted.
fn are_in_order(mut bag: MailBag<Note>) -> bool {
    for k in 0..10 {
        match bag.take() {
            Some(note) => {
                if note.0 != k {
                    return false;
                }
            }
            None => return false,
        }
    }
    bag.take().is_none()
}

fn take_part<R: Wait>(
    rt: &R,
    alloc: Global,
    hall: &TheHall,
    mut seat: TheSeat,
    who: u32,
    letter: &str,
) -> (TheSeat, u64)
    requires { seat.lock ≡ hall.now.lock }
    ensures { result.0.lock ≡ hall.now.lock }
{
    let done = enter_ten(rt, alloc, hall, &mut seat, who, letter);
    (seat, done)
}

#[test]
fn two_threads_share_one_history(rt: HostRuntime) -> Result<(), Fail> {
    let state = HallState::<u32, Note>::new(rt.alloc(), 2, 17000)?;
    let (lock, mut seat) = TurnLock::new(rt.alloc(), state)?;
    let hall = Hall { lock };
    let first = hall.lock.split(&mut seat);
    let second = hall.lock.split(&mut seat);
    let (one, two) = thread::join(
        &rt,
        || -> (TheSeat, u64)
            requires { first.lock ≡ hall.lock }
            ensures { result.0.lock ≡ hall.lock }
        { take_part(&rt, rt.alloc(), &hall, first, 0, "a") },
        || -> (TheSeat, u64)
            requires { second.lock ≡ hall.lock }
            ensures { result.0.lock ≡ hall.lock }
        { take_part(&rt, rt.alloc(), &hall, second, 1, "b") },
    );
    assert!(rt; one.1 == 110 && two.1 == 110);
    hall.lock.join(&mut seat, one.0);
    hall.lock.join(&mut seat, two.0);
    assert!(rt; hall.lock.look(&mut seat) == 220);
    assert!(rt; all_in_order(&rt, rt.alloc(), &hall, &mut seat));
    assert!(rt; hall.open_count(&rt, &mut seat) == (20, 240));
    Ok(())
}

#[test]
fn a_look_is_fresh(rt: HostRuntime) -> Result<(), Fail> {
    let state = HallState::<u32, Note>::new(rt.alloc(), 1, 16500)?;
    let (lock, mut seat) = TurnLock::new(rt.alloc(), state)?;
    let hall = Hall { lock };
    assert!(rt; hall.lock.look(&mut seat) == 0);
    let mut other = hall.lock.split(&mut seat);
    let file = FileId::read("d").expect(&rt, "a file id");
    let (answer, count) = hall.enter(&rt, &mut other, 0, &file);
    assert!(rt; matches!(answer, Ok(Entered::Fresh(DocId(0)))) && count == 1);
    assert!(rt; hall.lock.look(&mut seat) == 1);
    hall.lock.join(&mut seat, other);
    let mut port = HallPort {
        rt: &rt,
        hall: &hall,
        seat,
        who: 0,
    };
    assert!(rt; matches!(port.find(&file), Some(DocId(0))) && port.open_count() == 1);
    Ok(())
}
