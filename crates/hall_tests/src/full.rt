// Refusals of a shared hall, and reads of what another seat did.
ghost use Rattle.std.specs.Prelude.{◌≡◌};

use cool_base::{DocId, FileId};
use hall_machine::{Entered, HallFault, HallState, Label, Labelled, Refused};
use poll_hall::{Hall, HallPort, Port};
use std::sync::Wait;
use std::test::Fail;
use turn_lock::{Seat, TurnLock};

// A mail that is its number.
#[derive(Drop)]
struct Note(u64);

impl Labelled for Note {
    ghost tag = { λ n. record { kind = 3; number = n.0 } };

    fn label(&self) -> Label {
        Label {
            kind: 3,
            number: self.0,
        }
    }
}

type TheHall = Hall<u32, Note>;

type TheSeat = Seat<HallState<u32, Note>>;

// Posts so many mails to document 0. How many were taken.
fn post_many<R: Wait>(rt: &R, hall: &TheHall, seat: &mut TheSeat, count: u32, urgent: bool) -> u64
    requires { seat.old.lock ≡ hall.now.lock }
    ensures { seat.new.lock ≡ hall.now.lock }
{
    let mut done: u64 = 0;
    for k in 0..count {
        let (answer, _) = hall.post(rt, seat, 0, DocId(0), Note(u64::from(k)), urgent);
        if answer.is_ok() {
            done = done.saturating_add(1);
        }
    }
    done
}

// The refusal, where the mail that came back is this one.
fn why(answer: Result<(), Refused<Note>>, mail: u64) -> Option<HallFault> {
    match answer {
        Ok(()) => None,
        Err(back) => {
            if back.value.0 == mail {
                Some(back.why)
            } else {
                None
            }
        }
    }
}

#[test]
fn a_mailbox_is_full(rt: HostRuntime) -> Result<(), Fail> {
    let alloc = rt.alloc();
    let state = HallState::<u32, Note>::new(alloc, 1, 60_000)?;
    let (lock, mut seat) = TurnLock::new(alloc, state)?;
    let hall = Hall { lock };
    let file = FileId::read("d").expect(&rt, "a file id");
    let (answer, _) = hall.enter(&rt, &mut seat, 0, &file);
    assert!(rt; matches!(answer, Ok(Entered::Fresh(DocId(0)))));
    assert_eq!(rt; post_many(&rt, &hall, &mut seat, 2_048, false), 2_048);
    let (answer, count) = hall.post(&rt, &mut seat, 0, DocId(0), Note(9), false);
    assert!(rt; matches!(why(answer, 9), Some(HallFault::MailFull)) && count == 2_049);
    assert_eq!(rt; post_many(&rt, &hall, &mut seat, 2_048, true), 2_048);
    let (answer, count) = hall.post(&rt, &mut seat, 0, DocId(0), Note(8), true);
    assert!(rt; matches!(why(answer, 8), Some(HallFault::MailFull)) && count == 4_097);
    Ok(())
}

#[test]
fn a_book_is_full(rt: HostRuntime) -> Result<(), Fail> {
    let alloc = rt.alloc();
    let state = HallState::<u32, Note>::new(alloc, 1, 16_388)?;
    let (lock, mut seat) = TurnLock::new(alloc, state)?;
    let hall = Hall { lock };
    for name in ["a", "b"] {
        let file = FileId::read(name).expect(&rt, "a file id");
        let (answer, _) = hall.enter(&rt, &mut seat, 0, &file);
        assert!(rt; answer.is_ok());
    }
    let file = FileId::read("c").expect(&rt, "a file id");
    let (answer, count) = hall.enter(&rt, &mut seat, 0, &file);
    assert!(rt; matches!(answer, Err(HallFault::BookFull)) && count == 2);
    let (answer, _) = hall.post(&rt, &mut seat, 0, DocId(7), Note(5), false);
    assert!(rt; matches!(why(answer, 5), Some(HallFault::Gone)));
    Ok(())
}

// The other seat is never joined, so nothing but the turn itself can tell what it did.
#[test]
fn a_read_is_fresh(rt: HostRuntime) -> Result<(), Fail> {
    let alloc = rt.alloc();
    let state = HallState::<u32, Note>::new(alloc, 1, 16_500)?;
    let (lock, mut seat) = TurnLock::new(alloc, state)?;
    let hall = Hall { lock };
    let mut other = hall.lock.split(&mut seat);
    let mut port = HallPort {
        rt: &rt,
        hall: &hall,
        seat,
        who: 0,
    };
    let file = FileId::read("d").expect(&rt, "a file id");
    assert!(rt; port.find(&file).is_none() && port.open_count() == 0);
    let (answer, _) = hall.enter(&rt, &mut other, 0, &file);
    assert!(rt; matches!(answer, Ok(Entered::Fresh(DocId(0)))));
    assert!(rt; matches!(port.find(&file), Some(DocId(0))) && port.open_count() == 1);
    let (closed, _) = hall.close(&rt, &mut other, 0, DocId(0));
    assert!(rt; closed.is_ok());
    assert!(rt; port.find(&file).is_none() && port.open_count() == 0);
    Ok(())
}
