use cool_base::{DocId, FileId};
use hall_machine::{CloseFault, Entered, HallFault, HallState, Label, Labelled, MailBag, Owner};
use std::test::Fail;
use turn_lock::Booked;

// A mail that is its number.
#[derive(Drop)]
struct Note(u64);

impl Labelled for Note {
    ghost tag = { λ n. record { kind = 3; number = n.0 } };

    fn label(&self) -> Label {
        Label {
            kind: 3,
            number: self.0,
        }
    }
}

#[test]
fn a_small_hall_is_full_at_its_numbers(rt: HostRuntime) -> Result<(), Fail> {
    let mut hall = HallState::<u32, Note>::new(rt.alloc(), 2, 16388)?;
    let a = FileId::read("a").expect(&rt, "a file id");
    let b = FileId::read("b").expect(&rt, "a file id");
    let c = FileId::read("c").expect(&rt, "a file id");
    assert!(rt; matches!(hall.enter(0, &a), Ok(Entered::Fresh(DocId(0)))));
    assert!(rt; matches!(hall.enter(0, &b), Ok(Entered::Fresh(DocId(1)))));
    assert!(rt; matches!(hall.enter(1, &a), Ok(Entered::There(DocId(0)))));
    assert!(rt; matches!(hall.enter(0, &c), Err(HallFault::BookFull)));
    let refused = hall.post(0, DocId(7), Note(5), false);
    assert!(rt; matches!(refused, Err(r) if matches!(r.why, HallFault::Gone) && r.value.0 == 5));
    assert!(rt; hall.post(1, DocId(1), Note(6), true).is_ok());
    assert!(rt; hall.open_count() == 2 && hall.polls() == 2 && hall.count() == 3);
    Ok(())
}

#[test]
fn a_document_moves_with_its_mail_and_is_closed(rt: HostRuntime) -> Result<(), Fail> {
    let mut hall = HallState::<u32, Note>::new(rt.alloc(), 2, 16400)?;
    let a = FileId::read("a").expect(&rt, "a file id");
    let d = DocId(0);
    assert!(rt; hall.enter(0, &a).is_ok());
    assert!(rt; hall.post(1, d, Note(1), false).is_ok());
    assert!(rt;
        matches!(hall.depart(1, d, 0, 9), Err(r) if matches!(r.why, HallFault::NotHere(0)) && r.value == 9)
    );
    assert!(rt; hall.polls() == 2);
    assert!(rt; hall.depart(0, d, 1, 77).is_ok());
    assert!(rt; hall.post(0, d, Note(2), false).is_ok());
    assert!(rt; hall.arrive(0).is_none());
    assert!(rt; hall.advise() == 0 && hall.spare() && matches!(hall.find(&a), Some(DocId(0))));
    assert!(rt; matches!(hall.arrive(1), Some((DocId(0), 77))));
    assert!(rt; matches!(hall.close(1, d), Err(CloseFault::Waiting(2))));
    let (none, bag) = hall.collect(0, d, MailBag::new(rt.alloc())?);
    assert!(rt; matches!(none, Err(Owner::NotHere(1))));
    let (some, mut bag) = hall.collect(1, d, bag);
    assert!(rt; matches!(some, Ok(2)));
    assert!(rt;
        matches!(bag.take(), Some(Note(1)))
            && matches!(bag.take(), Some(Note(2)))
            && bag.take().is_none()
    );
    assert!(rt; hall.close(1, d).is_ok() && hall.open_count() == 0 && hall.count() == 7);
    let late = hall.post(0, d, Note(5), true);
    assert!(rt; matches!(late, Err(r) if matches!(r.why, HallFault::Gone) && r.value.0 == 5));
    Ok(())
}
