// Works that cross the queue.
use cool_base::DocId;
use paint_yard::{Item, SharedYard, WorkEnd, yard};
use std::sync::Wait;
use std::test::Fail;
use std::thread;

// Offers so many works, numbered from 0, once each. How many came back.
fn offer_many<R: Wait>(rt: &R, yard: &mut SharedYard<u64>, count: u64) -> u64 {
    let mut back: u64 = 0;
    for number in 0..count {
        if yard.offer(rt, DocId(0), number).is_some() {
            back = back.saturating_add(1);
        }
    }
    back
}

// Offers a work until it is taken.
fn offer_one<R: Wait>(rt: &R, yard: &mut SharedYard<u64>, number: u64) {
    for _ in rt.forever() {
        if yard.offer(rt, DocId(0), number).is_none() {
            return;
        }
        thread::yield_now();
    }
}

// Offers so many works, numbered from 0, until each is taken, and then so many close marks.
fn offer_all<R: Wait>(rt: &R, yard: SharedYard<u64>, count: u64, marks: u64) -> u64 {
    let mut yard = yard;
    for number in 0..count {
        offer_one(rt, &mut yard, number);
    }
    for _ in 0..marks {
        yard.close(rt);
    }
    yard.full()
}

// Takes works up to a close mark. How many came, and whether their numbers rose.
fn take_all<R: Wait>(rt: &R, end: WorkEnd<u64>) -> (u64, bool) {
    let mut end = end;
    let mut count: u64 = 0;
    let mut least: u64 = 0;
    let mut rises = true;
    for _ in rt.forever() {
        match end.take(rt) {
            Item::Close => return (count, rises),
            Item::Work(_, number) => {
                rises = rises && least <= number;
                least = number.saturating_add(1);
                count = count.saturating_add(1);
            }
        }
    }
    unreachable!()
}

#[test]
fn a_queue_holds_256_works(rt: HostRuntime) -> Result<(), Fail> {
    let (mut yard, end) = yard::<u64>(rt.alloc())?;
    assert_eq!(rt; offer_many(&rt, &mut yard, 300), 44);
    assert_eq!(rt; yard.full(), 44);
    let mut other = yard.split()?;
    assert_eq!(rt; offer_many(&rt, &mut other, 1), 1);
    assert_eq!(rt; (yard.full(), other.full()), (44, 1));
    let mut end = end;
    assert!(rt; matches!(end.take(&rt), Item::Work(DocId(0), 0)));
    assert_eq!(rt; offer_many(&rt, &mut other, 2), 1);
    Ok(())
}

#[test]
fn works_come_once_and_in_order(rt: HostRuntime) -> Result<(), Fail> {
    let (yard, end) = yard::<u64>(rt.alloc())?;
    let (_full, taken) = thread::join(
        &rt,
        || offer_all(&rt, yard, 2_000, 1),
        || take_all(&rt, end),
    );
    assert_eq!(rt; taken, (2_000, true));
    Ok(())
}

#[test]
fn two_ends_share_the_works(rt: HostRuntime) -> Result<(), Fail> {
    let (yard, mut end) = yard::<u64>(rt.alloc())?;
    let second = end.split()?;
    let (_full, taken) = thread::join(
        &rt,
        || offer_all(&rt, yard, 2_000, 2),
        || thread::join(&rt, || take_all(&rt, end), || take_all(&rt, second)),
    );
    let (one, two) = taken;
    assert_eq!(rt; one.0.saturating_add(two.0), 2_000);
    assert!(rt; one.1 && two.1);
    Ok(())
}
