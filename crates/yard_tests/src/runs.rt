// Runs of workers over the queue.
use crate::workers::{GONE, Noted, Says, Shade, Worker};
use bytes::Bytes;
use cool_base::{DocId, FileId, Memory, Ticket, Token};
use kit_trait::PaintJob;
use outside::Errand;
use paint_yard::{Item, RtYard, SharedYard, WorkerEnd, yard};
use std::alloc::Global;
use std::process::Abort;
use std::sync::Wait;
use std::test::Fail;
use std::thread;
use tile_key::{TileKey, TileWords, key_of, single};
use yard_traits::{Work, Yard};

/// No put has this number.
const NEVER: u64 = u64::MAX;

fn key(rt: &impl Abort) -> TileKey {
    let words = TileWords {
        part: 0,
        width: 1,
        height: 1,
        tileposx: 0,
        tileposy: 0,
        tilewidth: 15,
        tileheight: 15,
        nviewid: 0,
    };
    key_of(&words).expect(rt, "a key")
}

// The byte that the work with this number paints or stores.
fn byte_of(number: u64) -> u8 {
    (number % 251) as u8
}

// The document of the work with this number.
fn doc_of(number: u64) -> DocId {
    DocId((number % 3) as u32)
}

// The work with this number: a paint, where it is even, or a put.
fn work_of(rt: &impl Abort, alloc: Global, number: u64) -> Result<Work<Shade>, Memory> {
    if number % 2 == 0 {
        return Ok(Work::Paint(PaintJob {
            ticket: Ticket(number),
            number,
            group: single(&key(rt)),
            scene: Shade(byte_of(number)),
        }));
    }
    Ok(Work::Put(Errand {
        ticket: Ticket(number),
        file: FileId::read("d").expect(rt, "a file id"),
        token: Token::read(alloc, "t-rw")?.expect(rt, "a token"),
        content: Bytes::copy_from_slice(alloc, &[byte_of(number)])?,
        number,
    }))
}

// What is posted for the work with this number by a worker whose store answers by this status.
fn wanted(number: u64, status: u16) -> Noted {
    Noted {
        doc: doc_of(number),
        ticket: Ticket(number),
        says: if number % 2 == 0 {
            Says::Painted(byte_of(number))
        } else if status == 200 {
            Says::Stored(byte_of(number))
        } else {
            Says::Refused(status)
        },
    }
}

// The number of the work.
fn number_of(work: &Work<Shade>) -> u64 {
    match work {
        Work::Paint(job) => job.number,
        Work::Put(errand) => errand.number,
    }
}

fn works(rt: &impl Abort, alloc: Global, count: u64) -> Result<Vec<Work<Shade>>, Memory> {
    let mut works = Vec::new(alloc);
    for number in 0..count {
        works.push(work_of(rt, alloc, number)?)?;
    }
    Ok(works)
}

// Offers a work until it is taken.
fn offer<R: Wait>(rt: &R, yard: &mut SharedYard<Work<Shade>>, work: Work<Shade>) {
    let doc = doc_of(number_of(&work));
    let mut waiting = work;
    for _ in rt.forever() {
        match yard.offer(rt, doc, waiting) {
            Some(back) => waiting = back,
            None => return,
        }
        thread::yield_now();
    }
}

// Offers the works, and then so many close marks.
fn offer_all<R: Wait>(rt: &R, yard: SharedYard<Work<Shade>>, works: Vec<Work<Shade>>, marks: u64) {
    let mut yard = yard;
    for work in works {
        offer(rt, &mut yard, work);
    }
    for _ in 0..marks {
        yard.close(rt);
    }
}

// The worker after its works, and how it ended.
fn worked<R: Wait>(rt: &R, alloc: Global, worker: Worker) -> (Worker, WorkerEnd) {
    let mut worker = worker;
    let end = worker.work(rt, alloc);
    (worker, end)
}

// Whether the worker ended behind a close mark, passed its gate for each work, and posted what is
// wanted of its own store, in the order of the works.
fn is_right(worker: &Worker, end: WorkerEnd, status: u16) -> bool {
    let taken = worker.post.taken.as_slice();
    let mut least: u64 = 0;
    let mut right = end == WorkerEnd::Closed && worker.gate.passed == taken.len() as u64;
    for noted in taken {
        let number = noted.ticket.0;
        right = right && least <= number && *noted == wanted(number, status);
        least = number.saturating_add(1);
    }
    right
}

// The numbers of the works that were posted, added up.
fn added(worker: &Worker) -> u64 {
    let mut sum: u64 = 0;
    for noted in worker.post.taken.as_slice() {
        sum = sum.saturating_add(noted.ticket.0);
    }
    sum
}

#[test]
fn two_workers_answer_each_work_once_by_their_own_stores(rt: HostRuntime) -> Result<(), Fail> {
    let alloc = rt.alloc();
    let works = works(&rt, alloc, 1_000)?;
    let (yard, mut end) = yard::<Work<Shade>>(alloc)?;
    let second = Worker::new(alloc, end.split()?, 500, NEVER);
    let first = Worker::new(alloc, end, 200, NEVER);
    let (_offered, (first, second)) = thread::join(
        &rt,
        || offer_all(&rt, yard, works, 2),
        || thread::join(
            &rt,
            || worked(&rt, alloc, first),
            || worked(&rt, alloc, second),
        ),
    );
    assert!(rt; is_right(&first.0, first.1, 200));
    assert!(rt; is_right(&second.0, second.1, 500));
    let count = first.0.gate.passed.saturating_add(second.0.gate.passed);
    assert_eq!(rt; count, 1_000);
    assert_eq!(rt; added(&first.0).saturating_add(added(&second.0)), 499_500);
    Ok(())
}

#[test]
fn a_full_queue_gives_the_work_back(rt: HostRuntime) -> Result<(), Fail> {
    let alloc = rt.alloc();
    let (yard, end) = yard::<Work<Shade>>(alloc)?;
    let mut yard = RtYard { rt: &rt, yard };
    for number in 0..300u64 {
        let back = yard.offer(doc_of(number), work_of(&rt, alloc, number)?);
        let met = yard.yard.full();
        match back {
            Some(work) => {
                assert_eq!(rt; number_of(&work), number);
                assert_eq!(rt; met, number.saturating_sub(255));
            }
            None => assert_eq!(rt; met, 0),
        }
    }
    assert_eq!(rt; yard.yard.full(), 44);
    let RtYard { rt: _, yard } = yard;
    let worker = Worker::new(alloc, end, 409, NEVER);
    let none = Vec::new(alloc);
    let (_closed, (worker, end)) = thread::join(
        &rt,
        || offer_all(&rt, yard, none, 1),
        || worked(&rt, alloc, worker),
    );
    assert!(rt; is_right(&worker, end, 409));
    assert_eq!(rt; worker.gate.passed, 256);
    assert_eq!(rt; added(&worker), 32_640);
    Ok(())
}

#[test]
fn a_work_that_lacks_memory_ends_its_run(rt: HostRuntime) -> Result<(), Fail> {
    let alloc = rt.alloc();
    let (mut yard, end) = yard::<Work<Shade>>(alloc)?;
    for number in 0..6u64 {
        let doc = if number == 2 { GONE } else { doc_of(number) };
        let back = yard.offer(&rt, doc, work_of(&rt, alloc, number)?);
        assert!(rt; back.is_none());
    }
    yard.close(&rt);
    assert!(rt; yard.offer(&rt, GONE, work_of(&rt, alloc, 6)?).is_none());
    let mut worker = Worker::new(alloc, end, 200, 3);
    assert_eq!(rt; worker.work(&rt, alloc), WorkerEnd::Memory);
    assert_eq!(rt; worker.gate.passed, 4);
    let before = [wanted(0, 200), wanted(1, 200)];
    assert_eq!(rt; worker.post.taken.as_slice(), before.as_slice());
    assert_eq!(rt; worker.work(&rt, alloc), WorkerEnd::Closed);
    assert_eq!(rt; worker.gate.passed, 6);
    let after = [
        wanted(0, 200),
        wanted(1, 200),
        wanted(4, 200),
        wanted(5, 200),
    ];
    assert_eq!(rt; worker.post.taken.as_slice(), after.as_slice());
    assert!(rt; matches!(worker.end.take(&rt), Item::Work(DocId(9), _)));
    Ok(())
}
