//! `worker_run`: the works of one end, one after another.
ghost use Rattle.std.specs.Prelude.{◌≡◌, ◌↔◌, IsTrue, List, Err, MatchResult};
ghost use Rattle.outside.specs.declared.faults.StoreFault.TheVariants.{Memory as NoMemory};
ghost use Rattle.outside.specs.Stores.{StoreCall};
ghost use Rattle.paint_yard.specs.Working.{Adds, AreRefused, EndsWith, IsAnswerTo, IsDelivered};
ghost use Rattle.paint_yard.specs.Working.{IsDone, IsLeft, IsUnanswered, Posting};

use crate::ends::WorkEnd;
use crate::passes::Item;
use crate::workers::{Gate, Post, Posted};
use cool_base::{DocId, Memory};
use kit_trait::{Done, Scene, paint};
use outside::{Receipt, Store, StoreFault};
use std::alloc::Global;
use std::sync::Wait;
use yard_traits::{Answer, Answered, Work};

/// How a thread that does works ends: by a close mark, or as memory was refused.
#[derive(Clone, Copy, Debug, PartialEq, Eq)]
pub enum WorkerEnd {
    Closed,
    Memory,
}

/// The answer to the work: the painted scene, or what the store answers to a put of the errand.
fn answered<S: Scene, H: Store>(
    alloc: Global,
    store: &mut H,
    work: Work<S>,
) -> Result<Answer<S>, Memory>
    ensures { (made : List StoreCall) × Adds (H.calls store.old) made (H.calls store.new)
        × MatchResult result
        (λ answer. IsAnswerTo (λ d. d.ticket) (λ d. d.scene) work answer made)
        (λ _. IsUnanswered work made) }
{
    match work {
        Work::Paint(job) => Ok(Answered::Painted(paint(alloc, job)?)),
        Work::Put(errand) => {
            let result = store.put(alloc, &errand);
            if lacked_memory(&result) {
                return Err(Memory);
            }
            Ok(Answered::PutDone {
                ticket: errand.ticket,
                result,
            })
        }
    }
}

/// Whether the store answered that it had no memory.
fn lacked_memory(answer: &Result<Receipt, StoreFault>) -> bool
    ensures { IsTrue result ↔ (answer.now ≡ Err NoMemory) }
{
    matches!(answer, Err(StoreFault::Memory))
}

/// Posts the answer until it is taken, or its document is gone.
fn delivered<R: Wait, A: Drop, Q: Post<A>>(
    rt: &R,
    post: &mut Q,
    doc: DocId,
    answer: A,
) -> Result<(), Memory>
    ensures { (made : List (Posting A)) × Adds (Q.told post.old) made (Q.told post.new)
        × MatchResult result (λ _. IsDelivered doc answer made)
        (λ _. AreRefused doc answer made) }
{
    let mut waiting = answer;
    for _ in rt.forever() {
        match post.post(doc, waiting) {
            Posted::Put | Posted::Gone => return Ok(()),
            Posted::Again(back) => waiting = back,
            Posted::Memory(_) => return Err(Memory),
        }
    }
    unreachable!()
}

/// Does the work, and posts its answer.
fn done<R: Wait, S: Scene, H: Store, Q: Post<Answer<S>>>(
    rt: &R,
    alloc: Global,
    store: &mut H,
    post: &mut Q,
    doc: DocId,
    work: Work<S>,
) -> Result<(), Memory>
    ensures { (posts : List _) × (calls : List StoreCall)
        × Adds (Q.told post.old) posts (Q.told post.new)
        × Adds (H.calls store.old) calls (H.calls store.new)
        × MatchResult result
        (λ _. IsDone (λ d. d.ticket) (λ d. d.scene) doc work posts calls)
        (λ _. IsLeft (λ d. d.ticket) (λ d. d.scene) doc work posts calls) }
{
    let answer = answered(alloc, store, work)?;
    delivered(rt, post, doc, answer)
}

/// Does the works of the end, in the order in which it takes them: before each the gate is told how
/// many works were taken, and each answer is posted to the document of its work until it is taken
/// or the document is gone. `Closed` where a close mark was taken; `Memory` where a paint, a put or
/// a post was refused memory, and then the last work is left without a post that was taken. It
/// waits while the queue is empty.
pub fn worker_run<R: Wait, S: Scene, G: Gate, H: Store, Q: Post<Answer<S>>>(
    rt: &R,
    alloc: Global,
    end: &mut WorkEnd<Work<S>>,
    gate: &mut G,
    store: &mut H,
    post: &mut Q,
) -> WorkerEnd
    ensures { EndsWith (λ d. d.ticket) (λ d. d.scene)
        (record {
          took = end.old;
          posts = Q.told post.old;
          calls = H.calls store.old;
          passes = G.passes gate.old;
        })
        result
        (record {
          took = end.new;
          posts = Q.told post.new;
          calls = H.calls store.new;
          passes = G.passes gate.new;
        }) }
{
    let mut count: u64 = 0;
    for _ in rt.forever() {
        let Item::Work(doc, work) = end.take(rt) else {
            return WorkerEnd::Closed;
        };
        count = count.saturating_add(1);
        gate.pass(count);
        if done(rt, alloc, store, post, doc, work).is_err() {
            return WorkerEnd::Memory;
        }
    }
    unreachable!()
}
