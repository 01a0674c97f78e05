//! A painted job comes back.
ghost use Rattle.std.specs.Prelude.{◌≡◌, IfOk, IfSome, None};
ghost use Rattle.document_machine.specs.Event.{Painted};
ghost use Rattle.document_machine.specs.Goes.{Moves};
ghost use Rattle.document_machine.specs.State.{find_job};
ghost use Rattle.broker_core.specs.Painting.{IsJobAt};
ghost use Rattle.broker_core.specs.Serving.{Ignores};

use crate::core_of::{Core, OutJob, frames_only};
use crate::sending::{offer_all, ready_tiles};
use cool_base::{ListOf, Memory, Ticket};
use document_machine::Outs;
use kit_trait::{Done, Kit, Scene};
use tile_cache::Finished;
use tile_combine::cut;

/// The place of the job with the ticket that was painted, where its scene is the one kept for it.
fn job_at<S: Scene>(jobs: &[OutJob<S>], done: &Done<S>) -> Option<usize>
    ensures place { IfSome result (IsJobAt jobs.now done.now.ticket.0 done.now.scene) }
    ensures none { result ≡ None → Ignores done.now.scene (find_job jobs.now done.now.ticket.0) }
{
    for (i, job) in jobs.iter().enumerate() {
        if job.ticket == done.ticket.0 {
            return if job.scene == done.scene {
                Some(i)
            } else {
                None
            };
        }
    }
    None
}

impl<K: Kit> Core<K> {
    /// A painted result is taken where its ticket is out and its scene is the one kept for it: the job goes,
    /// each view, in order of ids, is offered each of its tiles, and those that are present are kept.
    /// Another result changes nothing.
    pub(crate) fn painted(self, done: &Done<K::Scene>) -> Result<(Core<K>, Outs<K::Scene>), Memory>
        ensures { IfOk result (λ r. Moves K.rules K.cut self (Painted done.now.ticket.0 done.now.scene) r.1 r.0) }
    {
        match job_at(self.jobs.as_slice(), done) {
            Some(i) => self.take(i, done),
            None => {
                let alloc = self.allocator();
                let outs = frames_only(alloc, ListOf::new(alloc));
                Ok((self, outs))
            }
        }
    }

    /// The painted result of the job at this place is taken.
    fn take(self, i: usize, done: &Done<K::Scene>) -> Result<(Core<K>, Outs<K::Scene>), Memory>
        requires { IsJobAt self.document.jobs done.now.ticket.0 done.now.scene i }
        ensures { IfOk result (λ r. Moves K.rules K.cut self (Painted done.now.ticket.0 done.now.scene) r.1 r.0) }
    {
        let alloc = self.allocator();
        let Core {
            kit,
            source,
            inputs,
            mut views,
            mut jobs,
            mut tiles,
            saves,
        } = self;
        let job = jobs.remove(i);
        let parts = cut(alloc, &job.group, &done.pixels)?;
        let finished = tiles.finish(alloc, Ticket(done.ticket.0), parts.as_slice())?;
        let Finished::Keys(ends) = finished else {
            unreachable!()
        };
        let keys = job.group.keys();
        let ready = ready_tiles(alloc, keys, ends.as_slice(), parts.as_slice())?;
        let frames = offer_all(alloc, &mut views.members, job.number, ready.as_slice())?;
        let core = Core {
            kit,
            source,
            inputs,
            views,
            jobs,
            tiles,
            saves,
        };
        Ok((core, frames_only(alloc, frames)))
    }
}
