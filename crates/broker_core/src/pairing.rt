//! The pair that is next is served: a present tile that is kept is sent, or else a job is cut.
ghost use Rattle.std.specs.Prelude.{◌≤◌, ◌≡◌, [], ◌∷◌, true, false, length, nat_lt, IfOk, IsSome, None, Some};
ghost use Rattle.tile_cache.specs.Cached.{current_tile};
ghost use Rattle.document_machine.specs.Goes.{DoesNext};
ghost use Rattle.document_machine.specs.Held.{current_version};
ghost use Rattle.document_machine.specs.Next.{next_pair};
ghost use Rattle.document_machine.specs.Saves.{has_ready_save};
ghost use Rattle.document_machine.specs.Step.{given};
ghost use Rattle.document_machine.specs.declared.outs.Turned.TheVariants.{Worked as Work};

use crate::choosing::{group_at, next_member};
use crate::core_of::{Core, OutJob, frames_only};
use crate::members::member_at;
use crate::sending::Ready;
use cool_base::{ListOf, Memory, Ticket};
use document_machine::{MOST_JOBS, Outs, Turned};
use kit_trait::{Kit, PaintJob, Scene};
use std::alloc::Global;
use tile_key::TileKey;

/// The job as it is given to a painter, with an equal scene.
fn given<S: Scene>(alloc: Global, job: &OutJob<S>) -> Result<Outs<S>, Memory>
    ensures { IfOk result (λ outs. outs ≡ record { frames = []; jobs = given job.now ∷ []; errands = [] }) }
{
    let scene = job.scene.copy(alloc)?;
    let mut jobs = ListOf::new(alloc);
    jobs.push(PaintJob {
        ticket: Ticket(job.ticket),
        number: job.number,
        group: job.group.copy(),
        scene,
    })?;
    Ok(Outs {
        frames: ListOf::new(alloc),
        jobs,
        errands: ListOf::new(alloc),
    })
}

impl<K: Kit> Core<K> {
    /// The pair of a view and a key that is served next.
    fn next_pair(&self) -> Option<(u32, TileKey)>
        ensures { result ≡ next_pair K.rules (current_version K.rules self.now) self.now.document }
    {
        let more = self.jobs.len() < MOST_JOBS;
        next_member(self.views.members.as_slice(), &self.tiles, more)
    }

    /// The pair that is next is served, where no save is ready and all inputs are applied.
    pub(crate) fn serve_next(self) -> Result<(Core<K>, Turned<K::Scene>), Memory>
        requires no_save { has_ready_save self.document ≡ false }
        requires level { nat_lt self.document.applied (length self.document.journal) ≡ false }
        requires within { self.document.applied ≤ length self.document.journal }
        ensures { IfOk result (λ r. DoesNext K.rules K.cut self r.1 r.0) }
    {
        let Some((id, key)) = self.next_pair() else {
            return Ok((self, Turned::Idle));
        };
        if self.keeps(&key) {
            let (core, outs) = self.send(id, key)?;
            return Ok((core, Turned::Worked(outs)));
        }
        let (core, outs) = self.cut(id, key)?;
        Ok((core, Turned::Worked(outs)))
    }

    /// Whether a present tile of the key is kept.
    fn keeps(&self, key: &TileKey) -> bool
        ensures yes { result ≡ true → IsSome (current_version K.rules self.now key.now) }
        ensures no { result ≡ false → current_version K.rules self.now key.now ≡ None }
    {
        self.tiles.is_current(key)
    }

    /// The present tile of the key that is kept is sent to the view: it was used.
    fn send(self, id: u32, key: TileKey) -> Result<(Core<K>, Outs<K::Scene>), Memory>
        requires no_save { has_ready_save self.document ≡ false }
        requires level { nat_lt self.document.applied (length self.document.journal) ≡ false }
        requires next { next_pair K.rules (current_version K.rules self) self.document ≡ Some (id, key) }
        requires kept { IsSome (current_version K.rules self key) }
        ensures { IfOk result (λ r. DoesNext K.rules K.cut self (Work r.1) r.0) }
    {
        let alloc = self.allocator();
        let Core {
            kit,
            source,
            inputs,
            mut views,
            jobs,
            mut tiles,
            saves,
        } = self;
        let found = tiles.current(&key)?;
        let Some((number, rgba)) = found else {
            unreachable!()
        };
        let Some(i) = member_at(&views.members, id) else {
            unreachable!()
        };
        let tile = Ready {
            key,
            current: true,
            rgba,
        };
        let mut frames = ListOf::new(alloc);
        let member = &mut views.members[i];
        member.send(&mut frames, number, &tile)?;
        let core = Core {
            kit,
            source,
            inputs,
            views,
            jobs,
            tiles,
            saves,
        };
        Ok((core, frames_only(alloc, frames)))
    }

    /// A job is cut for the key and for those to its right that join it: it shows the document as it is now.
    fn cut(self, id: u32, key: TileKey) -> Result<(Core<K>, Outs<K::Scene>), Memory>
        requires no_save { has_ready_save self.document ≡ false }
        requires level { nat_lt self.document.applied (length self.document.journal) ≡ false }
        requires next { next_pair K.rules (current_version K.rules self) self.document ≡ Some (id, key) }
        requires none_kept { current_version K.rules self key ≡ None }
        ensures { IfOk result (λ r. DoesNext K.rules K.cut self (Work r.1) r.0) }
    {
        let alloc = self.allocator();
        let Core {
            mut kit,
            source,
            inputs,
            views,
            mut jobs,
            mut tiles,
            saves,
        } = self;
        let group = group_at(views.members.as_slice(), &tiles, &key);
        let area = group.area();
        // A read of the area tells its form.
        let _width = area.width();
        let scene = kit.scene(alloc, &area)?;
        let ticket = tiles.begin(alloc, &group, inputs.applied)?;
        let job = OutJob {
            ticket: ticket.0,
            number: inputs.applied,
            group,
            area,
            scene,
        };
        let outs = given(alloc, &job)?;
        jobs.push(job)?;
        let core = Core {
            kit,
            source,
            inputs,
            views,
            jobs,
            tiles,
            saves,
        };
        Ok((core, outs))
    }
}
