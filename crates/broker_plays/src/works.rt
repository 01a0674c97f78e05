//! What becomes of the jobs and the errands that a document gave out.
use crate::stage::{Held, Stage};
use broker_core::Outs;
use bytes::Bytes;
use cool_base::{Memory, Ticket};
use kit_trait::{Done, Kit, Scene};
use outside::{Receipt, StoreFault};
use std::alloc::Global;

impl<K: Kit> Stage<K> {
    /// - `paint_job 3`: the job with this ticket comes back painted, also where it came before. `paint_back`:
    ///   all jobs that were given out come back, the last first.
    /// - `put`: the store answers the errand that was given out last by a receipt. `put_as 7`: the same under
    ///   another ticket. `put_else`: by a receipt of other content. `fail 404`: by a fault of this status.
    /// - `stored`: whether the document is done, and lost, and whether it has inputs that are not stored.
    pub(crate) fn act_work(
        &mut self,
        alloc: Global,
        word: &str,
        number: u32,
    ) -> Result<(), Memory> {
        match word {
            "paint_job" => self.paints_job(alloc, u64::from(number)),
            "paint_back" => self.paints_back(alloc),
            "put" => self.puts(alloc, None, false),
            "put_as" => self.puts(alloc, Some(number), false),
            "put_else" => self.puts(alloc, None, true),
            "fail" => self.fails(alloc, number),
            "stored" => self.stored(alloc),
            _ => self.write("no such act"),
        }
    }

    /// The jobs and the errands, which are kept, each with a line.
    pub(crate) fn hold(&mut self, alloc: Global, outs: Outs<K::Scene>) -> Result<(), Memory> {
        let Outs {
            frames: _,
            jobs,
            errands,
        } = outs;
        for job in jobs.into_inner() {
            let ticket = job.ticket.0;
            let number = job.number;
            let count = job.group.keys().len();
            let line = format!(in alloc; "job {ticket} of {count} key, number={number}")?;
            self.write(line.as_str())?;
            let scene = job.scene;
            self.jobs.push(Held { ticket, scene })?;
        }
        for errand in errands.into_inner() {
            let ticket = errand.ticket.0;
            let number = errand.number;
            let count = errand.content.len();
            let token = errand.token.text();
            let line = format!(in alloc;
                "put {ticket} of {count} bytes, number={number} token={token}"
            )?;
            self.write(line.as_str())?;
            self.errands.push(errand)?;
        }
        Ok(())
    }

    /// Brings this scene back painted, under this ticket.
    pub(crate) fn gives(
        &mut self,
        alloc: Global,
        ticket: u64,
        scene: K::Scene,
    ) -> Result<(), Memory> {
        let pixels = scene.paint(alloc)?;
        let done = Done {
            ticket: Ticket(ticket),
            scene,
            pixels,
        };
        let outs = self.broker.painted(&done)?;
        self.show(alloc, &outs)
    }

    /// The scene of a job, counted from the last one given out.
    fn scene_of(&self, alloc: Global, back: usize) -> Result<Option<(u64, K::Scene)>, Memory> {
        let Some(held) = self.jobs.iter().rev().nth(back) else {
            return Ok(None);
        };
        Ok(Some((held.ticket, held.scene.copy(alloc)?)))
    }

    pub(crate) fn paints(&mut self, alloc: Global) -> Result<(), Memory> {
        match self.scene_of(alloc, 0)? {
            Some((ticket, scene)) => self.gives(alloc, ticket, scene),
            None => self.write("no job"),
        }
    }

    pub(crate) fn paints_as(&mut self, alloc: Global, ticket: u32) -> Result<(), Memory> {
        match self.scene_of(alloc, 0)? {
            Some((_, scene)) => self.gives(alloc, u64::from(ticket), scene),
            None => self.write("no job"),
        }
    }

    pub(crate) fn paints_old(&mut self, alloc: Global) -> Result<(), Memory> {
        let last = self.scene_of(alloc, 0)?;
        let before = self.scene_of(alloc, 1)?;
        match (last, before) {
            (Some((ticket, _)), Some((_, scene))) => self.gives(alloc, ticket, scene),
            _ => self.write("no job"),
        }
    }

    fn paints_job(&mut self, alloc: Global, ticket: u64) -> Result<(), Memory> {
        for back in 0..self.jobs.len() {
            if let Some((found, scene)) = self.scene_of(alloc, back)? {
                if found == ticket {
                    return self.gives(alloc, ticket, scene);
                }
            }
        }
        self.write("no job")
    }

    fn paints_back(&mut self, alloc: Global) -> Result<(), Memory> {
        for back in 0..self.jobs.len() {
            if let Some((ticket, scene)) = self.scene_of(alloc, back)? {
                self.gives(alloc, ticket, scene)?;
            }
        }
        Ok(())
    }

    /// The store answers the last errand by a receipt, of its content or of another one.
    fn puts(&mut self, alloc: Global, ticket: Option<u32>, other: bool) -> Result<(), Memory> {
        let Some(errand) = self.errands.as_slice().last() else {
            return self.write("no errand");
        };
        let number = ticket.map(u64::from).unwrap_or(errand.ticket.0);
        let content = if other {
            Bytes::copy_from_slice(alloc, b"other")?
        } else {
            errand.content.clone()?
        };
        let answer = Ok(Receipt {
            file: errand.file.copy(),
            content,
        });
        let outs = self.broker.put_done(Ticket(number), &answer)?;
        self.show(alloc, &outs)
    }

    /// The store answers the last errand by a fault.
    fn fails(&mut self, alloc: Global, status: u32) -> Result<(), Memory> {
        let Some(errand) = self.errands.as_slice().last() else {
            return self.write("no errand");
        };
        let status = u16::try_from(status).unwrap_or(500);
        let answer = Err(StoreFault::BadAnswer(status));
        let outs = self.broker.put_done(errand.ticket, &answer)?;
        self.show(alloc, &outs)
    }

    fn stored(&mut self, alloc: Global) -> Result<(), Memory> {
        let done = self.broker.is_done();
        let lost = self.broker.is_lost();
        let unstored = self.broker.has_unstored();
        let line = format!(in alloc; "done {done}, lost {lost}, unstored {unstored}")?;
        self.write(line.as_str())
    }
}
