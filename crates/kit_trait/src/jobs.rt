//! Scenes on their way to a painter and back.
ghost use Rattle.std.specs.Prelude.{◌≡◌, IfOk};

use crate::traits::Scene;
use crate::values::Pixels;
use cool_base::{Memory, Ticket};
use std::alloc::Global;
use tile_key::Group;

/// A scene to be painted: for the keys of the group, cut after `number` inputs.
#[derive(Drop)]
pub struct PaintJob<S> {
    pub ticket: Ticket,
    pub number: u64,
    pub group: Group,
    pub scene: S,
}

/// A scene with its picture.
#[derive(Drop)]
pub struct Done<S: Scene> {
    pub ticket: Ticket,
    pub scene: S,
    pub pixels: Pixels,
    pub ghost painted: { pixels ≡ S.paints scene },
}

/// Paints the job's scene.
pub fn paint<S: Scene>(alloc: Global, job: PaintJob<S>) -> Result<Done<S>, Memory>
    ensures { IfOk result (λ done. (done.ticket ≡ job.ticket) × (done.scene ≡ job.scene)) }
{
    let PaintJob {
        ticket,
        number: _,
        group: _,
        scene,
    } = job;
    let pixels = scene.paint(alloc)?;
    Ok(Done {
        ticket,
        scene,
        pixels,
    })
}
