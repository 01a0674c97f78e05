//! What a broker answers: frames for its views, jobs for a painter, and errands for a store.
use cool_base::{ListOf, ViewId};
use cool_frame::Frame;
use kit_trait::PaintJob;
use outside::Errand;

/// What one call of a broker gives out, in order.
#[derive(Drop)]
pub struct Outs<S> {
    /// Frames, each with the view that it goes to.
    pub frames: ListOf<(ViewId, Frame)>,
    /// Tiles to paint.
    pub jobs: ListOf<PaintJob<S>>,
    /// Contents to store.
    pub errands: ListOf<Errand>,
}

/// What one turn of a broker did.
#[derive(Drop)]
pub enum Turned<S> {
    /// It did one work.
    Worked(Outs<S>),
    /// There was nothing to do.
    Idle,
}
