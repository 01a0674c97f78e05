//! The next input is applied.
ghost use Rattle.std.specs.Prelude.{◌≡◌, ◌<◌, ◌++◌, false, length, map, IfOk, OnOk};
ghost use Rattle.cool_frame.specs.declared.frame.Frame.TheVariants.{Invalidate as InvalidateFrame};
ghost use Rattle.document_machine.specs.Outputs.{named};
ghost use Rattle.document_machine.specs.Goes.{DoesNext};
ghost use Rattle.document_machine.specs.Saves.{has_ready_save};
ghost use Rattle.document_machine.specs.Step.{told};
ghost use Rattle.document_machine.specs.declared.outs.Turned.TheVariants.{Worked};
ghost use Rattle.broker_core.specs.Members.{views_of};
ghost use Rattle.broker_core.specs.Serving.{cache_damaged, marked_by};

use crate::core_of::{Core, Frames, frames_only};
use crate::members::Member;
use cool_base::{ListOf, Memory, ViewId};
use cool_frame::Frame;
use document_machine::Outs;
use kit_trait::{Damage, Kit};
use std::alloc::Global;
use tile_cache::TileCache;

/// Adds the frames that tell a view of each damaged rectangle, in order.
fn tell(frames: &mut Frames, id: u32, damages: &[Damage]) -> Result<(), Memory>
    ensures { OnOk result (frames.new ≡ frames.old ++ map (λ d. (named id, InvalidateFrame d.part d.rect)) damages.now) }
{
    for damage in damages {
        frames.push((
            ViewId(id),
            Frame::Invalidate {
                part: damage.part,
                rect: damage.rect,
            },
        ))?;
    }
    Ok(())
}

/// The frames that tell every view, in order of ids, of each damaged rectangle, in order.
fn told(alloc: Global, members: &[Member], damages: &[Damage]) -> Result<Frames, Memory>
    ensures { IfOk result (λ frames. frames ≡ told (views_of members.now) damages.now) }
{
    let mut frames = ListOf::new(alloc);
    for member in members {
        tell(&mut frames, member.id, damages)?;
    }
    Ok(frames)
}

/// Notes the damages in the screen of every view.
fn mark_all(members: &mut Vec<Member>, damages: &[Damage])
    ensures { members.new.items ≡ map (marked_by damages.now) members.old.items }
{
    for member in members.iter_mut() {
        member.mark(damages);
    }
}

impl Member {
    /// Notes the damages in the screen of the view, one after the other.
    fn mark(&mut self, damages: &[Damage])
        ensures { self.new ≡ marked_by damages.now self.old }
    {
        for damage in damages {
            self.view.damage(damage.part, &damage.rect);
        }
    }
}

/// Notes the damages of input number n for the tiles that are kept and for the jobs out.
fn mark_tiles(tiles: &mut TileCache, damages: &[Damage], n: u64)
    ensures { tiles.new ≡ cache_damaged damages.now n tiles.old }
{
    for damage in damages {
        tiles.damage(damage.part, &damage.rect, n);
    }
}

impl<K: Kit> Core<K> {
    /// The next input is applied. Every view, in order of ids, is told each rectangle that it damaged, and
    /// marks what it has of it; so do the tiles that are kept and the jobs out.
    pub(crate) fn apply(self) -> Result<(Core<K>, Outs<K::Scene>), Memory>
        requires no_save { has_ready_save self.document ≡ false }
        requires behind { self.document.applied < length self.document.journal }
        ensures { IfOk result (λ r. DoesNext K.rules K.cut self (Worked r.1) r.0) }
    {
        let alloc = self.allocator();
        let Core {
            mut kit,
            source,
            mut inputs,
            mut views,
            jobs,
            mut tiles,
            saves,
        } = self;
        let input = inputs.accepted[inputs.applied as usize];
        let damages = kit.input(alloc, &input)?;
        let frames = told(alloc, views.members.as_slice(), damages.as_slice())?;
        mark_all(&mut views.members, damages.as_slice());
        inputs.applied += 1;
        mark_tiles(&mut tiles, damages.as_slice(), inputs.applied);
        let core = Core {
            kit,
            source,
            inputs,
            views,
            jobs,
            tiles,
            saves,
        };
        Ok((core, frames_only(alloc, frames)))
    }
}
