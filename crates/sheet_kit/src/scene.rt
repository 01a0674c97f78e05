//! `SheetScene`: what an area of a sheet document shows.
ghost use Rattle.std.specs.Prelude.{◌≡◌, IfOk};

use crate::layers::{draw_lines, draw_texts, has_lines};
use cool_base::{ListOf, Memory, TextOf};
use kit_trait::{Pixels, Scene};
use sheet_rules::ShownText;
use std::alloc::Global;
use tile_key::Area;
use tile_raster::Canvas;

/// An area with copies of the texts that its cells show, and nothing else of the document: inputs that
/// come later don't change it.
#[derive(Debug, Drop)]
pub struct SheetScene {
    pub(crate) area: Area,
    pub(crate) texts: ListOf<ShownText>,
}

impl PartialEq for SheetScene {
    ghost use Rattle.std.specs.Cmp.{partial_equiv_from_equiv};
    ghost use Rattle.std.proofs.Common.{rules};
    ghost use Rattle.sheet_kit.specs.Same.{same_by, scene_equivalence};

    ghost eq = { same_by ⟦<Area as PartialEq>⟧.eq };

    ghost laws = { partial_equiv_from_equiv (scene_equivalence ⟦<Area as PartialEq>⟧.eq (Prim.search rules) (Prim.search rules)) };

    fn eq(&self, other: &SheetScene) -> bool {
        self.area == other.area && self.texts.get() == other.texts.get()
    }
}

impl Eq for SheetScene {
    ghost use Rattle.std.proofs.Common.{rules};
    ghost use Rattle.sheet_kit.specs.Same.{scene_equivalence};

    ghost laws = { scene_equivalence ⟦<Area as PartialEq>⟧.eq (Prim.search rules) (Prim.search rules) };
}

impl Scene for SheetScene {
    ghost use Rattle.sheet_kit.specs.Seen.{scene_picture};
    ghost use Rattle.sheet_kit.specs.Same.{scene_exact};
    ghost use Rattle.std.proofs.Common.{rules};

    ghost paints = { scene_picture };

    fn paint(&self, alloc: Global) -> Result<Pixels, Memory> {
        let mut canvas = Canvas::new(alloc, self.area.width(), self.area.height())?;
        let lines = has_lines(&self.area);
        draw_lines(&mut canvas, &self.area, lines);
        draw_texts(&mut canvas, &self.area, lines, self.texts.get());
        canvas.finish()
    }

    fn copy(&self, alloc: Global) -> Result<SheetScene, Memory> {
        let texts = copy_texts(alloc, self.texts.get())?;
        Ok(SheetScene {
            area: self.area,
            texts: ListOf::of(texts),
        })
    }

    ghost exact = { scene_exact ⟦<Area as PartialEq>⟧.eq (Prim.search rules) };
}

// Equal texts.
fn copy_texts(alloc: Global, texts: &[ShownText]) -> Result<Vec<ShownText>, Memory>
    ensures { IfOk result (λ copies. copies.items ≡ texts.now) }
{
    let mut copies = Vec::with_capacity(alloc, texts.len())?;
    for shown in texts {
        let text = String::from_str(alloc, shown.text.get())?;
        copies.push(ShownText {
            row: shown.row,
            col: shown.col,
            text: TextOf::of(text),
        })?;
    }
    Ok(copies)
}
