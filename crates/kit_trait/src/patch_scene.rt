//! `PatchScene`: what an area of a patch document shows.
ghost use Rattle.std.specs.Prelude.{◌≡◌, ◌++◌, ◌<◌, OnOk, IfOk};
ghost use Rattle.kit_trait.specs.Pictures.{row, picture};
ghost use Rattle.kit_trait.specs.Patch.{shade, colour_of};

use crate::traits::Scene;
use crate::values::Pixels;
use bytes::Bytes;
use cool_base::Memory;
use std::alloc::Global;
use tile_key::Area;

/// The colours of all squares and the area that is shown.
#[derive(Clone, Copy, Debug, PartialEq, Eq)]
pub struct PatchScene {
    pub(crate) area: Area,
    pub(crate) squares: [u8; 256],
}

impl Scene for PatchScene {
    ghost use Rattle.kit_trait.specs.PatchSeen.{scene_picture};

    ghost paints = { scene_picture };

    fn paint(&self, alloc: Global) -> Result<Pixels, Memory> {
        let width = self.area.width();
        let height = self.area.height();
        let rgba = paint_rows(alloc, &self.squares, &self.area)?;
        Ok(Pixels {
            width,
            height,
            rgba: Bytes::from_vec(rgba)?,
        })
    }

    fn copy(&self, _alloc: Global) -> Result<PatchScene, Memory> {
        Ok(*self)
    }

    ghost use Rattle.std.proofs.Common.{rules};

    ghost exact = { Prim.search rules };
}

// The rows of the area's picture.
#[tactic(auto, using(crate::proofs::PatchPainting::pushed))]
fn paint_rows(alloc: Global, squares: &[u8; 256], area: &Area) -> Result<Vec<u8>, Memory>
    ensures { IfOk result (λ rgba. rgba.items ≡ (picture (colour_of squares.now) area.now).rgba) }
{
    let mut rgba = Vec::with_capacity(alloc, 4 * area.width() as usize * area.height() as usize)?;
    for j in 0..area.height() {
        paint_row(&mut rgba, squares, area, j)?;
    }
    Ok(rgba)
}

// Adds one row of the area's picture.
#[tactic(auto, using(crate::proofs::PatchPainting::pushed))]
fn paint_row(rgba: &mut Vec<u8>, squares: &[u8; 256], area: &Area, j: u32) -> Result<(), Memory>
    requires { j < area.now.height }
    ensures { OnOk result (rgba.new.items ≡ rgba.old.items ++ row (colour_of squares.now) area.now j area.now.width) }
{
    let y = area.posy() + j * area.tileheight() / area.height();
    for i in 0..area.width() {
        let x = area.posx() + i * area.tilewidth() / area.width();
        let shade = shade(squares, area.part(), x, y);
        rgba.extend_from_slice(&[shade, shade, shade, 255])?;
    }
    Ok(())
}

// The shade of a point: its square's inside the document, 255 outside it.
fn shade(squares: &[u8; 256], part: u32, x: u32, y: u32) -> u8
    ensures { result ≡ shade squares.now part x y }
{
    if part != 0 || x >= 3_840 || y >= 3_840 {
        return 255;
    }
    squares[(y / 240 * 16 + x / 240) as usize]
}
