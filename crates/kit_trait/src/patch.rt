//! `PatchKit`: the patch document.
ghost use Rattle.std.specs.Prelude.{◌≡◌, ℕ, ◌<◌, List, [], ◌∷◌, length, slice_set, Some, None, IfOk, OnOk, OnErr, if◌then◌else◌};
ghost use Rattle.kit_trait.specs.Patch.{Patches, accepts_file, squares_of, patch_rules, IsPatch, typed, typed_hurt, clicked, click_hurt, damaged_square};

use crate::patch_scene::PatchScene;
use crate::traits::Kit;
use crate::values::{Damage, Input, KitName, LoadFault, What};
use cool_base::{Memory, Rect, Size};
use std::alloc::Global;
use std::collections::BTreeMap;
use tile_key::Area;

/// A document of 16 by 16 squares of 240 twips, each with a colour 0 to 255. A click raises the colour
/// of the square under it; a char becomes the colour of the square that the view clicked last.
#[derive(Drop)]
pub struct PatchKit {
    squares: [u8; 256],
    // The square that each view chose, where it chose one.
    chosen: BTreeMap<u32, u8>,
}

impl PatchKit {
    ghost use Rattle.kit_trait.specs.PatchSeen.{patches_of};

    // The char becomes the colour of the view's square.
    fn key(&mut self, alloc: Global, view: u32, chr: u32) -> Result<Vec<Damage>, Memory>
        ensures contents { OnOk result (patches_of self.new ≡ typed (patches_of self.old) view chr) }
        ensures hurt { IfOk result (λ hurt. hurt.items ≡ typed_hurt (patches_of self.old) view chr) }
        ensures err { OnErr result (patches_of self.new ≡ patches_of self.old) }
    {
        if chr == 0 {
            return Ok(Vec::new(alloc));
        }
        let square = self.chosen.get(&view).copied().unwrap_or(0);
        let colour = (chr % 256) as u8;
        let hurt = if self.squares[square as usize] == colour {
            Vec::new(alloc)
        } else {
            one_square(alloc, square)?
        };
        self.squares[square as usize] = colour;
        Ok(hurt)
    }

    // The click chooses the square at its point and raises its colour.
    fn click(&mut self, alloc: Global, view: u32, x: u32, y: u32) -> Result<Vec<Damage>, Memory>
        ensures contents { OnOk result (patches_of self.new ≡ clicked (patches_of self.old) view x y) }
        ensures hurt { IfOk result (λ hurt. hurt.items ≡ click_hurt x y) }
        ensures err { OnErr result (patches_of self.new ≡ patches_of self.old) }
    {
        if x >= 3_840 || y >= 3_840 {
            return Ok(Vec::new(alloc));
        }
        let square = (y / 240 * 16 + x / 240) as u8;
        let hurt = one_square(alloc, square)?;
        self.chosen.insert(view, square)?;
        self.squares[square as usize] = self.squares[square as usize].wrapping_add(1);
        Ok(hurt)
    }
}

// The points of one square.
fn one_square(alloc: Global, square: u8) -> Result<Vec<Damage>, Memory>
    ensures { IfOk result (λ hurt. hurt.items ≡ damaged_square square ∷ []) }
{
    let mut hurt = Vec::new(alloc);
    hurt.push(Damage {
        part: 0,
        rect: Rect {
            x: u32::from(square % 16) * 240,
            y: u32::from(square / 16) * 240,
            w: 240,
            h: 240,
        },
    })?;
    Ok(hurt)
}

// The colours of the file; None exactly where its length is neither 0 nor 256.
#[tactic(auto, unfolding(crate::specs::Patch::blank))]
fn read_squares(file: &[u8]) -> Option<[u8; 256]>
    ensures { result ≡ (if accepts_file file.now then Some (squares_of file.now) else None) }
{
    let mut squares = [0; 256];
    match file.len() {
        0 => Some(squares),
        256 => {
            squares.copy_from_slice(file);
            Some(squares)
        }
        _ => None,
    }
}

impl Kit for PatchKit {
    type Scene = PatchScene;

    ghost use Rattle.std.specs.Prelude.{◌≡◌, ℕ, List, not};
    ghost use Rattle.kit_trait.specs.Patch.{Patches, accepts_file, patch_rules, IsPatch};
    ghost use Rattle.kit_trait.specs.PatchSeen.{patches_of, patch_cut};

    ghost Contents = { Patches };

    ghost Body = { List ℕ };

    ghost rules = { patch_rules };

    ghost contents = { patches_of };

    ghost IsSound = { IsPatch };

    ghost cut = { patch_cut };

    ghost refuses = { λ file. not (accepts_file file) };

    fn load(alloc: Global, file: &[u8]) -> Result<PatchKit, LoadFault> {
        match read_squares(file) {
            Some(squares) => Ok(PatchKit {
                squares,
                chosen: BTreeMap::new(alloc),
            }),
            None => Err(LoadFault::BadFile),
        }
    }

    fn name(&self) -> KitName {
        KitName::Patch
    }

    fn parts(&self) -> u32 {
        1
    }

    fn size(&self, _part: u32) -> Size {
        Size { w: 3_840, h: 3_840 }
    }

    fn input(&mut self, alloc: Global, input: &Input) -> Result<Vec<Damage>, Memory> {
        match input.what {
            What::Key { chr, code: _ } => self.key(alloc, input.view.0, chr),
            What::Mouse {
                x,
                y,
                count: _,
                buttons: _,
                modifier: _,
            } => self.click(alloc, input.view.0, x, y),
        }
    }

    fn scene(&mut self, _alloc: Global, area: &Area) -> Result<PatchScene, Memory> {
        Ok(PatchScene {
            area: *area,
            squares: self.squares,
        })
    }

    fn save_text(&mut self, alloc: Global) -> Result<Vec<u8>, Memory> {
        Ok(Vec::from_slice(alloc, &self.squares)?)
    }

    ghost use Rattle.kit_trait.specs.PatchLaws as law;

    ghost sound_start = { law.sound_start };

    ghost sound_step = { law.sound_step };

    ghost covered = { λ c input nviewid. law.covered c input };

    ghost pictures = { λ c place sound area part. law.refl };

    ghost within = { law.within };

    ghost few = { law.few };

    ghost reads_back = { law.reads_back };

    ghost some_part = { law.some_part };

    ghost same_parts = { λ c input sound. law.refl };

    ghost same_sizes = { λ c input part sound. law.refl };
}
