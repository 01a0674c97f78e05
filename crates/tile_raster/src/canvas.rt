//! `Canvas`.
ghost use Rattle.std.specs.Prelude.{◌≡◌, ℕ, ◌≤◌, ◌&&◌, IfOk};
ghost use Rattle.std.specs.Str.{chars};
ghost use Rattle.cool_base.specs.Points.{has_point};
ghost use Rattle.tile_key.specs.Places.{Place};
ghost use Rattle.kit_trait.specs.Pictures.{Colour, picture};
ghost use Rattle.tile_raster.specs.Painting.{IsBlank, IsPainted, Shows, colour_of, pixels_of};
ghost use Rattle.tile_raster.specs.Lettering.{text_dot, black};

use crate::fills::fill_points;
use crate::letters::write_letters;
use bytes::Bytes;
use cool_base::{Memory, Rect};
use kit_trait::Pixels;
use std::alloc::Global;
use std::marker::Model;
use tile_key::Area;

/// 1 to 2,048 by 1 to 256 pixels, with red, green, blue and alpha of each.
#[derive(Debug, Drop)]
pub struct Canvas {
    width: u32,
    height: u32,
    // Four bytes a pixel, row by row.
    rgba: Vec<u8>,
}

impl Model for Canvas {
    ghost use Rattle.std.specs.Prelude.{◌≡◌, ◌*◌, ◌≤◌, length};
    ghost use Rattle.tile_raster.specs.Painting.{Painting};

    ghost Value = { Painting };

    ghost view = { λ a. record { width = a.width; height = a.height; rgba = a.rgba.items } };

    ghost invariant = { λ a. (length a.rgba.items ≡ 4 * (a.height * a.width)) × (a.width ≤ 2048) × (a.height ≤ 256) };
}

impl Canvas {
    /// A white canvas of so many pixels.
    pub fn new(alloc: Global, width: u32, height: u32) -> Result<Canvas, Memory>
        requires some_width { 1 ≤ width }
        requires width { width ≤ 2048 }
        requires some_height { 1 ≤ height }
        requires height { height ≤ 256 }
        ensures { IfOk result (λ canvas. IsBlank width height canvas) }
    {
        let rgba = Vec::from_elem(alloc, 255, 4 * (height as usize * width as usize))?;
        Ok(Canvas {
            width,
            height,
            rgba,
        })
    }

    /// Gives the colour, red, green, blue and alpha, to exactly the pixels whose sampled point lies in the
    /// rectangle. The area, which says where the pixels sample, has the canvas's size. It takes no memory.
    pub fn fill_rect(&mut self, area: &Area, rect: &Rect, colour: [u8; 4])
        requires width { area.now.width ≡ self.old.width }
        requires height { area.now.height ≡ self.old.height }
        ensures { IsPainted area.now (has_point rect.now) (colour_of colour) self.old self.new }
    {
        fill_points(&mut self.rgba, area, rect, colour);
    }

    /// Gives black to exactly the pixels whose sampled point lies in the clip and on a dot of the text that
    /// begins at x, y, in twips: letters stand side by side, each 90 twips wide and 120 high, and a dot has
    /// 15 by 15 twips. The area, which says where the pixels sample, has the canvas's size. It takes no
    /// memory.
    pub fn draw_text(&mut self, area: &Area, x: u32, y: u32, clip: &Rect, text: &str)
        requires width { area.now.width ≡ self.old.width }
        requires height { area.now.height ≡ self.old.height }
        ensures { IsPainted area.now (λ px py. has_point clip.now px py && text_dot x y (chars text.now) px py) black self.old self.new }
    {
        write_letters(&mut self.rgba, area, x, y, clip, text);
    }

    /// The pixels: the bytes of each, row by row. Where each has the colour of the point that it samples,
    /// they are the picture of these points.
    pub fn finish(self) -> Result<Pixels, Memory>
        ensures pixels { IfOk result (λ pixels. pixels ≡ pixels_of self) }
        ensures picture { IfOk result (λ pixels. (colour : ℕ → ℕ → ℕ → Colour) (p : Place) → Shows colour p self → pixels ≡ picture colour p) }
    {
        let Canvas {
            width,
            height,
            rgba,
        } = self;
        Ok(Pixels {
            width,
            height,
            rgba: Bytes::from_vec(rgba)?,
        })
    }
}
