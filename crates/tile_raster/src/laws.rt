//! Laws of canvases over whole runs of calls. Each is a function with an empty body whose contract is the
//! law.
ghost use Rattle.std.specs.Prelude.{◌≡◌, ℕ, List, [], ◌∷◌, ◌++◌, if◌then◌else◌};
ghost use Rattle.tile_key.specs.Places.{Place};
ghost use Rattle.kit_trait.specs.Pictures.{picture};
ghost use Rattle.tile_raster.specs.Painting.{Painting, IsBlank, Shows, pixels_of};
ghost use Rattle.tile_raster.specs.Strokes.{Stroke, has, ink, stroked, Follows};

/// A canvas that was blank and then was filled and written on shows its strokes in order: each pixel has
/// the colour that they leave at the point that it samples, and all pixels are the picture of the area in
/// these colours.
pub fn strokes_come_in_order()
    ensures pixels { (area : Place) (strokes : List Stroke) (blank new : Painting) → IsBlank area.width area.height blank → Follows area blank strokes new → Shows (λ part. stroked strokes) area new }
    ensures picture { (area : Place) (strokes : List Stroke) (blank new : Painting) → IsBlank area.width area.height blank → Follows area blank strokes new → pixels_of new ≡ picture (λ part. stroked strokes) area }
{}

/// The last stroke that has a point gives it its colour.
pub fn the_last_stroke_is_seen()
    ensures { (strokes : List Stroke) (last : Stroke) (px py : ℕ) → stroked (strokes ++ last ∷ []) px py ≡ (if has last px py then ink last else stroked strokes px py) }
{}
