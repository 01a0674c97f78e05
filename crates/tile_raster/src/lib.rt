//! A canvas of pixels that rectangles are filled and texts are written on, as an area of a document
//! samples them: each pixel stands for one point of the area (`kit_trait`, "Pictures"), and a call
//! paints exactly the pixels whose points the rectangle or the text has.
//!
//! - `Canvas` (`canvas`): `new`, `fill_rect`, `draw_text`, `finish`.
//! - `strokes_come_in_order`, `the_last_stroke_is_seen` (`laws`): a finished canvas is the picture of its
//!   fills and texts in order.
#![tactic(auto)]

mod canvas;
mod fills;
mod laws;
mod letters;
mod spans;

pub use canvas::Canvas;
pub use laws::{strokes_come_in_order, the_last_stroke_is_seen};
