//! What an input damages, as rectangles: at most 256, or the one that holds them all.
//!
//! - `damage_in` (`rectangles`): the damage of rectangles.
//! - `damage_of` (`cells`): the damage of cells, of which those side by side make one rectangle.
//! - `Stretch` (`stretches`): cells side by side.
//! - `laws`: that damage has its points, and few rectangles.
//! - `limits`: how large a cell is, and how many rectangles there are.
#![tactic(auto)]

mod cells;
mod laws;
mod limits;
mod rectangles;
mod stretches;

pub use cells::damage_of;
pub use laws::{damage_has_its_points, damage_is_of_few_rectangles};
pub use limits::{CELL_HEIGHT, CELL_WIDTH, MOST_RECTANGLES};
pub use rectangles::damage_in;
pub use stretches::Stretch;
