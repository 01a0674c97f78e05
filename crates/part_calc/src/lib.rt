//! The values of the cells of one part, and what they show.
//!
//! - `Part` (`part`): the cells of a part; an edit, and which cells show another text after it.
//! - `PartDraft` (`draft`): a part that is put together before anything is computed.
//! - `recalculate` (`recalculation`): what an edit leaves, found before anything is changed.
//! - `follow` (`dependants`): the cells that an edit affects, along the cells that read a cell.
//! - `find_values` (`finding`): the values of the affected formulas, by sweeps.
//! - `Seen` (`looking`): the values of cells as far as they are found; `values_between` (`ranges`): those of
//!   the cells of a range, of which the ones alone are gone through that are there.
//! - `Index` (`lanes`): which formulas name a cell; `Fates` (`shown`): what becomes of formulas.
//! - `commit` and its like (`keeping`): what is kept, from one edit to the next.
//! - `Edited` (`edited`): a part as it is once a cell has another text.
//! - `Cell`, `Content` (`contents`): a raw text and what it says.
//! - `laws`: what the values of cells are, whatever finds them.
#![tactic(auto)]

mod contents;
mod dependants;
mod draft;
mod edited;
mod finding;
mod keeping;
mod lanes;
mod laws;
mod lengths;
mod lines;
mod looking;
mod part;
mod positions;
mod ranges;
mod readers;
mod recalculation;
mod shown;

pub use draft::PartDraft;
pub use laws::{circular_cells_never_end, other_cells_stay, values_are_determined, values_follow};
pub use lengths::{digits, line_len_at};
pub use part::Part;
