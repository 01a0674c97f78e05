//! What every other crate stands on: ids, rectangles, decimal numbers, file ids, tokens, lists that
//! contracts see as lists, and `Memory`, the answer for want of memory. It reads no input and keeps
//! no state.
//!
//! - `Memory` (`want`): no memory was left.
//! - `ListOf`, `TextOf` (`lists`): a `Vec` and a `String` that contracts see as plain lists.
//! - `DocId`, `ViewId`, `LinkId`, `Wid`, `Ticket`, `Wids` (`ids`).
//! - `Rect`, `Size`, `meets`, `cut` (`points`): rectangles as sets of points.
//! - `read_u31`, `read_u64` (`numbers`): decimal numbers.
//! - `FileId` (`files`), `Token` (`tokens`): text whose type keeps its form.
#![tactic(auto)]

mod files;
mod ids;
mod lists;
mod numbers;
mod points;
mod tokens;
mod want;

pub use files::FileId;
pub use ids::{DocId, LinkId, Ticket, ViewId, Wid, Wids};
pub use lists::{ListOf, TextOf};
pub use numbers::{read_number, read_u31, read_u64, written_numbers_are_read};
pub use points::{Rect, Size, cut, meets};
pub use tokens::Token;
pub use want::Memory;
