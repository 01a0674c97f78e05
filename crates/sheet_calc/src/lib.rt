//! `Book`: the cells of a whole sheet document, with what they show.
//!
//! - `Book` (`book`): the parts; an edit, and which cells show another text after it.
//! - `BookDraft` (`draft`): a book that is put together before anything is computed.
//! - `Changed` (`changed`): the cells that an edit changed.
//! - `is_raw` (`raws`): which raw texts a cell may have.
//! - `FILE_LIMIT` (`limits`): the most bytes of a file.
#![tactic(auto)]

mod book;
mod changed;
mod draft;
mod limits;
mod raws;

pub use book::Book;
pub use changed::Changed;
pub use draft::BookDraft;
pub use limits::FILE_LIMIT;
pub use raws::is_raw;
