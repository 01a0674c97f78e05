//! The file of a book: what its bytes say, and what is written of a book.
//!
//! - `read_book` (`reading`): the book that a file says, or the first thing that is wrong with it.
//! - `write_book` (`writing`): the one text of a book.
//! - `laws`: what is written of a book is read again, and a book has one spelling.
//! - `BookFault` (`fault`): why a file says no book.
#![tactic(auto)]

mod fault;
mod laws;
mod lines;
mod reading;
mod writing;

pub use fault::BookFault;
pub use laws::{one_spelling_a_book, what_is_written_is_read};
pub use reading::read_book;
pub use writing::write_book;
