//! What the text of a book's file is to the book: each law is a function with an empty body whose
//! contract is the law.
ghost use Rattle.std.specs.Prelude.{◌≡◌, ◌<◌, ◌≤◌, ℕ, List, length, Ok};
ghost use Rattle.sheet_calc.specs.Books.{Parts, IsBook};
ghost use Rattle.sheet_calc.specs.FileText.{file_text};
ghost use Rattle.sheet_file.specs.BookFile.{book_of};
ghost use Rattle.sheet_calc.specs.declared.limits.TheConstants.{FILE_LIMIT};

/// What is written of a book is read again as that book, where it is short enough for a file.
pub fn what_is_written_is_read()
    ensures { (parts : Parts) → IsBook parts → length (file_text parts) ≤ FILE_LIMIT → book_of (file_text parts) ≡ Ok parts }
{}

/// A book has one spelling: a file that has a byte and says a book is the text that is written of it,
/// and what it says is what a book can be.
pub fn one_spelling_a_book()
    ensures text { (bytes : List ℕ) (parts : Parts) → 0 < length bytes → book_of bytes ≡ Ok parts → bytes ≡ file_text parts }
    ensures book { (bytes : List ℕ) (parts : Parts) → book_of bytes ≡ Ok parts → IsBook parts }
{}
