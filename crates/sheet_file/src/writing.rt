//! `write_book`: the text of a book's file.
ghost use Rattle.std.specs.Prelude.{◌≡◌, ◌≤◌, IfOk, length};
ghost use Rattle.sheet_calc.specs.FileText.{file_text};
ghost use Rattle.sheet_calc.specs.declared.limits.TheConstants.{FILE_LIMIT};

use cool_base::Memory;
use cool_words::push_number;
use sheet_calc::Book;
use std::alloc::Global;

/// The one text of the book's file, which has at most 2,097,152 bytes.
#[tactic(auto, unfolding(sheet_calc::specs::FileText::file_text))]
pub fn write_book(alloc: Global, book: &Book) -> Result<Vec<u8>, Memory>
    requires { length (file_text book.now) ≤ FILE_LIMIT }
    ensures { IfOk result (λ bytes. bytes.items ≡ file_text book.now) }
{
    let mut out = Vec::new(alloc);
    out.extend_from_slice(b"coolsheet 1\nparts ".as_slice())?;
    push_number(&mut out, u64::from(book.parts()))?;
    out.push(b'\n')?;
    book.write_lines(&mut out)?;
    Ok(out)
}
