//! Why a file says no book.
ghost use Rattle.std.specs.Prelude.{◌≡◌};
ghost use Rattle.sheet_file.specs.declared.fault.BookFault.TheVariants.{Memory};

use thiserror::Error;

/// Why a file says no book: the first of these that applies, in this order, and of lines the first one.
/// Lines are counted from 1. `Memory` may come in place of a book, and of a fault of a line behind the
/// first two.
#[derive(Clone, Copy, Debug, PartialEq, Eq, Error)]
pub enum BookFault {
    #[error("more than 2,097,152 bytes")]
    TooLarge,
    /// The first line isn't `coolsheet 1`.
    #[error("the first line is not `coolsheet 1`")]
    NoHeader,
    /// The line isn't of its form, is not UTF-8, or has no newline at its end; or there is no second
    /// line.
    #[error("line {0} is out of form")]
    BadLine(u32),
    /// The line's cell doesn't come after that of the line before.
    #[error("line {0} is out of order")]
    OutOfOrder(u32),
    #[error("out of memory")]
    Memory,
}

impl From<cool_base::Memory> for BookFault {
    ghost from_gives = { λ _ fault. fault ≡ Memory };

    fn from(_error: cool_base::Memory) -> BookFault {
        BookFault::Memory
    }
}
