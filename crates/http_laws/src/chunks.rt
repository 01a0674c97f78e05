// What is written in chunks is read, and nothing else.
ghost use Rattle.std.specs.Prelude.{◌≡◌, Bool, List, ◌++◌, ℕ, Some, Ok};
ghost use Rattle.wire_body.specs.Bodies.{body_says, chunked_body};
ghost use Rattle.http_laws.specs.Spellings.{Spelling, IsSpelling, print_spelling, content};

/// A body that is written in chunks is read again: any number of digits in a size, any extensions,
/// any trailers, as far as their limits go, and whatever comes after it.
pub fn chunks_are_read_again()
    ensures { (m : Spelling) (behind : List ℕ) (ended : Bool) → IsSpelling m → body_says chunked_body (print_spelling m ++ behind) ended ≡ Some (Ok (content m)) }
{}

/// Bytes that are read as a body in chunks begin with a spelling of it.
pub fn read_chunks_are_spelled()
    ensures { (bytes body : List ℕ) (ended : Bool) → body_says chunked_body bytes ended ≡ Some (Ok body) → (m : Spelling) × IsSpelling m × (body ≡ content m) × ((rest : List ℕ) × (bytes ≡ print_spelling m ++ rest)) }
{}
