//! What the lock asks of its value.
ghost use Rattle.std.specs.Prelude.{◌≡◌, List, length};

/// A value with a ground, which no turn changes, and a list of entries, to which a turn adds at
/// most one. Both are for contracts alone; the code has only the list's length.
pub trait Booked: Drop {
    type Entry: Drop;

    type Ground: Drop;

    ghost footing: { Self → Self.Ground };

    ghost book: { Self → List Self.Entry };

    /// The length of the list.
    fn count(&self) -> u64
        ensures { result ≡ length (book self.now) };
}
