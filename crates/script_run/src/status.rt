//! How a script ends.

/// The status of a script.
#[derive(Clone, Copy, Debug, PartialEq, Eq)]
pub enum Status {
    /// The line `end` was read and all was written.
    Done,
    /// The words on the command line are none of the forms.
    WrongWords,
    /// A line is not in the grammar, or not where it stands.
    FaultLine,
    /// The source failed.
    ReadFault,
    /// The sink failed.
    WriteFault,
    /// There was no memory.
    Memory,
    /// No line `end` came in time.
    NoEnd,
}
