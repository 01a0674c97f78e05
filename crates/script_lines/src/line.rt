//! One line off a source.
ghost use Rattle.std.specs.Prelude.{◌≡◌, ◌+◌, ◌<◌, ℕ, List, length};
ghost use Rattle.outside.specs.Causes.{HasCause};
ghost use Rattle.outside.specs.Streams.{Takes, IsAtEnd};
ghost use Rattle.script_lines.specs.Lines.{Gave, IfEnded};

use outside::{ReadStep, Source};

/// How many bytes a line may have, its newline left out.
const LONGEST: usize = 70_000;

/// The answer of `next_line`.
#[derive(Clone, Copy, Debug, PartialEq, Eq)]
pub enum LineStep {
    /// A line and its newline were read.
    Whole,
    /// The source ended behind a line without a newline.
    Last,
    /// The source ended, and nothing stood before its end.
    End,
    /// 70,001 bytes came without a newline.
    TooLong,
    /// The budget of bytes is used up, within a line or before one.
    Spent,
    /// The source failed.
    Failed,
    /// There was no memory for the line.
    Memory,
}

/// Reads one line into `line`, without its newline, and lowers `room` by the bytes read. Nothing
/// behind the line is read. It takes one byte at a time, so it doesn't matter in what pieces the
/// source gives them. There may be no memory for a byte that was read, never before one.
#[tactic(auto, using(crate::proofs::Moves::moves))]
pub fn next_line<S: Source>(source: &mut S, line: &mut Vec<u8>, room: &mut u64) -> LineStep
    ensures read { (read : List ℕ) × Takes (S.left source.old) read (S.left source.new) × (room.new + length read ≡ room.old) × Gave result line.new.items read }
    ensures ended { IfEnded result (IsAtEnd (S.left source.new) × (0 < room.new)) }
    ensures spent { result ≡ LineStep.Spent → room.new ≡ 0 }
    ensures less { result ≡ LineStep.Whole → room.new < room.old }
    ensures lacks { result ≡ LineStep.Memory → room.new < room.old }
    ensures cause { HasCause (S.faults source.old) (S.faults source.new) (result ≡ LineStep.Failed) }
{
    line.clear();
    while *room > 0 {
        let mut byte = [0u8; 1];
        match source.read(&mut byte) {
            ReadStep::Failed => return LineStep::Failed,
            ReadStep::End => {
                return if line.is_empty() {
                    LineStep::End
                } else {
                    LineStep::Last
                };
            }
            ReadStep::Read(_) => {}
        }
        *room -= 1;
        if byte[0] == b'\n' {
            return LineStep::Whole;
        }
        if line.len() == LONGEST {
            return LineStep::TooLong;
        }
        if line.push(byte[0]).is_err() {
            return LineStep::Memory;
        }
    }
    LineStep::Spent
}
