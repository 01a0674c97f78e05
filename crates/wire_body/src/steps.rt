// One byte of a body.
ghost use Rattle.std.specs.Prelude.{◌≡◌, ◌<◌, ◌≤◌, if◌then◌else◌};
ghost use Rattle.std.specs.Char.{is_ascii_hexdigit, digit_value};
ghost use Rattle.wire_body.specs.Bodies.{no_body, body_of, chunked_body, open_body, in_phase, on_new_line, expects, taken, with_digit, behind_size, behind_size_line, ends_line, line_step, within_line, step, is_content, behind, is_final, framing_at};

use crate::states::{BODY_LIMIT, BodyState, LINE_LIMIT, Phase};
use httparse::{is_header_name_token, is_header_value_token, parse_hex_digit};

impl Phase {
    /// Whether the next byte is content.
    pub fn is_content(self) -> bool
        ensures { result ≡ is_content self }
    {
        matches!(self, Phase::Counted | Phase::Open | Phase::Data)
    }

    // The phase behind the last byte of content.
    pub(crate) fn behind(self) -> Phase
        ensures { result ≡ behind self }
    {
        match self {
            Phase::Counted => Phase::Done,
            Phase::Open => Phase::Full,
            Phase::Data => Phase::DataEnd,
            other => other,
        }
    }

    // 1 where the next byte is framing of chunks, else 0.
    pub(crate) fn framing(self) -> usize
        ensures { result ≡ framing_at self }
    {
        match self {
            Phase::Size
            | Phase::Digits
            | Phase::Pad
            | Phase::Extension
            | Phase::SizeEnd
            | Phase::DataEnd
            | Phase::DataFeed
            | Phase::Trailer
            | Phase::Name
            | Phase::Value
            | Phase::ValueEnd
            | Phase::LastEnd => 1,
            _ => 0,
        }
    }

    /// Whether no byte changes anything any more.
    pub fn is_final(self) -> bool
        ensures { result ≡ is_final self }
    {
        matches!(self, Phase::Done | Phase::TooLong | Phase::Bad)
    }
}

impl BodyState {
    /// A message without a body.
    pub fn none() -> BodyState
        ensures { result ≡ no_body }
    {
        BodyState {
            phase: Phase::Done,
            left: 0,
            room: 0,
            line: 0,
        }
    }

    /// A body of so many bytes.
    pub fn of_length(len: u64) -> BodyState
        ensures { result ≡ body_of len }
    {
        let none = BodyState::none();
        if len == 0 {
            return none;
        }
        if len > u64::from(BODY_LIMIT) {
            return none.moved(Phase::TooLong);
        }
        BodyState {
            phase: Phase::Counted,
            left: len as u32,
            ..none
        }
    }

    /// A body in chunks.
    pub fn chunked() -> BodyState
        ensures { result ≡ chunked_body }
    {
        BodyState {
            phase: Phase::Size,
            left: 0,
            room: BODY_LIMIT,
            line: LINE_LIMIT,
        }
    }

    /// A body that has all bytes to the end of the wire.
    pub fn to_the_end() -> BodyState
        ensures { result ≡ open_body }
    {
        BodyState {
            phase: Phase::Open,
            left: BODY_LIMIT,
            room: 0,
            line: 0,
        }
    }

    fn moved(self, phase: Phase) -> BodyState
        ensures { result ≡ in_phase phase self }
    {
        BodyState { phase, ..self }
    }

    fn on_new_line(self, phase: Phase) -> BodyState
        ensures { result ≡ on_new_line phase self }
    {
        BodyState {
            phase,
            left: 0,
            line: LINE_LIMIT,
            ..self
        }
    }

    // `next` behind the wanted byte, and Bad behind any other.
    fn expect(self, wanted: u8, next: BodyState, byte: u8) -> BodyState
        ensures { result ≡ expects wanted next self byte }
    {
        if byte == wanted {
            next
        } else {
            self.moved(Phase::Bad)
        }
    }

    // Behind so many bytes of content.
    pub(crate) fn taken(self, next: Phase, count: u32) -> BodyState
        ensures { result ≡ taken next count self }
    {
        if self.left <= count {
            BodyState {
                phase: next,
                left: 0,
                ..self
            }
        } else {
            BodyState {
                left: self.left - count,
                ..self
            }
        }
    }

    fn with_digit(self, byte: u8, digit: u64) -> BodyState
        requires value { digit ≡ digit_value byte }
        requires below { digit < 16 }
        ensures { result ≡ with_digit self byte }
    {
        let size = 16 * u64::from(self.left) + digit;
        if size <= u64::from(self.room) {
            BodyState {
                phase: Phase::Digits,
                left: size as u32,
                ..self
            }
        } else {
            self.moved(Phase::TooLong)
        }
    }

    fn behind_size(self, byte: u8) -> BodyState
        ensures { result ≡ behind_size self byte }
    {
        match byte {
            b' ' | b'\t' => self.moved(Phase::Pad),
            b';' => self.moved(Phase::Extension),
            _ => self.expect(b'\r', self.moved(Phase::SizeEnd), byte),
        }
    }

    fn behind_size_line(self) -> BodyState
        ensures { result ≡ behind_size_line self }
    {
        if self.left == 0 {
            self.on_new_line(Phase::Trailer)
        } else {
            BodyState {
                phase: Phase::Data,
                room: self.room.saturating_sub(self.left),
                ..self
            }
        }
    }

    // A line feed leads to `next`, a carriage return to the phase in which it is due.
    fn ends_line(self, feed: Phase, next: Phase, byte: u8) -> BodyState
        ensures { result ≡ ends_line feed (in_phase next self) self byte }
    {
        if byte == b'\r' {
            self.moved(feed)
        } else {
            self.expect(b'\n', self.moved(next), byte)
        }
    }

    fn size_step(self, byte: u8) -> BodyState
        ensures { result ≡ (if is_ascii_hexdigit byte then with_digit self byte else in_phase Phase.Bad self) }
    {
        match parse_hex_digit(byte) {
            Some(digit) => self.with_digit(byte, digit),
            None => self.moved(Phase::Bad),
        }
    }

    fn digits_step(self, byte: u8) -> BodyState
        ensures { result ≡ (if is_ascii_hexdigit byte then with_digit self byte else behind_size self byte) }
    {
        match parse_hex_digit(byte) {
            Some(digit) => self.with_digit(byte, digit),
            None => self.behind_size(byte),
        }
    }

    fn extension_step(self, byte: u8) -> BodyState
        ensures { result ≡ line_step Phase.Extension self byte }
    {
        match byte {
            b'\r' => self.moved(Phase::SizeEnd),
            b'\n' => self.moved(Phase::Bad),
            _ => self,
        }
    }

    fn trailer_step(self, byte: u8) -> BodyState
        ensures { result ≡ line_step Phase.Trailer self byte }
    {
        if is_header_name_token(byte) {
            self.moved(Phase::Name)
        } else {
            self.ends_line(Phase::LastEnd, Phase::Done, byte)
        }
    }

    fn name_step(self, byte: u8) -> BodyState
        ensures { result ≡ line_step Phase.Name self byte }
    {
        if is_header_name_token(byte) {
            self
        } else {
            self.expect(b':', self.moved(Phase::Value), byte)
        }
    }

    fn value_step(self, byte: u8) -> BodyState
        ensures { result ≡ line_step Phase.Value self byte }
    {
        if is_header_value_token(byte) {
            self
        } else {
            self.ends_line(Phase::ValueEnd, Phase::Trailer, byte)
        }
    }

    fn line_step(self, phase: Phase, byte: u8) -> BodyState
        ensures { result ≡ line_step phase self byte }
    {
        match phase {
            Phase::Size => self.size_step(byte),
            Phase::Digits => self.digits_step(byte),
            Phase::Pad => self.behind_size(byte),
            Phase::Extension => self.extension_step(byte),
            Phase::SizeEnd => self.expect(b'\n', self.behind_size_line(), byte),
            Phase::Trailer => self.trailer_step(byte),
            Phase::Name => self.name_step(byte),
            Phase::Value => self.value_step(byte),
            Phase::ValueEnd => self.expect(b'\n', self.moved(Phase::Trailer), byte),
            Phase::LastEnd => self.expect(b'\n', self.moved(Phase::Done), byte),
            _ => self,
        }
    }

    fn within_line(self, byte: u8) -> BodyState
        ensures { result ≡ within_line self byte }
    {
        if self.line == 0 {
            return self.moved(Phase::Bad);
        }
        let counted = BodyState {
            line: self.line - 1,
            ..self
        };
        counted.line_step(self.phase, byte)
    }

    /// The state behind one more byte.
    pub fn step(self, byte: u8) -> BodyState
        ensures { result ≡ step self byte }
    {
        match self.phase {
            Phase::Counted => self.taken(Phase::Done, 1),
            Phase::Open => self.taken(Phase::Full, 1),
            Phase::Full => self.moved(Phase::TooLong),
            Phase::Data => self.taken(Phase::DataEnd, 1),
            Phase::DataEnd => self.expect(b'\r', self.moved(Phase::DataFeed), byte),
            Phase::DataFeed => self.expect(b'\n', self.on_new_line(Phase::Size), byte),
            Phase::Done | Phase::TooLong | Phase::Bad => self,
            _ => self.within_line(byte),
        }
    }
}
