// How far the bytes of a head have come in its grammar, one byte after another.
ghost use Rattle.std.specs.Prelude.{◌≡◌, ◌==◌, nat_lt, true, if◌then◌else◌, drop};
ghost use Rattle.http_head.specs.Requests.{BeginsRequest};
ghost use Rattle.http_head.specs.Responses.{BeginsResponse};
ghost use Rattle.http_head.specs.Phases.{letter_byte, behind_letter, behind_version, wanted, end_step, word_step, first_step, blank_step, digit_step, line_step, step, steps, is_open, Leads, IsOpen, Opens};

use httparse::{is_header_name_token, is_header_value_token, is_method_token};

/// What a head is of.
#[derive(Clone, Copy, Debug, PartialEq, Eq)]
pub enum Opening {
    /// A request.
    Request,
    /// A response.
    Response,
}

/// The letters of `HTTP/1.`.
#[derive(Clone, Copy, Debug, PartialEq, Eq)]
pub enum Letter {
    H,
    FirstT,
    SecondT,
    P,
    Slash,
    One,
    Dot,
}

/// What the next byte of a head may be. A number is how many lines of names and values may still
/// begin, but for the digits of a status.
#[derive(Clone, Copy, Debug, PartialEq, Eq)]
pub enum HeadPhase {
    /// An empty line's, or the first byte of the first line.
    Blank(Opening),
    /// The line feed of an empty line.
    BlankFeed(Opening),
    /// A further byte of the method, or the blank.
    Method,
    /// The first byte of the target.
    TargetStart,
    /// A further byte of the target, or the blank.
    Target,
    /// This letter of the version.
    Version(Opening, Letter),
    /// The version's last digit.
    Minor(Opening),
    /// The end of a request's first line.
    VersionEnd,
    /// The blank before a status.
    StatusBlank,
    /// A digit of the status, of which so many are to come, or what is behind the last.
    Digits(u8),
    /// The line feed of a line.
    LineFeed(u8),
    /// The first byte of a line.
    Line(u8),
    /// A further byte of a name, or the colon.
    Name(u8),
    /// A byte of a value or of a reason, or the line's end.
    Value(u8),
    /// Not followed: a head that is whole or none, or the empty line at its end.
    Lost,
}

// One line more than a head may have.
const OPEN_LINES: u8 = 65;

impl Letter {
    fn byte(self) -> u8
        ensures { result ≡ letter_byte self }
    {
        match self {
            Letter::H => b'H',
            Letter::FirstT => b'T',
            Letter::SecondT => b'T',
            Letter::P => b'P',
            Letter::Slash => b'/',
            Letter::One => b'1',
            Letter::Dot => b'.',
        }
    }

    fn behind(self, opening: Opening) -> HeadPhase
        ensures { result ≡ behind_letter opening self }
    {
        match self {
            Letter::H => HeadPhase::Version(opening, Letter::FirstT),
            Letter::FirstT => HeadPhase::Version(opening, Letter::SecondT),
            Letter::SecondT => HeadPhase::Version(opening, Letter::P),
            Letter::P => HeadPhase::Version(opening, Letter::Slash),
            Letter::Slash => HeadPhase::Version(opening, Letter::One),
            Letter::One => HeadPhase::Version(opening, Letter::Dot),
            Letter::Dot => HeadPhase::Minor(opening),
        }
    }
}

// `next` behind the wanted byte.
fn wanted(byte: u8, next: HeadPhase, came: u8) -> HeadPhase
    ensures { result ≡ wanted byte next came }
{
    if came == byte { next } else { HeadPhase::Lost }
}

// Behind a byte of a line's end.
fn end_step(left: u8, byte: u8) -> HeadPhase
    ensures { result ≡ end_step left byte }
{
    if byte == b'\n' {
        return HeadPhase::Line(left);
    }
    wanted(b'\r', HeadPhase::LineFeed(left), byte)
}

// Still there where the byte passes, and `next` behind the wanted one.
fn word_step(passes: bool, here: HeadPhase, byte: u8, next: HeadPhase, came: u8) -> HeadPhase
    ensures { result ≡ word_step passes here byte next came }
{
    if passes {
        return here;
    }
    wanted(byte, next, came)
}

// Behind the first byte of the first line.
fn first_step(opening: Opening, byte: u8) -> HeadPhase
    ensures { result ≡ first_step opening byte }
{
    match opening {
        Opening::Request => {
            if is_method_token(byte) {
                HeadPhase::Method
            } else {
                HeadPhase::Lost
            }
        }
        Opening::Response => wanted(b'H', HeadPhase::Version(opening, Letter::FirstT), byte),
    }
}

// Behind a byte before the first line.
fn blank_step(opening: Opening, byte: u8) -> HeadPhase
    ensures { result ≡ blank_step opening byte }
{
    if byte == b'\n' {
        return HeadPhase::Blank(opening);
    }
    if byte == b'\r' {
        return HeadPhase::BlankFeed(opening);
    }
    first_step(opening, byte)
}

// Behind the version.
fn behind_version(opening: Opening) -> HeadPhase
    ensures { result ≡ behind_version opening }
{
    match opening {
        Opening::Request => HeadPhase::VersionEnd,
        Opening::Response => HeadPhase::StatusBlank,
    }
}

// Behind the version's last digit.
fn minor_step(opening: Opening, byte: u8) -> HeadPhase
    ensures { result ≡ step (HeadPhase.Minor opening) byte }
{
    if byte == b'0' || byte == b'1' {
        behind_version(opening)
    } else {
        HeadPhase::Lost
    }
}

// Behind a byte of the status, of which so many digits were to come.
fn digit_step(left: u8, byte: u8) -> HeadPhase
    ensures { result ≡ digit_step left byte }
{
    if left == 0 {
        if byte == b' ' {
            return HeadPhase::Value(OPEN_LINES);
        }
        return end_step(OPEN_LINES, byte);
    }
    if byte.is_ascii_digit() {
        HeadPhase::Digits(left - 1)
    } else {
        HeadPhase::Lost
    }
}

// Behind the first byte of a line, where so many may still begin.
fn line_step(left: u8, byte: u8) -> HeadPhase
    ensures { result ≡ line_step left byte }
{
    if left == 0 {
        return HeadPhase::Lost;
    }
    if is_header_name_token(byte) {
        HeadPhase::Name(left - 1)
    } else {
        HeadPhase::Lost
    }
}

// Behind a byte of a value or of a reason.
fn value_step(left: u8, byte: u8) -> HeadPhase
    ensures { result ≡ step (HeadPhase.Value left) byte }
{
    if is_header_value_token(byte) {
        return HeadPhase::Value(left);
    }
    end_step(left, byte)
}

// Behind the first byte of a target.
fn target_step(byte: u8) -> HeadPhase
    ensures { result ≡ step HeadPhase.TargetStart byte }
{
    if byte.is_ascii_graphic() {
        HeadPhase::Target
    } else {
        HeadPhase::Lost
    }
}

impl HeadPhase {
    /// Before a request.
    pub fn of_request() -> HeadPhase
        ensures { Opens BeginsRequest result }
    {
        HeadPhase::Blank(Opening::Request)
    }

    /// Before a response.
    pub fn of_response() -> HeadPhase
        ensures { Opens BeginsResponse result }
    {
        HeadPhase::Blank(Opening::Response)
    }

    // Behind one byte.
    fn step(self, byte: u8) -> HeadPhase
        ensures { result ≡ step self byte }
    {
        match self {
            HeadPhase::Blank(opening) => blank_step(opening, byte),
            HeadPhase::BlankFeed(opening) => wanted(b'\n', HeadPhase::Blank(opening), byte),
            HeadPhase::Method => {
                let passes = is_method_token(byte);
                word_step(passes, self, b' ', HeadPhase::TargetStart, byte)
            }
            HeadPhase::TargetStart => target_step(byte),
            HeadPhase::Target => {
                let next = HeadPhase::Version(Opening::Request, Letter::H);
                word_step(byte.is_ascii_graphic(), self, b' ', next, byte)
            }
            HeadPhase::Version(opening, letter) => {
                wanted(letter.byte(), letter.behind(opening), byte)
            }
            HeadPhase::Minor(opening) => minor_step(opening, byte),
            HeadPhase::VersionEnd => end_step(OPEN_LINES, byte),
            HeadPhase::StatusBlank => wanted(b' ', HeadPhase::Digits(3), byte),
            HeadPhase::Digits(left) => digit_step(left, byte),
            HeadPhase::LineFeed(left) => wanted(b'\n', HeadPhase::Line(left), byte),
            HeadPhase::Line(left) => line_step(left, byte),
            HeadPhase::Name(left) => {
                let passes = is_header_name_token(byte);
                word_step(passes, self, b':', HeadPhase::Value(left), byte)
            }
            HeadPhase::Value(left) => value_step(left, byte),
            HeadPhase::Lost => HeadPhase::Lost,
        }
    }

    // Whether a head can end from there, with two lines' ends or more.
    fn is_followed(self) -> bool
        ensures { result ≡ is_open self }
    {
        match self {
            HeadPhase::Line(left) => left > 0,
            HeadPhase::Lost => false,
            _ => true,
        }
    }

    // Behind these bytes.
    fn steps(self, bytes: &[u8]) -> HeadPhase
        ensures { result ≡ steps self bytes.now }
    {
        let mut phase = self;
        for byte in bytes {
            phase = phase.step(*byte);
        }
        phase
    }

    /// The phase after these bytes. Each byte is looked at once.
    pub fn after(self, bytes: &[u8]) -> HeadPhase
        ensures { Leads self bytes.now result }
    {
        self.steps(bytes)
    }

    /// Whether the bytes that led there are known to begin a head. They aren't where a head is
    /// whole or none, nor in the empty line at its end: there `scan_head` and `scan_response_head`
    /// tell.
    pub fn is_open(self) -> bool
        ensures { result ≡ true → IsOpen self }
    {
        self.is_followed()
    }
}
