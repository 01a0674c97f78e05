// What the lines of a head say of the body.
ghost use Rattle.std.specs.Prelude.{◌≡◌};
ghost use Rattle.http_head.specs.Framings.{length_said, coding_said, line_said, same_length, said_together, request_framing, said_framing, framing_for, response_framing};

use crate::fields::is_named;
use cool_base::read_number;
use http_message::is_bodiless;

/// The body behind a head.
#[derive(Clone, Copy, Debug, PartialEq, Eq)]
pub enum Framing {
    /// No body.
    Empty,
    /// So many bytes, below 10^19.
    Sized(u64),
    /// Chunks up to the last one and its trailers.
    Chunked,
    /// All bytes to the end of the wire.
    ToEnd,
}

/// What lines say of the body.
#[derive(Clone, Copy)]
pub enum Said {
    Nothing,
    Length(u64),
    Chunks,
    /// Two that contradict each other, or one that is unknown or out of form.
    Wrong,
}

#[tactic(auto, using(crate::proofs::Texts::texts))]
fn length_said(value: &[u8]) -> Said
    ensures { result ≡ length_said value.now }
{
    match read_number(value, 19, u64::MAX) {
        Some(length) => Said::Length(length),
        None => Said::Wrong,
    }
}

fn coding_said(value: &[u8]) -> Said
    ensures { result ≡ coding_said value.now }
{
    if is_named(value, b"chunked") {
        Said::Chunks
    } else {
        Said::Wrong
    }
}

pub(crate) fn line_said(name: &[u8], value: &[u8]) -> Said
    ensures { result ≡ line_said (name.now, value.now) }
{
    if is_named(name, b"content-length") {
        return length_said(value);
    }
    if is_named(name, b"transfer-encoding") {
        return coding_said(value);
    }
    Said::Nothing
}

fn same_length(a: u64, b: u64) -> Said
    ensures { result ≡ same_length a b }
{
    if a == b { Said::Length(a) } else { Said::Wrong }
}

fn with_length(a: u64, second: Said) -> Said
    ensures { result ≡ said_together (Said.Length a) second }
{
    match second {
        Said::Nothing => Said::Length(a),
        Said::Length(b) => same_length(a, b),
        Said::Chunks => Said::Wrong,
        Said::Wrong => Said::Wrong,
    }
}

fn with_chunks(second: Said) -> Said
    ensures { result ≡ said_together Said.Chunks second }
{
    match second {
        Said::Nothing => Said::Chunks,
        Said::Length(_) => Said::Wrong,
        Said::Chunks => Said::Wrong,
        Said::Wrong => Said::Wrong,
    }
}

pub(crate) fn said_together(first: Said, second: Said) -> Said
    ensures { result ≡ said_together first second }
{
    match first {
        Said::Nothing => second,
        Said::Length(a) => with_length(a, second),
        Said::Chunks => with_chunks(second),
        Said::Wrong => Said::Wrong,
    }
}

pub(crate) fn request_framing(said: Said) -> Option<Framing>
    ensures { result ≡ request_framing said }
{
    match said {
        Said::Nothing => Some(Framing::Empty),
        Said::Length(length) => Some(Framing::Sized(length)),
        Said::Chunks => Some(Framing::Chunked),
        Said::Wrong => None,
    }
}

fn said_framing(said: Said) -> Option<Framing>
    ensures { result ≡ said_framing said }
{
    match said {
        Said::Nothing => Some(Framing::ToEnd),
        Said::Length(length) => Some(Framing::Sized(length)),
        Said::Chunks => Some(Framing::Chunked),
        Said::Wrong => None,
    }
}

fn framing_for(status: u16, framing: Framing) -> Framing
    ensures { result ≡ framing_for status framing }
{
    if is_bodiless(status) {
        Framing::Empty
    } else {
        framing
    }
}

pub(crate) fn response_framing(status: u16, said: Said) -> Option<Framing>
    ensures { result ≡ response_framing status said }
{
    match said_framing(said) {
        Some(framing) => Some(framing_for(status, framing)),
        None => None,
    }
}
