//! The one frame that a line could be.
ghost use Rattle.std.specs.Prelude.{◌≡◌, ◌+◌, ◌<◌, ◌≤◌, ◌^◌, IfOk, IfSome, true, codes, string_bytes, Some};
ghost use Rattle.std.specs.List.{find};
ghost use Rattle.std.specs.Option.{option_map};
ghost use Rattle.std.specs.Str.{bytes_eq};
ghost use Rattle.cool_frame.specs.Frames.{kind_text};
ghost use Rattle.cool_frame.specs.Likely.{likely, status_in, invalidation_in, invalidation_of, saved_in, refusal_in, refusal_of, kind_of, kit_in, is_coded, code_in, look_in, place_in, tile_in};
ghost use Rattle.cool_frame.specs.Reading.{IsFrame, has_code};
ghost use Rattle.tile_key.specs.Places.{look_of};
ghost use Rattle.tile_key.specs.Words.{place_of};

use crate::frame::Frame;
use crate::kind::ErrorKind;
use crate::scan::{large_in, number_in, side_in, small_in, word_in};
use cool_base::{Memory, Rect, Size, TextOf, ViewId, Wid};
use cool_words::{command_text, is_command};
use kit_trait::KitName;
use std::alloc::Global;
use tile_key::{TileKey, TileWords, key_of};

const KINDS: [ErrorKind; 18] = [
    ErrorKind::BadMessage,
    ErrorKind::NotLoaded,
    ErrorKind::AlreadyLoaded,
    ErrorKind::BadUrl,
    ErrorKind::LoadFailed,
    ErrorKind::DocsFull,
    ErrorKind::BookFull,
    ErrorKind::MailFull,
    ErrorKind::DocGone,
    ErrorKind::BadFile,
    ErrorKind::ViewsFull,
    ErrorKind::ReadOnly,
    ErrorKind::InputsFull,
    ErrorKind::SavesFull,
    ErrorKind::BadTile,
    ErrorKind::TooLarge,
    ErrorKind::AskedFull,
    ErrorKind::SaveFailed,
];

/// The frame that the line could be, by its first byte: where it is a frame's, then this one's.
#[tactic(auto, unfolding(crate::specs::Likely::likely))]
pub fn likely(alloc: Global, line: &[u8]) -> Result<Option<Frame>, Memory>
    ensures value { IfOk result (λ found. found ≡ likely line.now) }
    ensures form { IfOk result (λ found. IfSome found IsFrame) }
{
    let first = line.first().copied().unwrap_or(0);
    if first == b'c' {
        return Ok(Some(Frame::Server));
    }
    if first == b's' {
        return Ok(status_in(line));
    }
    if first == b'i' {
        return Ok(invalidation_in(line));
    }
    if first == b'u' {
        return Ok(saved_in(line));
    }
    if first == b'e' {
        return refusal_in(alloc, line);
    }
    Ok(None)
}

#[tactic(auto, unfolding(crate::specs::Likely::status_in))]
fn status_in(line: &[u8]) -> Option<Frame>
    ensures value { result ≡ status_in line.now }
    ensures form { IfSome result IsFrame }
{
    let (parts, rest) = small_in(line)?;
    let (_current, rest) = small_in(rest)?;
    let (w, rest) = side_in(rest)?;
    let (h, rest) = side_in(rest)?;
    let (view, rest) = small_in(rest)?;
    Some(Frame::Status {
        kit: kit_in(line),
        parts,
        size: Size { w, h },
        view: ViewId(view),
        readonly: rest == b" readonly=1".as_slice(),
    })
}

fn kit_in(line: &[u8]) -> KitName
    ensures { result ≡ kit_in line.now }
{
    if line.starts_with(b"status: type=sheet") {
        KitName::Sheet
    } else {
        KitName::Patch
    }
}

#[tactic(auto, unfolding(crate::specs::Likely::invalidation_in))]
fn invalidation_in(line: &[u8]) -> Option<Frame>
    ensures value { result ≡ invalidation_in line.now }
    ensures form { IfSome result IsFrame }
{
    let (part, rest) = small_in(line)?;
    let (x, rest) = small_in(rest)?;
    let (y, rest) = small_in(rest)?;
    let (w, rest) = small_in(rest)?;
    let (h, _rest) = small_in(rest)?;
    invalidation_of(part, x, y, w, h)
}

fn invalidation_of(part: u32, x: u32, y: u32, w: u32, h: u32) -> Option<Frame>
    ensures value { result ≡ invalidation_of part (record { x = x; y = y; w = w; h = h }) }
    ensures form { IfSome result IsFrame }
{
    let right = u64::from(x) + u64::from(w);
    let lower = u64::from(y) + u64::from(h);
    if right > 4_294_967_295 || lower > 4_294_967_295 {
        return None;
    }
    Some(Frame::Invalidate {
        part,
        rect: Rect { x, y, w, h },
    })
}

#[tactic(auto, unfolding(crate::specs::Likely::saved_in))]
fn saved_in(line: &[u8]) -> Option<Frame>
    ensures value { result ≡ saved_in line.now }
    ensures form { IfSome result IsFrame }
{
    let (inputs, rest) = large_in(line)?;
    Some(Frame::SaveDone {
        inputs,
        put: rest == b",\"put\":true}".as_slice(),
    })
}

#[tactic(auto, unfolding(crate::specs::Likely::refusal_in))]
fn refusal_in(alloc: Global, line: &[u8]) -> Result<Option<Frame>, Memory>
    ensures value { IfOk result (λ found. found ≡ refusal_in line.now) }
    ensures form { IfOk result (λ found. IfSome found IsFrame) }
{
    let (cmd, rest) = word_in(line);
    let (kind, rest) = word_in(rest);
    match kind_of(kind) {
        Some(kind) => refusal_of(alloc, cmd, kind, code_in(rest)),
        None => Ok(None),
    }
}

fn refusal_of(
    alloc: Global,
    cmd: &[u8],
    kind: ErrorKind,
    code: Option<u16>,
) -> Result<Option<Frame>, Memory>
    ensures value { IfOk result (λ found. found ≡ refusal_of cmd.now kind code) }
    ensures form { IfOk result (λ found. IfSome found IsFrame) }
{
    if !is_command(cmd) || !is_coded(kind, code) {
        return Ok(None);
    }
    let cmd = TextOf::of(String::from_str(alloc, command_text(cmd))?);
    Ok(Some(Frame::Error { cmd, kind, code }))
}

#[tactic(auto, unfolding(crate::specs::Likely::kind_of))]
fn kind_of(text: &[u8]) -> Option<ErrorKind>
    ensures { result ≡ kind_of text.now }
{
    KINDS
        .iter()
        .copied()
        .find(|kind| kind.text().as_bytes() == text)
}

fn code_in(text: &[u8]) -> Option<u16>
    ensures { result ≡ code_in text.now }
{
    let (code, _rest) = number_in(text, 65_535)?;
    Some(code as u16)
}

fn is_coded(kind: ErrorKind, code: Option<u16>) -> bool
    ensures { result ≡ is_coded kind code }
{
    match code {
        Some(_) => has_code(kind),
        None => !has_code(kind),
    }
}

fn has_code(kind: ErrorKind) -> bool
    ensures { result ≡ has_code kind }
{
    matches!(kind, ErrorKind::LoadFailed | ErrorKind::SaveFailed)
}

/// What the line of a tile could name: where the bytes begin with a tile's line, then these.
#[tactic(auto, unfolding(crate::specs::Likely::tile_in))]
pub fn tile_in(bytes: &[u8]) -> Option<(TileKey, u64, Wid)>
    ensures { result ≡ tile_in bytes.now }
{
    let (words, rest) = words_in(bytes)?;
    let key = key_of(&words)?;
    let (ver, rest) = large_in(rest)?;
    let (wid, _rest) = large_in(rest)?;
    Some((key, ver, Wid(wid)))
}

#[tactic(auto, unfolding(crate::specs::Likely::place_in))]
fn words_in(text: &[u8]) -> Option<(TileWords, &[u8])>
    ensures { option_map (λ found. (place_of found.0, found.1.now)) result ≡ place_in text.now }
{
    let (part, rest) = small_in(text)?;
    let (width, rest) = small_in(rest)?;
    let (height, rest) = small_in(rest)?;
    let (tileposx, rest) = small_in(rest)?;
    let (tileposy, rest) = small_in(rest)?;
    let (tilewidth, rest) = small_in(rest)?;
    let (tileheight, rest) = small_in(rest)?;
    let (nviewid, rest) = look_in(rest);
    let words = TileWords {
        part,
        width,
        height,
        tileposx,
        tileposy,
        tilewidth,
        tileheight,
        nviewid,
    };
    Some((words, rest))
}

// The look that the line of a tile names behind the sizes, and what stands behind it.
#[tactic(auto, unfolding(crate::specs::Likely::look_in))]
fn look_in(text: &[u8]) -> (u32, &[u8])
    ensures look { look_of result.0 ≡ (look_in text.now).0 }
    ensures behind { result.1.now ≡ (look_in text.now).1 }
{
    match text.strip_prefix(b" nviewid=1".as_slice()) {
        Some(rest) => (1, rest),
        None => (0, text),
    }
}
