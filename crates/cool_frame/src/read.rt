//! The frame of bytes.
ghost use Rattle.std.specs.Prelude.{◌≡◌, ◌≢◌, ◌++◌, ◌<◌, ◌^◌, IfOk, IfErr, Ok, Err, Some, length};
ghost use Rattle.cool_frame.specs.Frames.{frame_bytes, tile_line};
ghost use Rattle.cool_frame.specs.Likely.{reading, likely, taken, tile_in, tile_taken, tile_of};
ghost use Rattle.cool_frame.specs.Reading.{IsFrame, IsTileLine, HasWrongLength, Says, Gives, picture_length};
ghost use Rattle.tile_key.specs.Places.{IsKey};

use crate::fault::FrameFault;
use crate::frame::Frame;
use crate::likely::{likely, tile_in};
use crate::write::{line_of, write_frame};
use bytes::Bytes;
use cool_base::Wid;
use std::alloc::Global;
use tile_key::TileKey;

/// The frame whose bytes these are. WrongLength exactly where they are a tile's line and its newline
/// and behind them not 4 bytes a pixel; NotAFrame exactly where they are otherwise no frame. The time
/// is linear in the count of bytes.
pub fn read_frame(alloc: Global, bytes: &[u8]) -> Result<Frame, FrameFault>
    ensures read { IfOk result (λ frame. IsFrame frame × (frame_bytes frame ≡ bytes.now)) }
    ensures fault { IfErr result (Says bytes.now) }
    ensures again { (frame : Frame) → IsFrame frame → frame_bytes frame ≡ bytes.now → Gives result (Ok frame) }
    ensures wrong { HasWrongLength bytes.now → Gives result (Err FrameFault.WrongLength) }
{
    frame_of(alloc, bytes)
}

// Bytes are a tile's or a line, by the first one.
#[tactic(auto, unfolding(crate::specs::Likely::reading))]
fn frame_of(alloc: Global, bytes: &[u8]) -> Result<Frame, FrameFault>
    ensures value { Gives result (reading bytes.now) }
    ensures form { IfOk result IsFrame }
    ensures same { IfOk result (λ frame. frame_bytes frame ≡ bytes.now) }
    ensures wrong { result ≡ Err FrameFault.WrongLength → HasWrongLength bytes.now }
{
    if bytes.first().copied().unwrap_or(0) == b't' {
        read_tile(alloc, bytes)
    } else {
        read_line(alloc, bytes)
    }
}

// A line is taken as the one frame that it could be, where this has the same bytes.
fn read_line(alloc: Global, line: &[u8]) -> Result<Frame, FrameFault>
    ensures value { Gives result (taken line.now (likely line.now)) }
    ensures form { IfOk result IsFrame }
    ensures same { IfOk result (λ frame. frame_bytes frame ≡ line.now) }
    ensures wrong { result ≢ Err FrameFault.WrongLength }
{
    match likely(alloc, line)? {
        None => Err(FrameFault::NotAFrame),
        Some(frame) => same_line(alloc, frame, line),
    }
}

fn same_line(alloc: Global, frame: Frame, line: &[u8]) -> Result<Frame, FrameFault>
    requires { IsFrame frame }
    ensures value { Gives result (taken line.now (Some frame)) }
    ensures form { IfOk result IsFrame }
    ensures same { IfOk result (λ frame. frame_bytes frame ≡ line.now) }
    ensures wrong { result ≢ Err FrameFault.WrongLength }
{
    let written = write_frame(alloc, &frame)?;
    if written.as_slice() == line {
        Ok(frame)
    } else {
        Err(FrameFault::NotAFrame)
    }
}

fn read_tile(alloc: Global, bytes: &[u8]) -> Result<Frame, FrameFault>
    ensures value { Gives result (tile_taken bytes.now (tile_in bytes.now)) }
    ensures form { IfOk result IsFrame }
    ensures same { IfOk result (λ frame. frame_bytes frame ≡ bytes.now) }
    ensures wrong { result ≡ Err FrameFault.WrongLength → HasWrongLength bytes.now }
{
    match tile_in(bytes) {
        None => Err(FrameFault::NotAFrame),
        Some((key, ver, wid)) => tile_behind(alloc, &key, ver, wid, bytes),
    }
}

#[tactic(auto, unfolding(crate::specs::Frames::frame_bytes))]
fn tile_behind(
    alloc: Global,
    key: &TileKey,
    ver: u64,
    wid: Wid,
    bytes: &[u8],
) -> Result<Frame, FrameFault>
    ensures value { Gives result (tile_taken bytes.now (Some (key.now, ver, wid))) }
    ensures form { IfOk result IsFrame }
    ensures same { IfOk result (λ frame. frame_bytes frame ≡ bytes.now) }
    ensures wrong { result ≡ Err FrameFault.WrongLength → HasWrongLength bytes.now }
{
    let line = line_of(alloc, key, ver, wid)?;
    match bytes.strip_prefix(line.as_bytes()) {
        Some(pixels) => tile_of(alloc, key, ver, wid, pixels),
        None => Err(FrameFault::NotAFrame),
    }
}

#[tactic(auto, unfolding(crate::specs::Frames::frame_bytes))]
fn tile_of(
    alloc: Global,
    key: &TileKey,
    ver: u64,
    wid: Wid,
    pixels: &[u8],
) -> Result<Frame, FrameFault>
    ensures value { Gives result (tile_of key.now ver wid pixels.now) }
    ensures form { IfOk result IsFrame }
    ensures same { IfOk result (λ frame. frame_bytes frame ≡ tile_line key.now ver wid ++ pixels.now) }
    ensures wrong { result ≡ Err FrameFault.WrongLength → length pixels.now ≢ picture_length key.now }
    ensures line { IsTileLine key.now ver wid }
{
    if pixels.len() != picture_length(key) {
        return Err(FrameFault::WrongLength);
    }
    let pixels = Bytes::copy_from_slice(alloc, pixels)?;
    Ok(Frame::Tile {
        key: *key,
        ver,
        wid,
        pixels,
    })
}

fn picture_length(key: &TileKey) -> usize
    ensures value { result ≡ picture_length key.now }
    ensures form { IsKey key.now }
    ensures part { key.now.part < 2 ^ 32 }
{
    let words = key.words();
    4 * (words.width as usize * words.height as usize)
}

/// No two frames have the same bytes, and no frame has those of a tile of a wrong length.
pub fn frames_are_told_apart()
    ensures one { (frame other : Frame) → IsFrame frame → IsFrame other → frame_bytes frame ≡ frame_bytes other → frame ≡ other }
    ensures whole { (frame : Frame) → IsFrame frame → ¬ HasWrongLength (frame_bytes frame) }
{}
