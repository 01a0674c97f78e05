//! The message of a command whose words have no fault.
ghost use Rattle.std.specs.Prelude.{◌≡◌, ◌<◌, ◌^◌, IfOk};
ghost use Rattle.cool_base.specs.Numbers.{number_31, number_64};
ghost use Rattle.cool_words.specs.Lists.{numbers};
ghost use Rattle.cool_message.specs.Reading.{texts, text_of, number_at, look_at, key_kind, mouse_kind, flag, message_from};
ghost use Rattle.cool_message.specs.declared.table.Command.TheVariants as command;

use crate::fault::Word;
use crate::faults::text_of;
use crate::message::{ClientMessage, CombineWords, KeyKind, MouseKind};
use crate::table::Command;
use cool_base::{ListOf, Memory, Rect, TextOf};
use cool_words::{list_31, list_64, number_31};
use std::alloc::Global;
use tile_key::{TileWords, look_of};

/// The message of a command, by the texts that stand for its words.
pub fn message_from(
    alloc: Global,
    command: Command,
    words: &[&str],
) -> Result<ClientMessage, Memory>
    ensures { IfOk result (λ message. message ≡ message_from command (text_of (texts words.now))) }
{
    match command {
        Command::CoolClient => Ok(ClientMessage::CoolClient),
        Command::Load => load(alloc, words),
        Command::Key => Ok(key(words)),
        Command::Mouse => Ok(mouse(words)),
        Command::Tile => Ok(ClientMessage::Tile(tile(words))),
        Command::TileCombine => combine(alloc, words),
        Command::CancelTiles => Ok(ClientMessage::CancelTiles),
        Command::VisibleArea => Ok(ClientMessage::VisibleArea(area(words))),
        Command::Zoom => Ok(zoom(words)),
        Command::SetPart => Ok(ClientMessage::SetPart {
            part: number(words, Word::Part),
        }),
        Command::TileProcessed => processed(alloc, words),
        Command::Save => Ok(ClientMessage::Save {
            keep_edit: flag(words, Word::KeepEdit),
            skip_unmodified: flag(words, Word::SkipUnmodified),
        }),
    }
}

fn load(alloc: Global, words: &[&str]) -> Result<ClientMessage, Memory>
    ensures { IfOk result (λ message. message ≡ message_from command.Load (text_of (texts words.now))) }
{
    let url = String::from_str(alloc, text_of(words, Word::Url))?;
    Ok(ClientMessage::Load {
        url: TextOf::of(url),
    })
}

fn key(words: &[&str]) -> ClientMessage
    ensures { result ≡ message_from command.Key (text_of (texts words.now)) }
{
    ClientMessage::Key {
        kind: key_kind(text_of(words, Word::Type)),
        chr: number(words, Word::Char),
        code: number(words, Word::Key),
    }
}

fn key_kind(text: &str) -> KeyKind
    ensures { result ≡ key_kind text.now }
{
    if text == "up" {
        KeyKind::Up
    } else {
        KeyKind::Input
    }
}

fn mouse(words: &[&str]) -> ClientMessage
    ensures { result ≡ message_from command.Mouse (text_of (texts words.now)) }
{
    ClientMessage::Mouse {
        kind: mouse_kind(text_of(words, Word::Type)),
        x: number(words, Word::X),
        y: number(words, Word::Y),
        count: number(words, Word::Count),
        buttons: number(words, Word::Buttons),
        modifier: number(words, Word::Modifier),
    }
}

fn mouse_kind(text: &str) -> MouseKind
    ensures { result ≡ mouse_kind text.now }
{
    if text == "buttondown" {
        MouseKind::ButtonDown
    } else if text == "buttonup" {
        MouseKind::ButtonUp
    } else {
        MouseKind::Move
    }
}

fn tile(words: &[&str]) -> TileWords
    ensures { ClientMessage.Tile result ≡ message_from command.Tile (text_of (texts words.now)) }
{
    TileWords {
        part: number(words, Word::Part),
        width: number(words, Word::Width),
        height: number(words, Word::Height),
        tileposx: number(words, Word::TilePosX),
        tileposy: number(words, Word::TilePosY),
        tilewidth: number(words, Word::TileWidth),
        tileheight: number(words, Word::TileHeight),
        nviewid: look(words),
    }
}

fn combine(alloc: Global, words: &[&str]) -> Result<ClientMessage, Memory>
    ensures { IfOk result (λ message. message ≡ message_from command.TileCombine (text_of (texts words.now))) }
{
    let tileposx = list_31(alloc, text_of(words, Word::TilePosX))?;
    let tileposy = list_31(alloc, text_of(words, Word::TilePosY))?;
    Ok(ClientMessage::TileCombine(CombineWords {
        part: number(words, Word::Part),
        width: number(words, Word::Width),
        height: number(words, Word::Height),
        tileposx: ListOf::of(tileposx),
        tileposy: ListOf::of(tileposy),
        tilewidth: number(words, Word::TileWidth),
        tileheight: number(words, Word::TileHeight),
        nviewid: look(words),
    }))
}

fn area(words: &[&str]) -> Rect
    ensures { ClientMessage.VisibleArea result ≡ message_from command.VisibleArea (text_of (texts words.now)) }
{
    Rect {
        x: number(words, Word::X),
        y: number(words, Word::Y),
        w: number(words, Word::Width),
        h: number(words, Word::Height),
    }
}

fn zoom(words: &[&str]) -> ClientMessage
    ensures { result ≡ message_from command.Zoom (text_of (texts words.now)) }
{
    ClientMessage::Zoom {
        pixel_w: number(words, Word::TilePixelWidth),
        pixel_h: number(words, Word::TilePixelHeight),
        twip_w: number(words, Word::TileTwipWidth),
        twip_h: number(words, Word::TileTwipHeight),
        nviewid: look(words),
    }
}

fn processed(alloc: Global, words: &[&str]) -> Result<ClientMessage, Memory>
    ensures { IfOk result (λ message. message ≡ message_from command.TileProcessed (text_of (texts words.now))) }
{
    let wids = list_64(alloc, text_of(words, Word::Wids))?;
    Ok(ClientMessage::TileProcessed {
        wids: ListOf::of(wids),
    })
}

fn number(words: &[&str], word: Word) -> u32
    ensures value { result ≡ number_at (text_of (texts words.now) word) }
    ensures small { result < 2 ^ 31 }
{
    number_31(text_of(words, word))
}

/// The look that the words name.
fn look(words: &[&str]) -> u32
    ensures { result ≡ look_at (text_of (texts words.now) Word.NViewId) }
{
    look_of(number(words, Word::NViewId))
}

fn flag(words: &[&str], word: Word) -> bool
    ensures { result ≡ flag (text_of (texts words.now) word) }
{
    text_of(words, word) == "1"
}
