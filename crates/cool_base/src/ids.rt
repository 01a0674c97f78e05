//! Ids: numbers with a name of their own.
use arrayvec::ArrayVec;

/// A document of the hall. Ids are given once, counted from 0.
#[derive(Clone, Copy, Debug, PartialEq, Eq, PartialOrd, Ord, Hash)]
pub struct DocId(pub u32);

/// A view of one document, counted from 0 in each document.
#[derive(Clone, Copy, Debug, PartialEq, Eq, PartialOrd, Ord, Hash)]
pub struct ViewId(pub u32);

/// A link of the daemon: one connection of a browser.
#[derive(Clone, Copy, Debug, PartialEq, Eq, PartialOrd, Ord, Hash)]
pub struct LinkId(pub u64);

/// The number of a tile that was sent to a view, counted from 1 in each view.
#[derive(Clone, Copy, Debug, Default, PartialEq, Eq, PartialOrd, Ord, Hash)]
pub struct Wid(pub u64);

/// The number of a job or an errand of one document, counted from 1.
#[derive(Clone, Copy, Debug, PartialEq, Eq, PartialOrd, Ord, Hash)]
pub struct Ticket(pub u64);

/// At most 64 numbers of tiles, in order.
pub type Wids = ArrayVec<Wid, 64>;
