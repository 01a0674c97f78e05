// Frames that were given.
use cool_base::{LinkId, ListOf};
use net_traits::Given;

/// A frame that was given to a link.
#[derive(Drop)]
pub struct Frame {
    pub link: LinkId,
    pub bytes: ListOf<u8>,
}

/// A give with its answer.
#[derive(Drop)]
pub struct Gift {
    pub frame: Frame,
    pub given: Given,
}
