//! Both ends of WOPI together: each operation goes as bytes over a wire in memory to the host, and
//! its response as bytes back; and a store over stated answers. The crate has these tests alone.
#![tactic(auto)]

#[cfg(test)]
mod rounds;
#[cfg(test)]
mod stores;
