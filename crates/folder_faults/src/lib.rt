//! A keeper of a folder that is stopped at each of its steps, seen by the files that stay. The
//! crate has these tests alone.
#![tactic(auto)]

#[cfg(test)]
mod keeps;
#[cfg(test)]
mod stops;
