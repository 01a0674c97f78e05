//! A host whose keeper fails at its first, second .. call. The crate has these tests alone.
#![tactic(auto)]

#[cfg(test)]
mod failing;
#[cfg(test)]
mod hosts;
