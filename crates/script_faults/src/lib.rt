//! Tests of scripts whose source or sink fails.
#![tactic(auto)]

#[cfg(test)]
mod tests;
