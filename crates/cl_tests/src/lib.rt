//! Tests of public calls of the frame and of the session. A crate's own tests are proved over the whole of it once more, and
//! these alone.
#![tactic(auto)]

#[cfg(test)]
mod tests;
