//! Tests of public calls that read: forms of texts, gestures of a stream, and the playback of a wire. A crate's own tests are proved
//! over the whole of it once more, and these alone.
#![tactic(auto)]

#[cfg(test)]
mod tests;
