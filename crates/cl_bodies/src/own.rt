//! A form of a language's own, as far as it is read without its body.

/// A whole form; or what stands before its body, the number of parts that this takes, and in what the
/// forms of the body stand.
#[derive(Drop)]
pub enum Own<F, O, C> {
    Whole(F),
    Before(O, usize, C),
}
