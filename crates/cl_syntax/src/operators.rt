//! The operators of expressions.
use cl_value::Text;

/// The arithmetic of two numbers.
#[derive(Clone, Copy, PartialEq, Eq, Debug)]
pub enum Arithmetic {
    Add,
    Subtract,
    Multiply,
    /// `min`
    Least,
    /// `max`
    Greatest,
    /// `div`: the quotient, rounded down.
    Quotient,
    /// `mod`: what is left of the rounded quotient.
    Remainder,
}

/// The comparison of two numbers.
#[derive(Clone, Copy, PartialEq, Eq, Debug)]
pub enum Comparison {
    Less,
    AtMost,
    Greater,
    AtLeast,
}

/// What is made of lists, or asked of them.
#[derive(Clone, Copy, PartialEq, Eq, Debug)]
pub enum ListOperator {
    /// `(list E ...)`
    List,
    /// `(nth LIST PLACE)`, from 0.
    Nth,
    /// `(rest LIST)`
    Rest,
    /// `(cons E LIST)`
    Cons,
    /// `(append LIST LIST)`
    Append,
    /// `(contains LIST E)`
    Contains,
    /// `(range FIRST LAST)`, both included.
    Range,
}

/// What is made of texts.
#[derive(Clone, Copy, PartialEq, Eq, Debug)]
pub enum TextOperator {
    /// `(concat TEXT TEXT)`
    Concat,
    /// `(subtext TEXT FROM TO)`, the last place excluded.
    Subtext,
    /// `(pad TEXT LENGTH)`
    Pad,
    /// `(text E)`
    Written,
}

/// What is made of records, or asked of them.
#[derive(Drop)]
pub enum RecordOperator {
    /// `(make RECORD E ...)`
    Make(Text),
    /// `(get E FIELD)`
    Get(Text),
    /// `(with E FIELD E)`
    With(Text),
}

/// An operator: its parts are all evaluated before anything is checked.
#[derive(Drop)]
pub enum Operator {
    Arithmetic(Arithmetic),
    Comparison(Comparison),
    List(ListOperator),
    Text(TextOperator),
    Record(RecordOperator),
    /// `(not E)`
    Not,
    /// `(= E E)`
    Equal,
    /// `(length E)` of a list or a text.
    Length,
    /// `(is-null E)`
    IsNull,
}
