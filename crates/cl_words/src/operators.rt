//! The words that are operators over the values of their parts.
ghost use Rattle.std.specs.Prelude.{◌≡◌};
ghost use Rattle.cl_words.specs.Heads.{arithmetic_named, comparison_named, list_operator_named, text_operator_named, other_operator_named, operator_named, list_count, text_count, count_of};

use cl_syntax::{Arithmetic, Comparison, ListOperator, Operator, TextOperator};

fn arithmetic_named(word: &[u8]) -> Option<Arithmetic>
    ensures { result ≡ arithmetic_named word.now }
{
    if word == b"+".as_slice() {
        Some(Arithmetic::Add)
    } else if word == b"-".as_slice() {
        Some(Arithmetic::Subtract)
    } else if word == b"*".as_slice() {
        Some(Arithmetic::Multiply)
    } else if word == b"min".as_slice() {
        Some(Arithmetic::Least)
    } else if word == b"max".as_slice() {
        Some(Arithmetic::Greatest)
    } else if word == b"div".as_slice() {
        Some(Arithmetic::Quotient)
    } else if word == b"mod".as_slice() {
        Some(Arithmetic::Remainder)
    } else {
        None
    }
}

fn comparison_named(word: &[u8]) -> Option<Comparison>
    ensures { result ≡ comparison_named word.now }
{
    if word == b"<".as_slice() {
        Some(Comparison::Less)
    } else if word == b"<=".as_slice() {
        Some(Comparison::AtMost)
    } else if word == b">".as_slice() {
        Some(Comparison::Greater)
    } else if word == b">=".as_slice() {
        Some(Comparison::AtLeast)
    } else {
        None
    }
}

fn list_operator_named(word: &[u8]) -> Option<ListOperator>
    ensures { result ≡ list_operator_named word.now }
{
    if word == b"list".as_slice() {
        Some(ListOperator::List)
    } else if word == b"nth".as_slice() {
        Some(ListOperator::Nth)
    } else if word == b"rest".as_slice() {
        Some(ListOperator::Rest)
    } else if word == b"cons".as_slice() {
        Some(ListOperator::Cons)
    } else if word == b"append".as_slice() {
        Some(ListOperator::Append)
    } else if word == b"contains".as_slice() {
        Some(ListOperator::Contains)
    } else if word == b"range".as_slice() {
        Some(ListOperator::Range)
    } else {
        None
    }
}

fn text_operator_named(word: &[u8]) -> Option<TextOperator>
    ensures { result ≡ text_operator_named word.now }
{
    if word == b"concat".as_slice() {
        Some(TextOperator::Concat)
    } else if word == b"subtext".as_slice() {
        Some(TextOperator::Subtext)
    } else if word == b"pad".as_slice() {
        Some(TextOperator::Pad)
    } else if word == b"text".as_slice() {
        Some(TextOperator::Written)
    } else {
        None
    }
}

fn other_operator_named(word: &[u8]) -> Option<Operator>
    ensures { result ≡ other_operator_named word.now }
{
    if word == b"not".as_slice() {
        Some(Operator::Not)
    } else if word == b"=".as_slice() {
        Some(Operator::Equal)
    } else if word == b"length".as_slice() {
        Some(Operator::Length)
    } else if word == b"is-null".as_slice() {
        Some(Operator::IsNull)
    } else {
        None
    }
}

/// The operator over the values of its parts that a word names.
pub fn operator_named(word: &[u8]) -> Option<Operator>
    ensures { result ≡ operator_named word.now }
{
    if let Some(operator) = arithmetic_named(word) {
        return Some(Operator::Arithmetic(operator));
    }
    if let Some(operator) = comparison_named(word) {
        return Some(Operator::Comparison(operator));
    }
    if let Some(operator) = list_operator_named(word) {
        return Some(Operator::List(operator));
    }
    if let Some(operator) = text_operator_named(word) {
        return Some(Operator::Text(operator));
    }
    other_operator_named(word)
}

fn list_count(operator: ListOperator) -> Option<usize>
    ensures { result ≡ list_count operator }
{
    match operator {
        ListOperator::List => None,
        ListOperator::Rest => Some(1),
        ListOperator::Nth => Some(2),
        ListOperator::Cons => Some(2),
        ListOperator::Append => Some(2),
        ListOperator::Contains => Some(2),
        ListOperator::Range => Some(2),
    }
}

fn text_count(operator: TextOperator) -> Option<usize>
    ensures { result ≡ text_count operator }
{
    match operator {
        TextOperator::Concat => Some(2),
        TextOperator::Subtext => Some(3),
        TextOperator::Pad => Some(2),
        TextOperator::Written => Some(1),
    }
}

/// How many parts an operator takes; None where it takes any number.
pub fn count_of(operator: &Operator) -> Option<usize>
    ensures { result ≡ count_of operator.now }
{
    match operator {
        Operator::Arithmetic(_) => Some(2),
        Operator::Comparison(_) => Some(2),
        Operator::List(operator) => list_count(*operator),
        Operator::Text(operator) => text_count(*operator),
        Operator::Record(_) => None,
        Operator::Not => Some(1),
        Operator::Equal => Some(2),
        Operator::Length => Some(1),
        Operator::IsNull => Some(1),
    }
}
