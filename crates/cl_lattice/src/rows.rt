//! Answers for all parts of a second type at once.
ghost use Rattle.std.specs.Prelude.{◌≡◌, ◌+◌, ◌||◌, ◌&&◌, [], ◌∷◌, ◌++◌, ◌⊎◌, ◌↔◌, IfSome, IsTrue, OnSome, List, drop, length};
ghost use Rattle.cl_lattice.specs.Expanded.{Expanded};
ghost use Rattle.cl_lattice.specs.SubtypeRows.{both_rows, either_row, row_of, zip_and, zip_or, RowTellsFrom};
ghost use Rattle.cl_lattice.specs.SubtypeWays.{ByFirst};

use arrayvec::ArrayVec;

/// An answer for each part of a second type, in the order in which parts stand.
pub(crate) type Answers = ArrayVec<bool, 256>;

/// What is known of all parts of a second type.
#[derive(Drop)]
pub(crate) enum Row {
    /// It is true of none.
    Never,
    /// It is true of each.
    Always,
    Known(Answers),
}

impl Row {
    /// What is true where both are; `None` where there is no room.
    pub(crate) fn both(self, other: Row) -> Option<Row>
        ensures { IfSome result (λ r. row_of r ≡ both_rows (row_of self) (row_of other)) }
    {
        match self {
            Row::Never => Some(Row::Never),
            Row::Always => Some(other),
            Row::Known(answers) => match other {
                Row::Never => Some(Row::Never),
                Row::Always => Some(Row::Known(answers)),
                Row::Known(others) => {
                    Some(Row::Known(zip_and(answers.as_slice(), others.as_slice())?))
                }
            },
        }
    }

    /// What is true where one of them is; `None` where there is no room.
    pub(crate) fn either(self, other: Row) -> Option<Row>
        ensures { IfSome result (λ r. row_of r ≡ either_row (row_of self) (row_of other)) }
    {
        match self {
            Row::Always => Some(Row::Always),
            Row::Never => Some(other),
            Row::Known(answers) => match other {
                Row::Always => Some(Row::Always),
                Row::Never => Some(Row::Known(answers)),
                Row::Known(others) => {
                    Some(Row::Known(zip_or(answers.as_slice(), others.as_slice())?))
                }
            },
        }
    }

    /// The answer for the part at a place.
    #[inline]
    pub(crate) fn at(&self, place: usize) -> bool
        ensures { (a q : Expanded) (qs : List Expanded) → RowTellsFrom (ByFirst a) (q ∷ qs) place (row_of self.now)
            → IsTrue result ↔ ByFirst a q }
    {
        match self {
            Row::Never => false,
            Row::Always => true,
            Row::Known(answers) => answer_at(answers.as_slice(), place),
        }
    }
}

/// The answer at a place; no where there is none.
pub(crate) fn answer_at(answers: &[bool], place: usize) -> bool
    ensures { (r : _) (rs : _) → drop place answers.now ≡ r ∷ rs → result ≡ r }
{
    match answers.get(place) {
        Some(answer) => *answer,
        None => false,
    }
}

fn zip_and(answers: &[bool], others: &[bool]) -> Option<Answers>
    ensures { IfSome result (λ v. v.items ≡ zip_and answers.now others.now) }
{
    let mut zipped = Answers::new();
    add_both(answers, others, &mut zipped)?;
    Some(zipped)
}

fn zip_or(answers: &[bool], others: &[bool]) -> Option<Answers>
    ensures { IfSome result (λ v. v.items ≡ zip_or answers.now others.now) }
{
    let mut zipped = Answers::new();
    add_either(answers, others, &mut zipped)?;
    Some(zipped)
}

fn add_both(answers: &[bool], others: &[bool], zipped: &mut Answers) -> Option<()>
    ensures { OnSome result (zipped.new.items ≡ zipped.old.items ++ zip_and answers.now others.now) }
{
    match answers.split_first() {
        Some((first, answers)) => match others.split_first() {
            Some((other, others)) => {
                zipped.try_push(*first && *other).ok()?;
                add_both(answers, others, zipped)
            }
            None => Some(()),
        },
        None => Some(()),
    }
}

fn add_either(answers: &[bool], others: &[bool], zipped: &mut Answers) -> Option<()>
    ensures { OnSome result (zipped.new.items ≡ zipped.old.items ++ zip_or answers.now others.now) }
{
    match answers.split_first() {
        Some((first, answers)) => match others.split_first() {
            Some((other, others)) => {
                zipped.try_push(*first || *other).ok()?;
                add_either(answers, others, zipped)
            }
            None => Some(()),
        },
        None => Some(()),
    }
}

/// Puts an answer behind the others, and gives it; `None` where there is no room.
#[inline]
pub(crate) fn put(answers: &mut Answers, answer: bool) -> Option<bool>
    ensures same { IfSome result (λ r. r ≡ answer) }
    ensures grown { OnSome result (answers.new.items ≡ answers.old.items ++ answer ∷ []) }
{
    answers.try_push(answer).ok()?;
    Some(answer)
}

/// How many answers there are.
#[inline]
pub(crate) fn count(answers: &Answers) -> usize
    ensures { result ≡ length answers.now.items }
{
    answers.as_slice().len()
}

/// The answer before a place; no where there is none.
pub(crate) fn answer_before(answers: &[bool], place: usize) -> bool
    ensures { (n : _) → place ≡ n + 1 → (r : _) (rs : _) → drop n answers.now ≡ r ∷ rs → result ≡ r }
{
    match place.checked_sub(1) {
        Some(before) => answer_at(answers, before),
        None => false,
    }
}

/// Whether one of two is true.
pub(crate) fn or(first: bool, second: bool) -> bool
    ensures { result ≡ (first || second) }
{
    first || second
}

/// Whether both are true.
pub(crate) fn and(first: bool, second: bool) -> bool
    ensures { result ≡ (first && second) }
{
    first && second
}
