//! What the definitions of this crate say. The contracts are the laws.
ghost use Rattle.std.specs.Prelude.{◌≡◌, ℤ, List};
ghost use Rattle.cl_spans.specs.Runs.{AreRuns, row_holds};
ghost use Rattle.cl_spans.specs.declared.runs.Span.{Span};

/// Two rows of maximal runs that hold the same columns are equal, so the places tell each row of `Spans`.
pub fn rows_are_told_by_their_columns()
    ensures { (a b : List Span) → AreRuns a → AreRuns b → ((x : ℤ) → row_holds a x ≡ row_holds b x) → a ≡ b }
{}
