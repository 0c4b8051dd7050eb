//! Spans of a row, and how one more is put behind others.
ghost use Rattle.std.specs.Prelude.{◌≡◌, OnOk};
ghost use Rattle.cl_spans.specs.Extending.{extended};

use std::alloc::AllocError;

/// The columns from `x1` on and before `x2`.
#[derive(Clone, Copy, PartialEq, Eq, Debug)]
pub struct Span {
    pub x1: i64,
    pub x2: i64,
}

// One span more, which makes one with the last where it begins no further than that ends.
pub(crate) fn extend(row: &mut Vec<Span>, span: Span) -> Result<(), AllocError>
    ensures { OnOk result (row.new.items ≡ extended row.old.items span) }
{
    let count = row.len();
    if count > 0 && span.x1 <= row[count - 1].x2 {
        row[count - 1].x2 = row[count - 1].x2.max(span.x2);
        return Ok(());
    }
    row.push(span)?;
    Ok(())
}
