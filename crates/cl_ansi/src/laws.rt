//! What a terminal shows of the bytes that the device sends. The contracts are the laws.
ghost use Rattle.cl_ansi.specs.Laws.{AllSpansPaint, ClearsBlank};

/// The picture of the device is what a terminal shows of its bytes: a blank one behind a `clear`, whatever
/// broke off before it, and one that is painted by a span as the picture of any device is. Beside the
/// picture nothing is shown.
pub fn a_terminal_shows_the_picture()
    ensures clears { ClearsBlank }
    ensures spans { AllSpansPaint }
{}
