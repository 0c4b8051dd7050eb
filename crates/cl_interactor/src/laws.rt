//! What a terminal shows of the rows below a screen. The contract is the law.
ghost use Rattle.cl_interactor.specs.Laws.{AllRowsShow};

/// A terminal that reads the bytes of the interactor shows the line that is typed, what is expected and the replies below the screen, with
/// nothing behind them, and the screen is what it was.
pub fn a_terminal_shows_the_interactor()
    ensures { AllRowsShow }
{}
