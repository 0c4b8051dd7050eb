//! What the definitions of lines mean. The contracts are the laws.
ghost use Rattle.cl_line.specs.Laws.{QuotesReadBack};
ghost use Rattle.cl_line.specs.Lies.{TokensLie};
ghost use Rattle.cl_line.specs.Tokens.{tokens_behind};

/// Any text can be typed: in quotes, with a `\` before each `"` and `\`, it is one token, and what this gives is the text.
pub fn quoted_texts_read_back()
    ensures { QuotesReadBack }
{}

/// Between the tokens of a line stand spaces alone, and each token is as long as it can be.
pub fn tokens_lie()
    ensures { TokensLie (tokens_behind 0) }
{}
