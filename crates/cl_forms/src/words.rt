//! Words that are names, keys, constants and quotes.
ghost use Rattle.std.specs.Prelude.{◌≡◌};
ghost use Rattle.cl_forms.specs.Words.{is_key, is_constant, is_quote, is_name};

/// Whether a word is a key: it begins with `:`.
pub fn is_key(word: &[u8]) -> bool
    ensures { result ≡ is_key word.now }
{
    word.starts_with(b":")
}

/// Whether a word is a quote, which is an atom of this one byte.
pub fn is_quote(word: &[u8]) -> bool
    ensures { result ≡ is_quote word.now }
{
    word == b"'".as_slice()
}

/// Whether a word is `true`, `false`, `null` or `*`.
pub fn is_constant(word: &[u8]) -> bool
    ensures { result ≡ is_constant word.now }
{
    word == b"true".as_slice()
        || word == b"false".as_slice()
        || word == b"null".as_slice()
        || word == b"*".as_slice()
}

/// Whether a symbol is a name: no key and no constant.
pub fn is_name(word: &[u8]) -> bool
    ensures { result ≡ is_name word.now }
{
    !is_key(word) && !is_constant(word)
}
