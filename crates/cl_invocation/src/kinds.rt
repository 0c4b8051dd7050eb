//! The words of a command, each by itself.
ghost use Rattle.std.specs.Prelude.{◌≡◌, is_some};
ghost use Rattle.std.specs.List.{list_all};
ghost use Rattle.cl_invocation.specs.Words.{behind, is_plain, is_word};

/// Whether each word is one of a command.
pub fn are_words(words: &[&str]) -> bool
    ensures { result ≡ list_all (λ word. is_word word.now) words.now }
{
    words.iter().all(|word| is_word(word))
}

// Whether the word is one of a command: it is positional, it names an option, or it names one and
// gives its value.
fn is_word(word: &str) -> bool
    ensures { result ≡ is_word word.now }
{
    is_plain(word)
        || word == "--wire"
        || word == "--budget"
        || has_behind("--wire=", word)
        || has_behind("--budget=", word)
}

// Whether the word is not empty and does not begin with `-`.
fn is_plain(word: &str) -> bool
    ensures { result ≡ is_plain word.now }
{
    !word.is_empty() && !word.starts_with("-")
}

// Whether something stands behind the prefix.
fn has_behind(prefix: &str, word: &str) -> bool
    ensures { result ≡ is_some (behind prefix.now word.now) }
{
    word.starts_with(prefix) && word.len() > prefix.len()
}
