//! The words of the command line.
ghost use Rattle.std.specs.Prelude.{◌≡◌, ◌∷◌, IfOk, MatchOption, codes, map};
ghost use Rattle.cl_live.specs.Words.{IsNoRun, IsRunHere, as_run};

use cl_invocation::{Invocation, read_words};
use std::alloc::{AllocError, Global};

// The run that words ask for.
#[derive(Clone, Copy)]
pub(crate) struct Asked<'a> {
    /// The application's name.
    pub(crate) application: &'a str,
    /// How many forms a display or a command may enter.
    pub(crate) budget: Option<u32>,
}

/// The words with `run` before them.
pub(crate) fn with_run<'a>(alloc: Global, words: &[&'a str]) -> Result<Vec<&'a str>, AllocError>
    ensures { IfOk result (λ all. map (λ w. w.now) all.items ≡ as_run (map (λ w. w.now) words.now)) }
{
    let mut all = Vec::new(alloc);
    all.push("run")?;
    all.extend_from_slice(words)?;
    Ok(all)
}

/// What words that begin with `run` ask for; `None` where they are no run, or one with a wire.
pub(crate) fn read_run<'a>(
    alloc: Global,
    words: &'a [&'a str],
) -> Result<Option<Asked<'a>>, AllocError>
    ensures { IfOk result (λ read. MatchOption read (IsNoRun (map (λ w. w.now) words.entry.now))
        (λ asked. IsRunHere (map (λ w. w.now) words.entry.now) asked.application.now asked.budget)) }
{
    match read_words(alloc, words)? {
        Some(
            Invocation::Run {
                application,
                wire: None,
                budget,
            },
        ) => Ok(Some(Asked {
            application,
            budget,
        })),
        Some(Invocation::Run { wire: Some(_), .. }) => Ok(None),
        Some(Invocation::Check { .. }) => Ok(None),
        Some(Invocation::Bench { .. }) => Ok(None),
        None => Ok(None),
    }
}
