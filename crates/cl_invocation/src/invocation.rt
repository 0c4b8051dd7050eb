//! The invocation that the words are.
ghost use Rattle.std.specs.Prelude.{◌≡◌, ◌==◌, IfOk, length, option_map};
ghost use Rattle.cl_invocation.specs.Words.{at_most_one, bench_of, budget_given, check_of, commanded, invocation_of, run_of};
ghost use Rattle.cl_invocation.specs.Command.{parts_in};
ghost use Rattle.cl_invocation.specs.Shown.{invocation, text, texts, values};

use crate::commands::parts_of;
use crate::numbers::{budget_in, items_in};
use clap::ArgMatches;
use std::alloc::{AllocError, Global};

/// What the program is asked to do.
#[derive(Clone, Copy)]
pub enum Invocation<'a> {
    /// To run an application.
    Run {
        /// The application's name.
        application: &'a str,
        /// The name of the file that its wire goes to.
        wire: Option<&'a str>,
        /// How many forms a display or a command may enter.
        budget: Option<u32>,
    },
    /// To load an application and say so.
    Check {
        /// The application's name.
        application: &'a str,
    },
    /// To run the bench.
    Bench {
        /// How many items it has, from 1 to 1,000.
        items: u32,
    },
}

/// The invocation that the words behind the program's name are; `None` where they are none. It
/// fails only for want of memory.
pub fn read_words<'a>(
    alloc: Global,
    words: &'a [&'a str],
) -> Result<Option<Invocation<'a>>, AllocError>
    ensures { IfOk result (λ read. option_map invocation read ≡ invocation_of (texts words.entry.now)) }
{
    match parts_of(alloc, words)? {
        Some(parts) => Ok(invocation_in(&parts)),
        None => Ok(None),
    }
}

// The invocation that the parts of the words are.
fn invocation_in<'a>(parts: &ArgMatches<'a>) -> Option<Invocation<'a>>
    ensures { option_map invocation result
        ≡ commanded (parts_in parts.now).positional (parts_in parts.now).wires (parts_in parts.now).budgets }
{
    let positional = parts.get_strs("words");
    let wires = parts.get_strs("wire");
    let budgets = parts.get_strs("budget");
    commanded(positional, wires, budgets)
}

// Two positional words: `run` or `check`, and the application, or `bench`, and the number of its items.
fn commanded<'a>(
    positional: Option<&[&'a str]>,
    wires: Option<&[&'a str]>,
    budgets: Option<&[&'a str]>,
) -> Option<Invocation<'a>>
    ensures { option_map invocation result ≡ commanded (values positional.entry) (values wires.entry) (values budgets.entry) }
{
    let Some([command, operand]) = positional else {
        return None;
    };
    if *command == "run" {
        run_of(operand, wires, budgets)
    } else if *command == "check" {
        check_of(operand, wires, budgets)
    } else if *command == "bench" {
        bench_of(operand, wires, budgets)
    } else {
        None
    }
}

// The run of an application with these values of the options.
fn run_of<'a>(
    application: &'a str,
    wires: Option<&[&'a str]>,
    budgets: Option<&[&'a str]>,
) -> Option<Invocation<'a>>
    ensures { option_map invocation result ≡ run_of application.entry.now (values wires.entry) (values budgets.entry) }
{
    let wire = at_most_one(wires)?;
    let budget = budget_given(at_most_one(budgets)?)?;
    Some(Invocation::Run {
        application,
        wire,
        budget,
    })
}

// No option stands beside `check`.
fn check_of<'a>(
    application: &'a str,
    wires: Option<&[&'a str]>,
    budgets: Option<&[&'a str]>,
) -> Option<Invocation<'a>>
    ensures { option_map invocation result ≡ check_of application.entry.now (values wires.entry) (values budgets.entry) }
{
    if is_absent(wires) && is_absent(budgets) {
        Some(Invocation::Check { application })
    } else {
        None
    }
}

// Nor beside `bench`.
fn bench_of<'a>(
    text: &str,
    wires: Option<&[&'a str]>,
    budgets: Option<&[&'a str]>,
) -> Option<Invocation<'a>>
    ensures { option_map invocation result ≡ bench_of text.now (values wires.entry) (values budgets.entry) }
{
    if !is_absent(wires) || !is_absent(budgets) {
        return None;
    }
    let items = items_in(text)?;
    Some(Invocation::Bench { items })
}

// The value of an option that is given at most once.
fn at_most_one<'a>(given: Option<&[&'a str]>) -> Option<Option<&'a str>>
    ensures { option_map text result ≡ at_most_one (values given.entry) }
{
    match given {
        None | Some([]) => Some(None),
        Some([value]) => Some(Some(value)),
        _ => None,
    }
}

// The budget, where one is given.
fn budget_given(given: Option<&str>) -> Option<Option<u32>>
    ensures { result ≡ budget_given (text given.entry) }
{
    match given {
        None => Some(None),
        Some(text) => Some(Some(budget_in(text)?)),
    }
}

// Whether no value is given.
fn is_absent(given: Option<&[&str]>) -> bool
    ensures { result ≡ (length (values given.entry) == 0) }
{
    match given {
        None | Some([]) => true,
        _ => false,
    }
}
