//! Variables: those that a caller gives, and those that forms bind.
ghost use Rattle.std.specs.Prelude.{◌≡◌, [], ◌∷◌, OnOk, OnErr, option_map, reverse, map};
ghost use Rattle.cl_value.specs.Value.{data_of};
ghost use Rattle.cl_eval.specs.Slots.{entry_of, value_named, bind_parameters};
ghost use Rattle.cl_eval.specs.Scope.{variables_of};

use cl_table::Names;
use cl_value::{Text, Value};
use std::alloc::{AllocError, Global};
use std::marker::Model;

/// Variables with their values, which contracts see as their list, the newest first.
#[derive(Drop)]
pub struct Env {
    variables: Vec<(Text, Value)>,
}

impl Model for Env {
    ghost use Rattle.std.specs.Prelude.{ℕ, List, map, reverse};
    ghost use Rattle.std.specs.Coded.{coded_list, coded_ℕ, coded×};
    ghost use Rattle.cl_value.specs.Data.{Data, data_code};

    ghost Value = { List (List ℕ × Data) };

    ghost coded = { coded_list (coded× (coded_list coded_ℕ) data_code) };

    ghost use Rattle.cl_eval.specs.Slots.{entry_of};

    ghost view = { λ e. reverse (map entry_of e.variables.items) };
}

impl Env {
    /// No variable.
    pub fn new(alloc: Global) -> Env
        ensures { result ≡ [] }
    {
        Env {
            variables: Vec::new(alloc),
        }
    }

    /// Adds a variable, which hides an earlier one of its name.
    pub fn bind(&mut self, name: Text, value: Value) -> Result<(), AllocError>
        ensures ok { OnOk result (self.new ≡ (name, data_of value) ∷ self.old) }
        ensures err { OnErr result (self.new ≡ self.old) }
    {
        self.variables.push((name, value))?;
        Ok(())
    }

    /// The value of the newest variable of that name, and None exactly where there is none.
    pub fn get(&self, name: &[u8]) -> Option<&Value>
        ensures { option_map (λ v. data_of v.now) result ≡ value_named name.now self.now }
    {
        newest(self.variables.as_slice(), name)
    }
}

// The value of the last variable of that name.
fn newest<'a>(variables: &'a [(Text, Value)], name: &[u8]) -> Option<&'a Value>
    ensures { option_map (λ v. data_of v.now) result
        ≡ value_named name.now (reverse (map entry_of variables.now)) }
{
    let mut left = variables;
    while let Some((last, rest)) = left.split_last() {
        if last.0.as_slice() == name {
            return Some(&last.1);
        }
        left = rest;
    }
    None
}

/// The variables that a form sees, the newest first. It borrows all that it holds.
#[derive(Drop)]
pub enum Scope<'a> {
    /// Those of a caller.
    Given(&'a Env),
    /// One more, in front of others.
    Bound(&'a Text, &'a Value, &'a Scope<'a>),
    /// Those of a frame, in front of others.
    Frame(&'a Env, &'a Scope<'a>),
    /// A function's parameters with their values.
    Parameters(&'a Names, &'a [Value]),
}

impl Scope<'_> {
    /// The value of the newest variable of that name, and None exactly where there is none.
    #[tactic(auto, using(crate::proofs::ListLemmas::found_in_frame, crate::proofs::ListLemmas::found_behind_frame))]
    pub fn get(&self, name: &[u8]) -> Option<&Value>
        ensures { option_map (λ v. data_of v.now) result ≡ value_named name.now (variables_of self.now) }
    {
        match self {
            Scope::Given(env) => env.get(name),
            Scope::Bound(bound, value, outer) => {
                if bound.as_slice() == name {
                    Some(value)
                } else {
                    outer.get(name)
                }
            }
            Scope::Frame(frame, outer) => match frame.get(name) {
                Some(value) => Some(value),
                None => outer.get(name),
            },
            Scope::Parameters(names, values) => find(names.as_slice(), values, name),
        }
    }
}

// The value that is given to the first parameter of that name.
fn find<'a>(names: &[Text], values: &'a [Value], name: &[u8]) -> Option<&'a Value>
    ensures { option_map (λ v. data_of v.now) result
        ≡ value_named name.now (bind_parameters names.now (map data_of values.now)) }
{
    match names.split_first() {
        Some((first, names)) => match values.split_first() {
            Some((value, values)) => {
                if first.as_slice() == name {
                    Some(value)
                } else {
                    find(names, values, name)
                }
            }
            None => None,
        },
        None => None,
    }
}
