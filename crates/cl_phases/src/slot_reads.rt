//! Whether opening values, defaults of arguments, what stands for queries that are not shown and predicates read a
//! slot, through calls too.
ghost use Rattle.std.specs.Prelude.{◌≡◌, ◌↔◌, IfOk, IsTrue, OnOk, option_map};
ghost use Rattle.cl_phases.specs.SlotReads.{DefaultReads, DefaultsRead, ElseReads, ElsesRead, FunctionReads, ReadsSlot, Tells};
ghost use Rattle.cl_phases.specs.SlotSearch.{AreClear, StaysClear, body_at, calls, with_call, with_calls};

use crate::slot_names::{add_calls, names_slot};
use cl_application::{
    ArgumentDecl, ArgumentDecls, CommandDecl, DialogDecl, Functions, QueryDecl, QueryDecls,
    SlotDecls,
};
use cl_syntax::Expr;
use cl_table::{Declared, Names, Table};
use cl_value::Text;
use std::alloc::{AllocError, Global};
use std::marker::Model;
use std::mem;

/// A function that is reached through calls.
#[derive(Drop)]
struct Reached {
    name: Text,
}

impl Declared for Reached {
    ghost own_name = { λ r. r.name };

    fn name(&self) -> &Text {
        &self.name
    }
}

/// A search for slots through functions, seen as these functions. Until an opening value reads a slot, it looks
/// at the body of each once, however many values reach it.
#[derive(Drop)]
pub struct SlotSearch<'a> {
    alloc: Global,
    functions: &'a Functions,
    reached: Table<Reached>,
}

impl<'a> Model for SlotSearch<'a> {
    ghost use Rattle.std.specs.Coded.{codes};
    ghost use Rattle.cl_syntax.specs.contracts.expressions.Expr as expr;
    ghost use Rattle.cl_phases.specs.SlotReads.{Functions};

    ghost Value = { Functions };

    ghost coded = { Prim.hlevel (codes, expr.the_row.coded) };

    ghost use Rattle.cl_phases.specs.SlotSearch.{AreClear};

    ghost view = { λ s. s.functions.now };

    ghost invariant = { λ s. AreClear s.functions.now s.reached };
}

impl<'a> SlotSearch<'a> {
    /// A search that has looked at no body, which takes no memory.
    pub fn new(alloc: Global, functions: &'a Functions) -> SlotSearch<'a>
        ensures { result ≡ functions.now }
    {
        SlotSearch {
            alloc,
            functions,
            reached: Table::new(alloc),
        }
    }

    /// Whether one of these opening values reads a slot: one stands in it, or in the body of a function
    /// that is reached from it through calls. Where one does, or memory is wanting, what was reached is
    /// forgotten, since not all of it was looked at.
    pub fn any_reads_slot(&mut self, slots: &SlotDecls) -> Result<bool, AllocError>
        ensures reads { IfOk result (Tells self.old slots.now) }
        ensures same { self.new ≡ self.old }
    {
        let mut reached = mem::replace(&mut self.reached, Table::new(self.alloc));
        let reads = any_reads_slot(self.alloc, self.functions, slots, &mut reached)?;
        if !reads {
            self.reached = reached;
        }
        Ok(reads)
    }

    /// Whether a default of the command's arguments reads a slot: one stands in it, or in the body of a
    /// function that is reached from it through calls.
    pub fn command_reads_slot(&mut self, command: &CommandDecl) -> Result<bool, AllocError>
        ensures reads { IfOk result (λ b. IsTrue b ↔ DefaultsRead self.old command.now.arguments) }
        ensures same { self.new ≡ self.old }
    {
        let mut reached = mem::replace(&mut self.reached, Table::new(self.alloc));
        if defaults_read_slot(self.alloc, self.functions, &command.arguments, &mut reached)? {
            return Ok(true);
        }
        self.reached = reached;
        Ok(false)
    }

    /// Whether an `:else` of the dialog's queries reads a slot: one stands in it, or in the body of a function
    /// that is reached from it through calls.
    pub fn dialog_reads_slot(&mut self, dialog: &DialogDecl) -> Result<bool, AllocError>
        ensures reads { IfOk result (λ b. IsTrue b ↔ ElsesRead self.old dialog.now.queries) }
        ensures same { self.new ≡ self.old }
    {
        let mut reached = mem::replace(&mut self.reached, Table::new(self.alloc));
        if elses_read_slot(self.alloc, self.functions, &dialog.queries, &mut reached)? {
            return Ok(true);
        }
        self.reached = reached;
        Ok(false)
    }

    /// Whether the function of this name reads a slot: one stands in its body, or in that of a function that
    /// is reached from there through calls. No function that is not declared does.
    pub fn function_reads_slot(&mut self, name: &[u8]) -> Result<bool, AllocError>
        ensures reads { IfOk result (λ b. IsTrue b ↔ FunctionReads self.old name.now) }
        ensures same { self.new ≡ self.old }
    {
        let mut reached = mem::replace(&mut self.reached, Table::new(self.alloc));
        if function_reads_slot(self.alloc, self.functions, name, &mut reached)? {
            return Ok(true);
        }
        self.reached = reached;
        Ok(false)
    }
}

/// Whether the function of this name reads a slot. What was reached before reads none and is not looked at
/// again.
fn function_reads_slot(
    alloc: Global,
    functions: &Functions,
    name: &[u8],
    reached: &mut Table<Reached>,
) -> Result<bool, AllocError>
    requires { AreClear functions.now reached.old }
    ensures reads { IfOk result (λ b. IsTrue b ↔ FunctionReads functions.now name.now) }
    ensures clear { IfOk result (StaysClear functions.now reached.new) }
{
    match functions.get(name) {
        Some(function) => reads_slot(alloc, functions, &function.body, reached),
        None => Ok(false),
    }
}

/// Whether one of these opening values reads a slot. What was reached before reads none and is not looked
/// at again.
fn any_reads_slot(
    alloc: Global,
    functions: &Functions,
    slots: &SlotDecls,
    reached: &mut Table<Reached>,
) -> Result<bool, AllocError>
    requires { AreClear functions.now reached.old }
    ensures reads { IfOk result (Tells functions.now slots.now) }
    ensures clear { IfOk result (StaysClear functions.now reached.new) }
{
    for place in 0..slots.len() {
        let Some(slot) = slots.at(place) else {
            unreachable!()
        };
        if reads_slot(alloc, functions, &slot.opening, reached)? {
            return Ok(true);
        }
    }
    Ok(false)
}

/// Whether a default of these arguments reads a slot. What was reached before reads none and is not looked
/// at again.
fn defaults_read_slot(
    alloc: Global,
    functions: &Functions,
    arguments: &ArgumentDecls,
    reached: &mut Table<Reached>,
) -> Result<bool, AllocError>
    requires { AreClear functions.now reached.old }
    ensures reads { IfOk result (λ b. IsTrue b ↔ DefaultsRead functions.now arguments.now) }
    ensures clear { IfOk result (StaysClear functions.now reached.new) }
{
    for place in 0..arguments.len() {
        let Some(argument) = arguments.at(place) else {
            unreachable!()
        };
        if default_reads_slot(alloc, functions, argument, reached)? {
            return Ok(true);
        }
    }
    Ok(false)
}

/// Whether the default of an argument, if it has one, reads a slot. What was reached before reads none and is not looked
/// at again.
fn default_reads_slot(
    alloc: Global,
    functions: &Functions,
    argument: &ArgumentDecl,
    reached: &mut Table<Reached>,
) -> Result<bool, AllocError>
    requires { AreClear functions.now reached.old }
    ensures reads { IfOk result (λ b. IsTrue b ↔ DefaultReads functions.now argument.now.default) }
    ensures clear { IfOk result (StaysClear functions.now reached.new) }
{
    match &argument.default {
        Some(default) => reads_slot(alloc, functions, &default.value, reached),
        None => Ok(false),
    }
}

/// Whether an `:else` of these queries reads a slot. What was reached before reads none and is not looked at
/// again.
fn elses_read_slot(
    alloc: Global,
    functions: &Functions,
    queries: &QueryDecls,
    reached: &mut Table<Reached>,
) -> Result<bool, AllocError>
    requires { AreClear functions.now reached.old }
    ensures reads { IfOk result (λ b. IsTrue b ↔ ElsesRead functions.now queries.now) }
    ensures clear { IfOk result (StaysClear functions.now reached.new) }
{
    for place in 0..queries.len() {
        let Some(query) = queries.at(place) else {
            unreachable!()
        };
        if else_reads_slot(alloc, functions, query, reached)? {
            return Ok(true);
        }
    }
    Ok(false)
}

/// Whether the `:else` of a query, if it has one, reads a slot. What was reached before reads none and is not
/// looked at again.
fn else_reads_slot(
    alloc: Global,
    functions: &Functions,
    query: &QueryDecl,
    reached: &mut Table<Reached>,
) -> Result<bool, AllocError>
    requires { AreClear functions.now reached.old }
    ensures reads { IfOk result (λ b. IsTrue b ↔ ElseReads functions.now query.now.condition) }
    ensures clear { IfOk result (StaysClear functions.now reached.new) }
{
    match &query.condition {
        Some(condition) => reads_slot(alloc, functions, &condition.otherwise, reached),
        None => Ok(false),
    }
}

/// Whether the expression reads a slot. What was reached before reads none and is not looked at again.
fn reads_slot(
    alloc: Global,
    functions: &Functions,
    expr: &Expr,
    reached: &mut Table<Reached>,
) -> Result<bool, AllocError>
    requires { AreClear functions.now reached.old }
    ensures reads { IfOk result (λ b. IsTrue b ↔ ReadsSlot functions.now expr.now) }
    ensures clear { IfOk result (StaysClear functions.now reached.new) }
{
    if names_slot(expr) {
        return Ok(true);
    }
    let mut place = reached.len();
    reach(alloc, functions, expr, reached)?;
    while place < reached.len() {
        let Some(body) = body_at(functions, reached, place) else {
            unreachable!()
        };
        if names_slot(body) {
            return Ok(true);
        }
        reach(alloc, functions, body, reached)?;
        place += 1;
    }
    Ok(false)
}

/// The body of the function that was reached at a place.
fn body_at<'a>(functions: &'a Functions, reached: &Table<Reached>, place: usize) -> Option<&'a Expr>
    ensures { option_map (λ e. e.now) result ≡ body_at functions.now reached.now place }
{
    match reached.at(place) {
        Some(one) => match functions.get(one.name.as_slice()) {
            Some(function) => Some(&function.body),
            None => None,
        },
        None => None,
    }
}

/// Adds the functions that an expression calls.
fn reach(
    alloc: Global,
    functions: &Functions,
    expr: &Expr,
    reached: &mut Table<Reached>,
) -> Result<(), AllocError>
    ensures { OnOk result (reached.new ≡ with_calls functions.now (calls expr.now) reached.old) }
{
    let mut names = Names::new(alloc);
    add_calls(expr, &mut names)?;
    for name in names.as_slice() {
        add_reached(functions, name, reached)?;
    }
    Ok(())
}

fn add_reached(
    functions: &Functions,
    name: &Text,
    reached: &mut Table<Reached>,
) -> Result<(), AllocError>
    ensures { OnOk result (reached.new ≡ with_call functions.now name.now reached.old) }
{
    if functions.get(name.as_slice()).is_none() {
        return Ok(());
    }
    let name = name.copy()?;
    reached.add_first(Reached { name })
}
