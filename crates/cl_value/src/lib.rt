//! Values of the application language, and their texts. The CLIM II specification leaves values to Lisp:
//! the kinds, their sizes and their order are our own profile.
#![tactic(auto)]

ghost use Rattle.std.specs.Prelude.{◌≡◌, ◌↔◌, ◌==◌, ◌++◌, ◌∷◌, [], ◌-◌, ◌^◌, IfOk, IfErr, OnOk, OnErr, IsTrue, length, map, min};
ghost use Rattle.std.specs.Cmp.Lexicographic.{pointwise};
ghost use Rattle.std.proofs.Common.{rules};
ghost use Rattle.std.specs.Cmp.Rules.{comparing, hashing};
ghost use Rattle.std.specs.Hash as fed;
ghost use Rattle.cl_value.specs.Data.{depth_of_items, items_of, size_of_items};
ghost use Rattle.cl_value.specs.Value.{data_of};

use row::Row;
use std::alloc::{AllocError, Global};
use std::hash::{Hash, Hasher};
use std::marker::Model;
use std::rc::Rc;

mod laws;
mod measure;
mod order;
mod row;

pub use laws::{data_tells_values, depth_within_size, order_is_total, order_tells_values};

/// Bytes, seen as their list. A copy shares them.
#[derive(Drop)]
pub struct Text {
    bytes: Rc<Vec<u8>>,
}

impl Model for Text {
    ghost use Rattle.std.specs.Prelude.{ℕ, List};

    ghost Value = { List ℕ };

    ghost view = { λ t. t.bytes.value.items };
}

/// A value of the application language.
#[cycle(value)]
#[derive(Drop)]
pub enum Value {
    Int(i64),
    Bool(bool),
    Text(Text),
    Symbol(Text),
    Null,
    List(Values),
    /// The record's name and its fields in their order.
    Record(Text, Values),
}

/// Values in a row, seen as their list. A copy shares them.
#[cycle(value)]
#[derive(Drop)]
pub struct Values {
    alloc: Global,
    /// `None` for no values, which takes no memory.
    row: Option<Rc<Row>>,
}

impl Model for Values {
    ghost use Rattle.std.specs.Prelude.{◌+◌, ◌*◌, List};
    ghost use Rattle.std.specs.Coded.{coded_list};
    ghost use Rattle.cl_value.specs.Data.{Data, data_code, size_of_items, items_of};

    ghost Value = { List Data };

    ghost coded = { coded_list data_code };

    ghost use Rattle.cl_value.specs.Shared.{shared_row};

    ghost view = { λ a. shared_row a.row };

    ghost size = { λ ds. 2 * size_of_items (items_of ds) + 1 };

    ghost use Rattle.cl_value.specs.Falls.{shared-size};

    ghost size_decreases = { λ a h. shared-size a.alloc a.row };
}

impl Text {
    /// A text of these bytes.
    pub fn from_slice(alloc: Global, bytes: &[u8]) -> Result<Text, AllocError>
        ensures { IfOk result (λ t. t ≡ bytes.now) }
    {
        let bytes = Vec::from_slice(alloc, bytes)?;
        Ok(Text {
            bytes: Rc::new(alloc, bytes)?,
        })
    }

    /// A text of these bytes, which are not copied.
    pub fn from_vec(alloc: Global, bytes: Vec<u8>) -> Result<Text, AllocError>
        ensures { IfOk result (λ t. t ≡ bytes.items) }
    {
        Ok(Text {
            bytes: Rc::new(alloc, bytes)?,
        })
    }

    /// The bytes.
    pub fn as_slice(&self) -> &[u8]
        ensures { result.now ≡ self.now }
    {
        self.bytes.as_slice()
    }

    /// The same text, which takes no memory: it fails only where one text has as many owners as can be counted.
    pub fn copy(&self) -> Result<Text, AllocError>
        ensures { IfOk result (λ t. t ≡ self.now) }
    {
        Ok(Text {
            bytes: self.bytes.clone()?,
        })
    }
}

impl PartialEq for Text {
    ghost eq = { pointwise ◌==◌ };

    ghost laws = { Prim.search (comparing, rules) };

    fn eq(&self, other: &Text) -> bool {
        self.as_slice() == other.as_slice()
    }
}

impl Eq for Text {
    ghost laws = { Prim.search (comparing, rules) };
}

impl Hash for Text {
    ghost hash_input = { fed.slice fed.u8 };

    ghost respects_eq = { Prim.search (hashing, rules) };

    fn hash<H: Hasher>(&self, state: &mut H) {
        self.as_slice().hash(state)
    }
}

impl Values {
    /// No values, which takes no memory.
    pub fn new(alloc: Global) -> Values
        ensures { result ≡ [] }
    {
        Values { alloc, row: None }
    }

    /// These values, which are not copied.
    pub fn from_vec(alloc: Global, values: Vec<Value>) -> Result<Values, AllocError>
        ensures { IfOk result (λ vs. vs ≡ map data_of values.items) }
    {
        if values.is_empty() {
            return Ok(Values::new(alloc));
        }
        Ok(Values {
            alloc,
            row: Some(Rc::new(alloc, Row::from_vec(values))?),
        })
    }

    /// The values in their order.
    pub fn as_slice(&self) -> &[Value]
        ensures { map data_of result.now ≡ self.now }
    {
        match &self.row {
            Some(row) => row.as_slice(),
            None => &[],
        }
    }

    /// How many values.
    pub fn len(&self) -> usize
        ensures { result ≡ length self.now }
    {
        self.as_slice().len()
    }

    pub fn is_empty(&self) -> bool
        ensures { IsTrue result ↔ (self.now ≡ []) }
    {
        self.as_slice().is_empty()
    }

    /// The sizes of the values together. It stands still at 2^64 - 1.
    pub fn size(&self) -> u64
        ensures { result ≡ min (size_of_items (items_of self.now)) (2 ^ 64 - 1) }
    {
        match &self.row {
            Some(row) => row.size(),
            None => 0,
        }
    }

    /// The greatest depth of the values, 0 where there are none. It stands still at 2^64 - 1.
    pub fn depth(&self) -> u64
        ensures { result ≡ min (depth_of_items (items_of self.now)) (2 ^ 64 - 1) }
    {
        match &self.row {
            Some(row) => row.depth(),
            None => 0,
        }
    }

    /// Puts a value behind the others. Where these are shared, it copies their row and no more.
    /// Where memory is wanting, it hands the value back.
    pub fn push(&mut self, value: Value) -> Result<(), Value>
        ensures ok { OnOk result (self.new ≡ self.old ++ data_of value ∷ []) }
        ensures err { OnErr result (self.new ≡ self.old) }
        ensures handed_back { IfErr result (λ v. v ≡ value) }
    {
        if let Some(row) = &mut self.row {
            if let Some(row) = Rc::get_mut(row) {
                return row.push(value);
            }
        }
        let Ok(mut row) = self.row_of_own() else {
            return Err(value);
        };
        match Rc::get_mut(&mut row) {
            Some(own) => own.push(value)?,
            // A new row has one owner, so this does not come.
            None => return Err(value),
        }
        self.row = Some(row);
        Ok(())
    }

    /// The values in a row with one owner.
    fn row_of_own(&self) -> Result<Rc<Row>, AllocError>
        ensures { IfOk result (λ row. row.value ≡ self.now) }
    {
        let row = match &self.row {
            Some(row) => row.copy(self.alloc)?,
            None => Row::new(self.alloc),
        };
        Ok(Rc::new(self.alloc, row)?)
    }

    /// The same values, which takes no memory: it fails only where one list has as many owners as can be counted.
    pub fn copy(&self) -> Result<Values, AllocError>
        ensures { IfOk result (λ vs. vs ≡ self.now) }
    {
        match &self.row {
            Some(row) => Ok(Values {
                alloc: self.alloc,
                row: Some(row.clone()?),
            }),
            None => Ok(Values::new(self.alloc)),
        }
    }
}

impl Value {
    /// The same value, which takes no memory: it fails only where one part has as many owners as can be counted.
    pub fn copy(&self) -> Result<Value, AllocError>
        ensures { IfOk result (λ v. v ≡ self.now) }
    {
        Ok(match self {
            Value::Int(number) => Value::Int(*number),
            Value::Bool(truth) => Value::Bool(*truth),
            Value::Text(text) => Value::Text(text.copy()?),
            Value::Symbol(name) => Value::Symbol(name.copy()?),
            Value::Null => Value::Null,
            Value::List(parts) => Value::List(parts.copy()?),
            Value::Record(name, parts) => Value::Record(name.copy()?, parts.copy()?),
        })
    }
}

/// Whether a value is in a type, as far as that could be found.
#[derive(Clone, Copy, PartialEq, Eq, Debug)]
pub enum Held {
    Yes,
    No,
    /// Memory was wanting.
    Memory,
}
