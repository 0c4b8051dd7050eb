//! Values in a row, with their size and depth beside them.
ghost use Rattle.std.specs.Prelude.{◌≡◌, ◌++◌, ◌∷◌, [], ◌-◌, ◌^◌, IfErr, IfOk, OnOk, OnErr, map, min};
ghost use Rattle.cl_value.specs.Data.{depth_of_items, items_of, size_of_items};
ghost use Rattle.cl_value.specs.Value.{data_of};

use crate::Value;
use crate::measure::{depth_all, size_all};
use std::alloc::{AllocError, Global};
use std::marker::Model;

/// Values in a row, seen as their list.
#[cycle(value)]
#[derive(Drop)]
pub(crate) struct Row {
    values: Vec<Value>,
    /// The sizes together. It stands still at 2^64 - 1, and so does the depth.
    size: u64,
    /// The greatest depth, 0 where there are no values.
    depth: u64,
}

impl Model for Row {
    ghost use Rattle.std.specs.Prelude.{◌*◌, List, map};
    ghost use Rattle.std.specs.Coded.{coded_list};
    ghost use Rattle.cl_value.specs.Data.{Data, data_code, size_of_items, items_of};

    ghost Value = { List Data };

    ghost coded = { coded_list data_code };

    ghost use Rattle.cl_value.specs.Value.{data_of};
    ghost use Rattle.cl_value.specs.Measured.{IsMeasured};

    ghost view = { λ r. map data_of r.values.items };

    ghost invariant = { λ r. IsMeasured r.values.items r.size r.depth };

    ghost size = { λ ds. 2 * size_of_items (items_of ds) };

    ghost use Rattle.cl_value.specs.Falls.{row-size};

    ghost size_decreases = { λ r h. row-size r.values r.size r.depth };
}

impl Row {
    /// No values, which takes no memory.
    pub(crate) fn new(alloc: Global) -> Row
        ensures { result ≡ [] }
    {
        Row {
            values: Vec::new(alloc),
            size: 0,
            depth: 0,
        }
    }

    /// These values, each measured once.
    pub(crate) fn from_vec(values: Vec<Value>) -> Row
        ensures { result ≡ map data_of values.items }
    {
        let size = size_all(values.as_slice());
        let depth = depth_all(values.as_slice());
        Row {
            values,
            size,
            depth,
        }
    }

    pub(crate) fn as_slice(&self) -> &[Value]
        ensures { map data_of result.now ≡ self.now }
    {
        self.values.as_slice()
    }

    /// The sizes together.
    pub(crate) fn size(&self) -> u64
        ensures { result ≡ min (size_of_items (items_of self.now)) (2 ^ 64 - 1) }
    {
        self.size
    }

    /// The greatest depth, 0 where there are no values.
    pub(crate) fn depth(&self) -> u64
        ensures { result ≡ min (depth_of_items (items_of self.now)) (2 ^ 64 - 1) }
    {
        self.depth
    }

    /// Puts a value behind the others, or hands it back for want of memory.
    pub(crate) fn push(&mut self, value: Value) -> Result<(), Value>
        ensures ok { OnOk result (self.new ≡ self.old ++ data_of value ∷ []) }
        ensures err { OnErr result (self.new ≡ self.old) }
        ensures handed_back { IfErr result (λ v. v ≡ value) }
    {
        let size = self.size.saturating_add(value.size());
        let depth = self.depth.max(value.depth());
        if let Err(failed) = self.values.push(value) {
            return Err(failed.value);
        }
        self.size = size;
        self.depth = depth;
        Ok(())
    }

    /// The same values, each with one owner more, and room for one behind them.
    pub(crate) fn copy(&self, alloc: Global) -> Result<Row, AllocError>
        ensures { IfOk result (λ row. row ≡ self.now) }
    {
        let mut values = Vec::with_capacity(alloc, self.values.len().saturating_add(1))?;
        for value in self.values.as_slice() {
            values.push(value.copy()?)?;
        }
        Ok(Row {
            values,
            size: self.size,
            depth: self.depth,
        })
    }
}
