//! Answers orders on a region.
use crate::faults::Fault;
use crate::orders::Order;
use cl_region::{Rect, Region};
use std::alloc::{AllocError, Global};

/// Does what an order says, and tells what came of it.
pub fn answer(alloc: Global, region: &mut Region, order: Order) -> Result<String, Fault> {
    match order {
        Order::Add(rect) => {
            region.add(rect)?;
            Ok(pieces_and_cells(alloc, region)?)
        }
        Order::Minus(rect) => {
            region.minus(rect)?;
            let cells = count_cells(region);
            Ok(format!(in alloc; "cells {cells}")?)
        }
        Order::Holds { x, y } => {
            let word = if region.contains(x, y) { "yes" } else { "no" };
            Ok(String::from_str(alloc, word)?)
        }
        Order::Cells { width, height } => {
            *region = block_of(alloc, width, height)?;
            Ok(pieces_and_cells(alloc, region)?)
        }
        Order::Clear => {
            *region = Region::new(alloc);
            Ok(pieces_and_cells(alloc, region)?)
        }
    }
}

// A region to which single cells were added, row by row.
fn block_of(alloc: Global, width: i64, height: i64) -> Result<Region, AllocError> {
    let mut region = Region::new(alloc);
    for y in 0..height {
        for x in 0..width {
            region.add(Rect {
                x1: x,
                y1: y,
                x2: x + 1,
                y2: y + 1,
            })?;
        }
    }
    Ok(region)
}

fn pieces_and_cells(alloc: Global, region: &Region) -> Result<String, AllocError> {
    let pieces = region.rects().len();
    let cells = count_cells(region);
    format!(in alloc; "pieces {pieces} cells {cells}")
}

// How many cells there are: the sum over the pieces, of which no two share a cell.
fn count_cells(region: &Region) -> u64 {
    let mut cells: u64 = 0;
    for rect in region.rects() {
        cells = cells.saturating_add(area(rect));
    }
    cells
}

// How many cells there are in a rectangle that is not empty. In the range of coordinates they are at most 4,000,000,000,000.
fn area(rect: &Rect) -> u64 {
    let width = rect.x2.abs_diff(rect.x1);
    let height = rect.y2.abs_diff(rect.y1);
    width.saturating_mul(height)
}
