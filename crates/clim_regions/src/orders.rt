//! Orders from lines.
use crate::faults::Fault;
use cl_region::{MAX_COORDINATE, Rect};

/// What a line says.
#[derive(Clone, Copy)]
pub enum Order {
    Add(Rect),
    Minus(Rect),
    Holds { x: i64, y: i64 },
    /// Rows of single cells, from the first column of the first row on.
    Cells { width: i64, height: i64 },
    Clear,
}

/// The order of a line.
pub fn order_in(line: &str) -> Result<Order, Fault> {
    if line == "clear" {
        return Ok(Order::Clear);
    }
    let Some((head, rest)) = line.split_once(' ') else {
        return Err(Fault::Wrong);
    };
    match head {
        "add" => Ok(Order::Add(rect_in(rest)?)),
        "minus" => Ok(Order::Minus(rect_in(rest)?)),
        "holds" => cell_in(rest),
        "cells" => block_in(rest),
        _ => Err(Fault::Wrong),
    }
}

// `X1 Y1 X2 Y2`
fn rect_in(text: &str) -> Result<Rect, Fault> {
    let mut words = text.split(' ');
    let (Some(x1), Some(y1), Some(x2), Some(y2), None) = (
        words.next(),
        words.next(),
        words.next(),
        words.next(),
        words.next(),
    ) else {
        return Err(Fault::Wrong);
    };
    Ok(Rect {
        x1: number_in(x1)?,
        y1: number_in(y1)?,
        x2: number_in(x2)?,
        y2: number_in(y2)?,
    })
}

// `X Y`
fn cell_in(text: &str) -> Result<Order, Fault> {
    let Some((x, y)) = text.split_once(' ') else {
        return Err(Fault::Wrong);
    };
    Ok(Order::Holds {
        x: number_in(x)?,
        y: number_in(y)?,
    })
}

// `W H`, neither of them below 0.
fn block_in(text: &str) -> Result<Order, Fault> {
    let Some((width, height)) = text.split_once(' ') else {
        return Err(Fault::Wrong);
    };
    let width = number_in(width)?;
    let height = number_in(height)?;
    if width < 0 || height < 0 {
        return Err(Fault::Wrong);
    }
    Ok(Order::Cells { width, height })
}

// A number that lies no further from 0 than the greatest coordinate.
fn number_in(word: &str) -> Result<i64, Fault> {
    let Ok(number) = word.parse() else {
        return Err(Fault::Wrong);
    };
    if number < -MAX_COORDINATE || number > MAX_COORDINATE {
        return Err(Fault::Wrong);
    }
    Ok(number)
}
