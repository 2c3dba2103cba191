//! Clauses over the variables of a grid.

ghost use Rattle.std.specs.Prelude.{◌≡◌, ◌<◌, ◌+◌, ◌*◌, ◌^◌, OnOk, OnErr};
ghost use Rattle.bounded_encoding.specs.Begun.{IsBegun};
ghost use Rattle.bounded_encoding.specs.Grids.{one_in_row, one_in_each, falling_in_row, falling_in_each, IsGrid};
ghost use Rattle.bounded_encoding.specs.Made.{with_clauses};
ghost use Rattle.bounded_encoding.specs.Refusing.{Refuses};

use crate::builder::Builder;
use crate::errors::EncodeError;
use crate::simple_clauses::{add_exactly_one, add_falling};
use std::alloc::Global;

/// Variables by row, column and place, whose indices follow each other.
#[derive(Clone, Copy)]
pub struct Grid {
    /// The first index.
    pub base: u32,
    /// How many rows there are.
    pub rows: u32,
    /// How many columns there are.
    pub columns: u32,
    /// How many variables there are in a row and a column.
    pub width: u32,
}

/// The index of the first variable in a row and a column.
fn cell_base(grid: Grid, row: u32, column: u32) -> u32
    requires grid { IsGrid grid }
    requires row { row < grid.rows }
    requires column { column < grid.columns }
    ensures value { result ≡ grid.base + (row * grid.columns + column) * grid.width }
    ensures room { result + grid.width < 2 ^ 31 }
{
    grid.base + (row * grid.columns + column) * grid.width
}

/// Adds that exactly one variable in a row and each column is true.
fn add_one_in_row(alloc: Global, out: &mut Builder, grid: Grid, row: u32) -> Result<(), EncodeError>
    requires grid { IsGrid grid }
    requires row { row < grid.rows }
    ensures added { OnOk result (out.new ≡ with_clauses out.old (one_in_row grid row)) }
    ensures refused { Refuses result (with_clauses out.old (one_in_row grid row)) }
    ensures begun { OnErr result (IsBegun out.old (one_in_row grid row) out.new) }
{
    for column in 0..grid.columns {
        let base = cell_base(grid, row, column);
        add_exactly_one(alloc, out, base, 0, grid.width)?;
    }
    Ok(())
}

/// Adds that exactly one variable in each row and column is true.
pub(crate) fn add_one_in_each(
    alloc: Global,
    out: &mut Builder,
    grid: Grid,
) -> Result<(), EncodeError>
    requires { IsGrid grid }
    ensures added { OnOk result (out.new ≡ with_clauses out.old (one_in_each grid)) }
    ensures refused { Refuses result (with_clauses out.old (one_in_each grid)) }
    ensures begun { OnErr result (IsBegun out.old (one_in_each grid) out.new) }
{
    for row in 0..grid.rows {
        add_one_in_row(alloc, out, grid, row)?;
    }
    Ok(())
}

/// Adds for a row and each column that a variable at a place from 1 to a bound makes the one before true.
fn add_falling_in_row(
    alloc: Global,
    out: &mut Builder,
    grid: Grid,
    bound: u32,
    row: u32,
) -> Result<(), EncodeError>
    requires grid { IsGrid grid }
    requires bound { bound < grid.width }
    requires row { row < grid.rows }
    ensures added { OnOk result (out.new ≡ with_clauses out.old (falling_in_row grid bound row)) }
    ensures refused { Refuses result (with_clauses out.old (falling_in_row grid bound row)) }
    ensures begun { OnErr result (IsBegun out.old (falling_in_row grid bound row) out.new) }
{
    for column in 0..grid.columns {
        let base = cell_base(grid, row, column);
        add_falling(alloc, out, base, bound)?;
    }
    Ok(())
}

/// Adds for each row and column that a variable at a place from 1 to a bound makes the one before true.
pub(crate) fn add_falling_in_each(
    alloc: Global,
    out: &mut Builder,
    grid: Grid,
    bound: u32,
) -> Result<(), EncodeError>
    requires grid { IsGrid grid }
    requires bound { bound < grid.width }
    ensures added { OnOk result (out.new ≡ with_clauses out.old (falling_in_each grid bound)) }
    ensures refused { Refuses result (with_clauses out.old (falling_in_each grid bound)) }
    ensures begun { OnErr result (IsBegun out.old (falling_in_each grid bound) out.new) }
{
    for row in 0..grid.rows {
        add_falling_in_row(alloc, out, grid, bound, row)?;
    }
    Ok(())
}
