ghost use Rattle.std.specs.Prelude.{◌≡◌, OnOk, ◌++◌};
ghost use Rattle.board_reader.specs.Tables.{value_at, is_full_row, is_full, row_of, table};

use geo_rect::{List, NoMemory};
use std::alloc::AllocError;

/// A value that is given for a row and a column.
#[derive(Copy)]
pub struct Entry<T> {
    pub row: u32,
    pub column: u32,
    pub value: T,
}

impl<T: Copy> Clone for Entry<T> {
    fn clone(&self) -> Result<Entry<T>, AllocError> {
        Ok(*self)
    }
}

/// The first value given for a row and a column.
#[tactic(auto, unfolding(crate::specs::Tables::value_at))]
pub fn value_at<T: Copy>(entries: &[Entry<T>], row: u32, column: u32) -> Option<T>
    ensures { result ≡ value_at entries.now row column }
{
    for entry in entries {
        if entry.row == row && entry.column == column {
            return Some(entry.value);
        }
    }
    None
}

fn is_full_row<T: Copy>(entries: &[Entry<T>], columns: u32, row: u32) -> bool
    ensures { result ≡ is_full_row entries.now columns row }
{
    for column in 0..columns {
        if value_at(entries, row, column).is_none() {
            return false;
        }
    }
    true
}

/// Whether each row and column has a value.
pub fn is_full<T: Copy>(entries: &[Entry<T>], rows: u32, columns: u32) -> bool
    ensures { result ≡ is_full entries.now rows columns }
{
    for row in 0..rows {
        if !is_full_row(entries, columns, row) {
            return false;
        }
    }
    true
}

fn push_row<T: Copy>(
    list: &mut List<T>,
    entries: &[Entry<T>],
    columns: u32,
    row: u32,
) -> Result<(), NoMemory>
    ensures { OnOk result (list.new ≡ list.old ++ row_of entries.now columns row) }
{
    for column in 0..columns {
        if let Some(value) = value_at(entries, row, column) {
            list.push(value)?;
        }
    }
    Ok(())
}

/// Adds the values row by row, and in each row by columns.
pub fn lay_out<T: Copy>(
    list: &mut List<T>,
    entries: &[Entry<T>],
    rows: u32,
    columns: u32,
) -> Result<(), NoMemory>
    ensures { OnOk result (list.new ≡ list.old ++ table entries.now rows columns) }
{
    for row in 0..rows {
        push_row(list, entries, columns, row)?;
    }
    Ok(())
}
