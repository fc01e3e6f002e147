//! Tables and ranges over which a part is played anew.
use crate::fault::{Fault, unreadable};
use crate::settings::{number_of, split};
use std::alloc::{AllocError, Global};

/// A table: the names of its columns, and its rows; or the numbers of a range.
#[derive(Drop)]
pub struct Table<'a> {
    names: &'a str,
    rows: Vec<&'a str>,
    range: Option<(u64, u64)>,
}

impl<'a> Table<'a> {
    /// How often a part is played for it.
    fn count(&self) -> u64 {
        match self.range {
            Some((from, to)) => to.saturating_sub(from).saturating_add(1),
            None => self.rows.len() as u64,
        }
    }
}

/// `each NAME A..B`, or `each NAME..` before the rows.
fn read_table<'a>(alloc: Global, rest: &'a str) -> Result<Table<'a>, Fault> {
    let (name, range) = split(rest);
    let rows = Vec::new(alloc);
    match range.split_once("..") {
        Some((from, to)) => Ok(Table {
            names: name,
            rows,
            range: Some((number_of(alloc, from)?, number_of(alloc, to)?)),
        }),
        None => Ok(Table {
            names: rest,
            rows,
            range: None,
        }),
    }
}

/// Adds a row to the last table.
fn add_row<'a>(alloc: Global, tables: &mut Vec<Table<'a>>, row: &'a str) -> Result<(), Fault> {
    let last = tables.len().saturating_sub(1);
    match tables.get_mut(last) {
        Some(table) => Ok(table.rows.push(row)?),
        None => Err(unreadable(alloc, "a row without a table")),
    }
}

/// The tables among these lines.
pub fn tables_of<'a>(alloc: Global, lines: &[(u64, &'a str)]) -> Result<Vec<Table<'a>>, Fault> {
    let mut tables = Vec::new(alloc);
    for (_, line) in lines {
        let (word, rest) = split(line);
        match word {
            "each" => tables.push(read_table(alloc, rest)?)?,
            "|" => add_row(alloc, &mut tables, rest)?,
            _ => {}
        }
    }
    Ok(tables)
}

/// How often a part with these tables is played.
pub fn count_of(tables: &[Table]) -> u64 {
    let mut count = 1u64;
    for table in tables {
        count = count.saturating_mul(table.count());
    }
    count
}

/// The cell of this row under the column at this place.
fn cell(row: &str, place: usize) -> &str {
    row.split(" | ").nth(place).unwrap_or("")
}

/// Puts a row's cells in the place of the columns' names in braces.
fn fill_row(alloc: Global, text: String, names: &str, row: &str) -> Result<String, AllocError> {
    let mut text = text;
    for (place, name) in names.split_whitespace().enumerate() {
        let mark = format!(in alloc; "{{{name}}}")?;
        if text.as_str().contains(mark.as_str()) {
            text = text
                .as_str()
                .replace(alloc, mark.as_str(), cell(row, place).trim())?;
        }
    }
    Ok(text)
}

/// The same for a table, at its row of this number.
fn fill_table(
    alloc: Global,
    text: String,
    table: &Table,
    number: u64,
) -> Result<String, AllocError> {
    if let Some((from, _)) = table.range {
        let value = format!(in alloc; "{}", from.saturating_add(number))?;
        return fill_row(alloc, text, table.names, value.as_str());
    }
    match table.rows.get(number as usize) {
        Some(row) => fill_row(alloc, text, table.names, row),
        None => Ok(text),
    }
}

/// The line as it is played for the combination of this number.
pub fn filled(
    alloc: Global,
    line: &str,
    tables: &[Table],
    combination: u64,
) -> Result<String, AllocError> {
    let mut text = String::from_str(alloc, line)?;
    let mut rest = combination;
    for table in tables {
        let count = table.count();
        if count == 0 {
            continue;
        }
        text = fill_table(alloc, text, table, rest % count)?;
        rest /= count;
    }
    Ok(text)
}
