//! The layout of an envelope: which bytes are what.

use super::push_heading;
use crate::numbers::grouped;
use crate::screen::{Page, Tone};
use crate::survey::{Row, Survey};
use std::alloc::{AllocError, Global};

// Columns of the bar.
const BAR: usize = 76;

// The last digit of the number of an item, by its index.
fn last_digit(index: usize) -> char {
    match index % 10 {
        0 => '1',
        1 => '2',
        2 => '3',
        3 => '4',
        4 => '5',
        5 => '6',
        6 => '7',
        7 => '8',
        8 => '9',
        _ => '0',
    }
}

// What a byte at this offset is, which the item of this index or one before it holds.
fn mark_of(survey: &Survey<'_>, end: usize, index: usize, offset: usize) -> char {
    if offset < survey.body {
        return 'H';
    }
    match survey.rows.get(index) {
        Some(row) if offset < end => {
            if offset < row.frame.payload_start {
                'h'
            } else {
                last_digit(index)
            }
        }
        _ => '?',
    }
}

// Whether the row of this index stands at or in front of an offset.
fn is_reached(rows: &[Row<'_>], index: usize, offset: usize) -> bool {
    match rows.get(index) {
        Some(row) => row.frame.start <= offset,
        None => false,
    }
}

// Appends the envelope's size, and what the marks of the bar stand for.
fn push_legend(alloc: Global, page: &mut Page, survey: &Survey<'_>) -> Result<(), AllocError> {
    let size = grouped(alloc, survey.bytes.len() as u64)?;
    let mut legend = format!(in alloc; "{size} bytes: H header line")?;
    if !survey.rows.is_empty() {
        legend.push_str(", h item header, 1 payload of item 1")?;
    }
    if survey.end() < survey.bytes.len() {
        legend.push_str(", ? not read")?;
    }
    push_heading(page, &legend)
}

/// Appends a bar: each column stands for as many bytes, and tells what the first of them is.
pub fn push_layout(alloc: Global, page: &mut Page, survey: &Survey<'_>) -> Result<(), AllocError> {
    let len = survey.bytes.len();
    if len == 0 {
        return Ok(());
    }
    let end = survey.end();
    let mut bar = String::from_str(alloc, "  ")?;
    let mut index = 0usize;
    for column in 0..BAR {
        let offset = column.saturating_mul(len) / BAR;
        for _ in 0..survey.rows.len() {
            if !is_reached(&survey.rows, index.saturating_add(1), offset) {
                break;
            }
            index = index.saturating_add(1);
        }
        bar.push(mark_of(survey, end, index, offset))?;
    }
    push_legend(alloc, page, survey)?;
    page.line(Tone::Plain, &bar)
}
