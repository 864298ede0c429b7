//! Texts that need no quotes, which are read without a copy.
ghost use Rattle.std.specs.Prelude.{◌≡◌, ◌≢◌, ◌≤◌, ◌<◌, ◌+◌, ℕ, List, [], take, drop, length, IfOk, IfSome};
ghost use Rattle.std.specs.List.{sum};
ghost use Rattle.stim_csv.specs.Plain.{AddsCells, HasRow, IsLine};

use crate::alike::bytes_alike;
use crate::cells::cell_before;
use crate::numbers::Numbers;
use std::alloc::AllocError;

/// The fewest columns of which a row is compared with the row before.
const FEWEST_COLUMNS: usize = 32;

/// The fewest cells for which it pays to compare.
const FEWEST_CELLS: usize = 4;

/// How often in succession fewer cells than these may be alike before the rest of the row is read without comparing.
const PATIENCE: u32 = 8;

/// The place of the first line feed, where some bytes stand before it and all of them are of a line.
pub(crate) fn line_end(text: &[u8]) -> Option<usize>
    ensures { IfSome result (λ end. IsLine text.now end) }
{
    for (end, byte) in text.iter().enumerate() {
        if *byte == b'\n' {
            return if end == 0 { None } else { Some(end) };
        }
        if *byte == b'"' || *byte == b'\r' || *byte > 126 {
            return None;
        }
    }
    None
}

/// The byte behind the cell of a column.
fn separator_of(column: usize, columns: usize) -> u8
    requires { column < columns }
    ensures comma { column + 1 < columns → result ≡ 44 }
    ensures line_feed { columns ≤ column + 1 → result ≡ 10 }
{
    if column + 1 < columns { b',' } else { b'\n' }
}

/// Reads the cells of a row from a column on, which stand at a place of a text, and answers the place past them. There is
/// none where one has a problem, or isn't one of small numbers, or a line feed doesn't end them. Their numbers are added, and
/// their lengths are put in the places of their columns, each with the byte behind the cell.
fn cells_from(
    widths: &[u8],
    first: usize,
    text: &[u8],
    start: usize,
    lengths: &mut [usize],
    numbers: &mut Numbers,
) -> Result<Option<usize>, AllocError>
    requires column { first ≤ length widths.now }
    requires lengths { length lengths.old ≡ length widths.now }
    requires within { start ≤ length text.now }
    ensures within { IfOk result (λ found. IfSome found (λ end. end ≤ length text.now)) }
    ensures lengths { length lengths.new ≡ length lengths.old }
    ensures cells { IfOk result (λ found. IfSome found
        (λ end. AddsCells widths.now first (drop start text.now) (drop end text.now) lengths.old lengths.new numbers.old numbers.new)) }
{
    let mut at = start;
    for column in first..widths.len() {
        let separator = separator_of(column, widths.len());
        let Some((number, end)) = cell_before(text, at, separator, widths[column]) else {
            return Ok(None);
        };
        numbers.push(u128::from(number), widths.len())?;
        lengths[column] = end - at;
        at = end;
    }
    Ok(Some(at))
}

/// How many of the first cells end within so many bytes, by their lengths, and how many bytes these cells are.
fn cells_within(lengths: &[usize], most: usize) -> (usize, usize)
    ensures count { result.0 ≤ length lengths.now }
    ensures bytes { result.1 ≡ sum (take result.0 lengths.now) }
    ensures within { result.1 ≤ most }
{
    let mut bytes = 0;
    for (count, length) in lengths.iter().enumerate() {
        if most - bytes < *length {
            return (count, bytes);
        }
        bytes += *length;
    }
    (lengths.len(), bytes)
}

/// How often the next cells may be less alike, where so many were alike.
fn patience_after(patience: u32, cells: usize) -> u32
    requires { 0 < patience }
{
    if cells < FEWEST_CELLS {
        patience - 1
    } else {
        PATIENCE
    }
}

/// As `row_at`, where the row before begins at a place: cells whose bytes are those of the row before have its numbers.
fn row_like(
    widths: &[u8],
    text: &[u8],
    before: usize,
    start: usize,
    lengths: &mut [usize],
    numbers: &mut Numbers,
) -> Result<Option<usize>, AllocError>
    requires lengths { length lengths.old ≡ length widths.now }
    requires before { before ≤ length text.now }
    requires within { start ≤ length text.now }
    requires row { HasRow widths.now (drop before text.now) (drop start text.now) lengths.old numbers.old }
    ensures within { IfOk result (λ found. IfSome found (λ end. end ≤ length text.now)) }
    ensures lengths { length lengths.new ≡ length lengths.old }
    ensures cells { IfOk result (λ found. IfSome found
        (λ end. AddsCells widths.now 0 (drop start text.now) (drop end text.now) lengths.old lengths.new numbers.old numbers.new)) }
{
    let from = numbers.len() - widths.len();
    let mut was = before;
    let mut at = start;
    let mut column = 0;
    let mut patience = PATIENCE;
    while patience > 0 {
        let alike = bytes_alike(&text[was..], &text[at..], start.saturating_sub(was));
        let (count, bytes) = cells_within(&lengths[column..], alike);
        numbers.repeat(from + column, count)?;
        was += bytes;
        at += bytes;
        column += count;
        if column == widths.len() {
            return Ok(Some(at));
        }
        let separator = separator_of(column, widths.len());
        let Some((number, end)) = cell_before(text, at, separator, widths[column]) else {
            return Ok(None);
        };
        numbers.push(u128::from(number), widths.len())?;
        was += lengths[column];
        lengths[column] = end - at;
        at = end;
        column += 1;
        patience = patience_after(patience, count);
    }
    cells_from(widths, column, text, at, lengths, numbers)
}

/// Reads the row at a place of a text, and answers the place past it. There is none where the row has a problem, or isn't
/// one of small numbers which a line feed ends. The numbers of its cells are added, in the order of the columns, and their
/// lengths are kept, each with the byte behind the cell. The row before begins at a place, which is the row's own where there
/// is none.
pub(crate) fn row_at(
    widths: &[u8],
    text: &[u8],
    before: usize,
    start: usize,
    lengths: &mut [usize],
    numbers: &mut Numbers,
) -> Result<Option<usize>, AllocError>
    requires lengths { length lengths.old ≡ length widths.now }
    requires before { before ≤ length text.now }
    requires within { start ≤ length text.now }
    requires row { before ≢ start → HasRow widths.now (drop before text.now) (drop start text.now) lengths.old numbers.old }
    ensures within { IfOk result (λ found. IfSome found (λ end. end ≤ length text.now)) }
    ensures lengths { length lengths.new ≡ length lengths.old }
    ensures some { IfOk result (λ found. IfSome found (λ end. 0 < length widths.now)) }
    ensures cells { IfOk result (λ found. IfSome found
        (λ end. AddsCells widths.now 0 (drop start text.now) (drop end text.now) lengths.old lengths.new numbers.old numbers.new)) }
{
    if widths.is_empty() {
        return Ok(None);
    }
    if before == start || widths.len() < FEWEST_COLUMNS {
        return cells_from(widths, 0, text, start, lengths, numbers);
    }
    row_like(widths, text, before, start, lengths, numbers)
}
