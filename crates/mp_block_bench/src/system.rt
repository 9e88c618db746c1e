// The systems of words.

use anyhow::{Result, bail};
use mp_incidence::Numbers;
use std::alloc::Global;

/// The variables of each equation of a system.
pub(crate) fn read(alloc: Global, word: &str) -> Result<Vec<Numbers>> {
    let mut rows = Vec::new(alloc);
    rows.push(Numbers::new(alloc))?;
    if word != "-" {
        read_all(alloc, word.as_bytes(), &mut rows)?;
    }
    Ok(rows)
}

fn read_all(alloc: Global, bytes: &[u8], rows: &mut Vec<Numbers>) -> Result<()> {
    let mut number = None;
    for i in 0..bytes.len() {
        number = read_byte(alloc, bytes[i], number, rows)?;
    }
    end_number(number, rows)
}

// Gives the number that has begun.
fn read_byte(
    alloc: Global,
    byte: u8,
    number: Option<u32>,
    rows: &mut Vec<Numbers>,
) -> Result<Option<u32>> {
    if byte.is_ascii_digit() {
        let number = number.unwrap_or(0).saturating_mul(10);
        return Ok(Some(number.saturating_add(u32::from(byte - b'0'))));
    }
    end_number(number, rows)?;
    match byte {
        b',' => {}
        b'/' => rows.push(Numbers::new(alloc))?,
        _ => bail!("no system"),
    }
    Ok(None)
}

// Adds the number to the last equation.
fn end_number(number: Option<u32>, rows: &mut [Numbers]) -> Result<()> {
    if let (Some(variable), Some(row)) = (number, rows.last_mut()) {
        if row.add(variable).is_err() {
            bail!("no memory");
        }
    }
    Ok(())
}
