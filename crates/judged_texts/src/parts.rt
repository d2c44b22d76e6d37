// Parts of which long texts are put together.
use std::alloc::{AllocError, Global};

#[derive(Clone, Copy)]
pub enum Part {
    Once(&'static [u8]),
    // The same bytes, so many times.
    Times(u32, &'static [u8]),
    // Lines that define the signals from the first to the last; each ends with the same bytes.
    Defines(u32, u32, &'static [u8]),
    // The formula 1, doubled so many times: a doubled formula is both operands of an `and`.
    Doubled(u32),
}

// The number is formatted apart: `write!` into bytes would answer an io::Error.
fn put_defines(
    text: &mut Vec<u8>,
    heap: Global,
    first: u32,
    last: u32,
    end: &[u8],
) -> Result<(), AllocError> {
    for signal in first..=last {
        let start = format!(in heap; "d {signal}")?;
        text.extend_from_slice(start.as_bytes())?;
        text.extend_from_slice(end)?;
    }
    Ok(())
}

fn doubled(heap: Global, formula: &[u8]) -> Result<Vec<u8>, AllocError> {
    let mut both = Vec::new(heap);
    both.push(b'(')?;
    both.extend_from_slice(formula)?;
    both.push(b'&')?;
    both.extend_from_slice(formula)?;
    both.push(b')')?;
    Ok(both)
}

fn put_part(text: &mut Vec<u8>, heap: Global, part: Part) -> Result<(), AllocError> {
    match part {
        Part::Once(bytes) => text.extend_from_slice(bytes),
        Part::Times(count, bytes) => {
            for _ in 0..count {
                text.extend_from_slice(bytes)?;
            }
            Ok(())
        }
        Part::Defines(first, last, end) => put_defines(text, heap, first, last, end),
        Part::Doubled(count) => {
            let mut formula = Vec::from_slice(heap, b"1")?;
            for _ in 0..count {
                formula = doubled(heap, formula.as_slice())?;
            }
            text.extend_from_slice(formula.as_slice())
        }
    }
}

// The parts, one behind another.
pub fn joined(heap: Global, parts: &[Part]) -> Result<Vec<u8>, AllocError> {
    let mut text = Vec::new(heap);
    for part in parts {
        put_part(&mut text, heap, *part)?;
    }
    Ok(text)
}
