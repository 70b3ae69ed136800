// The lines by which a case says bytes.
use soar_sym::List;
use std::alloc::{AllocError, Global};

/// Returns the bytes of the lines of a text. A line `times N` repeats the next one.
pub fn text_of(alloc: Global, lines: &str) -> Result<List<u8>, AllocError> {
    let mut bytes = List::new(alloc);
    let mut times = 1;
    for line in lines.split("\n") {
        if let Some(count) = line.strip_prefix("times ") {
            times = count.parse::<u32>().unwrap_or(1);
        } else {
            let said = bytes_of(alloc, line)?;
            add_times(&mut bytes, times, said.as_slice())?;
            times = 1;
        }
    }
    Ok(bytes)
}

/// Adds `said` `times` times.
fn add_times(bytes: &mut List<u8>, times: u32, said: &[u8]) -> Result<(), AllocError> {
    for _ in 0..times {
        bytes.extend_from_slice(said)?;
    }
    Ok(())
}

/// Returns the bytes of a line: after a bar a line with its end, after a colon text without one.
fn bytes_of(alloc: Global, line: &str) -> Result<List<u8>, AllocError> {
    let mut bytes = List::new(alloc);
    if let Some(text) = line.strip_prefix("|") {
        bytes.extend_from_slice(text.as_bytes())?;
        bytes.push(b'\n')?;
    } else if let Some(text) = line.strip_prefix(":") {
        add_escaped(&mut bytes, text)?;
    }
    Ok(bytes)
}

/// Adds a text in which a backslash and two hexadecimal digits stand for a byte.
fn add_escaped(bytes: &mut List<u8>, text: &str) -> Result<(), AllocError> {
    let (front, rest) = text.split_once("\\").unwrap_or((text, ""));
    bytes.extend_from_slice(front.as_bytes())?;
    for part in rest.split("\\") {
        if let Some((digits, more)) = part.split_at_checked(2) {
            bytes.push(u8::from_str_radix(digits, 16).unwrap_or(b'?'))?;
            bytes.extend_from_slice(more.as_bytes())?;
        }
    }
    Ok(())
}
