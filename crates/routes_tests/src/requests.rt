//! A request as columns: method, path, keys, number and body.
use decimal_rank::{Memory, Rows, Text};
use http_wire::{HttpField, HttpRequest};
use std::alloc::Global;
use std::test::Fail;

fn field(alloc: Global, name: &[u8], value: &[u8]) -> Result<HttpField, Memory> {
    Ok(HttpField {
        name: Text::from_slice(alloc, name)?,
        value: Text::from_slice(alloc, value)?,
    })
}

/// Adds a field for each of these values, which commas part; a minus is none.
fn add_fields<'x>(
    alloc: Global,
    fields: &mut Vec<HttpField>,
    name: &'x [u8],
    values: &'x str,
) -> Result<(), Memory> {
    for value in values.split(',') {
        if value != "-" {
            fields.push(field(alloc, name, value.as_bytes())?)?;
        }
    }
    Ok(())
}

/// The fields of these keys and numbers.
fn fields(alloc: Global, keys: &str, numbers: &str) -> Result<Rows<HttpField>, Memory> {
    let mut fields = Vec::new(alloc);
    add_fields(alloc, &mut fields, b"X-Campaign-Key", keys)?;
    add_fields(alloc, &mut fields, b"x-request-number", numbers)?;
    Ok(Rows::new(fields))
}

/// The byte for which one of a body's column stands.
fn meant(byte: u8) -> u8 {
    match byte {
        b'|' => b'\n',
        b'~' => 11,
        b'^' => 0,
        _ => byte,
    }
}

/// The lines of a body, which bars end; a minus is no body.
fn body(alloc: Global, lines: &str) -> Result<Text, Memory> {
    let mut bytes = Vec::new(alloc);
    if lines == "-" {
        return Ok(Text::new(bytes));
    }
    for byte in lines.as_bytes() {
        bytes.push(meant(*byte))?;
    }
    Ok(Text::new(bytes))
}

fn cut(line: &str) -> Result<(&str, &str), Fail> {
    Ok(line.split_once(' ').ok_or("no column")?)
}

/// The request of these columns. Commas part the keys and the numbers, and bars end the lines of
/// the body; a minus is none.
pub(crate) fn request(alloc: Global, columns: &str) -> Result<HttpRequest, Fail> {
    let (method, rest) = cut(columns)?;
    let (path, rest) = cut(rest)?;
    let (keys, rest) = cut(rest)?;
    let (number, lines) = cut(rest)?;
    Ok(HttpRequest {
        method: Text::from_slice(alloc, method.as_bytes())?,
        path: Text::from_slice(alloc, path.as_bytes())?,
        fields: fields(alloc, keys, number)?,
        body: body(alloc, lines)?,
        close: false,
    })
}
