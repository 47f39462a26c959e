//! Lines of JSON, each about what is at an offset.

use crate::failure::{DescribeError, not_written};
use crate::json::write_json;
use crate::request::Request;
use bincode::config::Config;
use bincode::shape::Measure;
use std::alloc::Global;
use std::io;
use std::io::Write;

/// What a line is about: its place in the input, and its length, in bytes.
#[derive(Clone, Copy)]
pub(crate) struct Place {
    pub(crate) offset: u64,
    pub(crate) length: u64,
}

/// Prints the line of an encoding, which these bytes begin with: its value, or the number of its values where more
/// would be printed than the request allows.
pub(crate) fn print_value<C: Config, W: Write>(
    alloc: Global,
    request: &Request,
    place: Place,
    (bytes, measure): (&[u8], Measure),
    config: C,
    out: &mut W,
) -> Result<(), DescribeError> {
    let Request {
        shape,
        most_values,
        ..
    } = request;
    let most = *most_values;
    if !is_printable(alloc, request, (bytes, measure), config) {
        return Ok(print_count(place, "values", measure.values, out)?);
    }
    print_start(place, "value", out)?;
    match write_json(alloc, shape, bytes, config, most, out) {
        Ok(_) => Ok(print_end(out)?),
        Err(why) => Err(not_written(alloc, shape, place.offset, why)),
    }
}

/// Whether few enough values of an encoding would be printed: of one with many it is tried, since values that are shown
/// by their count are not printed.
fn is_printable<C: Config>(
    alloc: Global,
    request: &Request,
    (bytes, measure): (&[u8], Measure),
    config: C,
) -> bool {
    let most = request.most_values;
    if measure.values <= most as u128 {
        return true;
    }
    write_json(alloc, &request.shape, bytes, config, most, &mut io::sink()).is_ok()
}

/// Prints a line with a number in place of a value, by this name.
pub(crate) fn print_count<W: Write>(
    place: Place,
    name: &str,
    count: u128,
    out: &mut W,
) -> io::Result<()> {
    print_start(place, name, out)?;
    write!(out, "{count}")?;
    print_end(out)
}

/// Begins a line, up to the value of this name.
pub(crate) fn print_start<W: Write>(place: Place, name: &str, out: &mut W) -> io::Result<()> {
    let Place { offset, length } = place;
    write!(out, "{{\"offset\":{offset},\"length\":{length},\"{name}\":")
}

/// Ends a line.
pub(crate) fn print_end<W: Write>(out: &mut W) -> io::Result<()> {
    writeln!(out, "}}")
}
