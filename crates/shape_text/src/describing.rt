//! What a stream holds by a shape: a line of JSON for each encoding.

use crate::failure::{DescribeError, stopped};
use crate::framed::print_frames;
use crate::lines::{Place, print_value};
use crate::next::next_word;
use crate::request::{Request, SizeLimit};
use crate::spelling::text_of;
use crate::window::Window;
use bincode::config;
use bincode::config::{
    Config, Configuration, Endianness, IntEncoding, InternalIntEncodingConfig, InternalLimitConfig,
    LittleEndian, Varint,
};
use std::alloc::Global;
use std::io;
use std::io::{Read, Write};

/// Prints what a stream holds, as a request says: a line for each encoding or frame, with its offset and its length in
/// bytes. One encoding is held at a time. The output is flushed where no byte is left of what was read, before more is
/// waited for. Returns whether all is whole. Fails where the rest begins with no encoding
/// within the limit, where encodings have no bytes, where the stream is torn, or if the stream or the output fails; in
/// a store of frames, where it is torn, or where a length is not allowed.
pub fn describe<R: Read + Drop, W: Write>(
    alloc: Global,
    request: &Request,
    stream: R,
    out: &mut W,
) -> Result<bool, DescribeError> {
    let all = config::standard();
    let window = &mut Window::new(alloc, stream);
    match request.limit {
        SizeLimit::KiB1 => print_within(alloc, request, window, all.with_limit::<1_024>(), out),
        SizeLimit::KiB64 => print_within(alloc, request, window, all.with_limit::<65_536>(), out),
        SizeLimit::MiB1 => print_within(alloc, request, window, all.with_limit::<1_048_576>(), out),
        SizeLimit::MiB16 => print_within(
            alloc,
            request,
            window,
            all.with_limit::<16_777_216>(),
            out,
        ),
        SizeLimit::MiB64 => print_within(
            alloc,
            request,
            window,
            all.with_limit::<67_108_864>(),
            out,
        ),
        SizeLimit::GiB1 => print_within(
            alloc,
            request,
            window,
            all.with_limit::<1_073_741_824>(),
            out,
        ),
        SizeLimit::Unlimited => print_within(alloc, request, window, all, out),
    }
}

/// Prints all in the integer encoding and the byte order of the request, within the limit of this configuration.
fn print_within<L: InternalLimitConfig, R: Read, W: Write>(
    alloc: Global,
    request: &Request,
    window: &mut Window<R>,
    config: Configuration<LittleEndian, Varint, L>,
    out: &mut W,
) -> Result<bool, DescribeError> {
    match request.encoding {
        IntEncoding::Variable => print_ordered(alloc, request, window, config, out),
        IntEncoding::Fixed => {
            print_ordered(
                alloc,
                request,
                window,
                config.with_fixed_int_encoding(),
                out,
            )
        }
    }
}

/// Prints all in the byte order of the request, and else by this configuration.
fn print_ordered<I: InternalIntEncodingConfig, L: InternalLimitConfig, R: Read, W: Write>(
    alloc: Global,
    request: &Request,
    window: &mut Window<R>,
    config: Configuration<LittleEndian, I, L>,
    out: &mut W,
) -> Result<bool, DescribeError> {
    match request.endian {
        Endianness::Little => {
            print_all(
                alloc,
                request,
                window,
                (config, config.with_no_limit()),
                out,
            )
        }
        Endianness::Big => {
            let config = config.with_big_endian();
            print_all(
                alloc,
                request,
                window,
                (config, config.with_no_limit()),
                out,
            )
        }
    }
}

/// Prints all frames or all encodings. The first configuration has the limit, the second is the same without it.
fn print_all<C: Config, D: Config, R: Read, W: Write>(
    alloc: Global,
    request: &Request,
    window: &mut Window<R>,
    configs: (C, D),
    out: &mut W,
) -> Result<bool, DescribeError> {
    match request.longest {
        Some(longest) => print_frames(alloc, request, longest, window, configs, out),
        None => print_words(alloc, request, window, configs, out),
    }
}

/// Flushes the output where the window shows no byte.
pub(crate) fn flush_if_empty<R: Read, W: Write>(window: &Window<R>, out: &mut W) -> io::Result<()> {
    if window.bytes().is_empty() {
        out.flush()?;
    }
    Ok(())
}

/// Prints a line for each encoding, up to the end of the stream. Each is measured within the limit of the first
/// configuration, and printed by the second.
fn print_words<C: Config, D: Config, R: Read, W: Write>(
    alloc: Global,
    request: &Request,
    window: &mut Window<R>,
    (limited, all): (C, D),
    out: &mut W,
) -> Result<bool, DescribeError> {
    let shape = &request.shape;
    let mut offset = 0;
    for _ in 0..u64::MAX {
        flush_if_empty(window, out)?;
        let measure = match next_word(alloc, shape, window, limited) {
            Ok(Some(measure)) => measure,
            Ok(None) => break,
            Err(why) => return Err(stopped(alloc, shape, offset, why)),
        };
        if measure.bytes == 0 {
            let shape = text_of(alloc, shape)?;
            return Err(DescribeError::Empty { shape });
        }
        let length = measure.bytes as u64;
        let place = Place { offset, length };
        print_value(alloc, request, place, (window.bytes(), measure), all, out)?;
        window.skip(measure.bytes);
        offset = offset.saturating_add(length);
    }
    Ok(true)
}
