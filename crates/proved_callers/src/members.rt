//! Callers whose proofs use what the members of the library's readers, writers and types say.
ghost use Rattle.std.specs.Prelude.{◌≡◌, ◌-◌, ◌^◌, ◌<◌, ◌⊎◌, ℕ, IfOk, IfErr, length, vec_capacity};
ghost use Rattle.std.specs.Net.Socket.{v6_flowinfo, v6_scope_id};
ghost use Rattle.std.specs.String.{string_bytes, string_capacity};
ghost use Rattle.bincode_base.specs.declared.error.DecodeError.TheVariants.{Memory};
ghost use Rattle.bincode_base.specs.declared.error.EncodeError.{EncodeError};
ghost use Rattle.bincode_base.specs.declared.error.EncodeError.TheVariants.{UnexpectedEnd};
ghost use Rattle.bincode_spec.specs.Cells.{IsBorrowed};
ghost use Rattle.bincode_io.specs.Stream.{IsWriteIo};
ghost use Rattle.bincode_types.specs.CStrings.{c_string_vec, c_string_bytes};

use crate::calls::read;
use bincode::config::Config;
use bincode::de::IoReader;
use bincode::de::read::Reader;
use bincode::enc::IoWriter;
use bincode::enc::write::{SizeWriter, SliceWriter, VecWriter, Writer};
use bincode::error::{DecodeError, EncodeError};
use bincode::ffi::CString;
use bincode::{decode_from_slice, encode_into_slice};
use std::alloc::Global;
use std::cell::RefCell;
use std::io;
use std::io::{BufReader, Write};
use std::net::{IpAddr, SocketAddr, SocketAddrV6};

/// A reader of a slice as a stream, whose bytes are known: those of the slice.
pub fn stream_of_slice<'a>(bytes: &'a [u8]) -> IoReader<&'a [u8]>
    ensures is_known { ⟦<IoReader<&'a [u8]> as Reader>⟧.is_known result }
    ensures remaining { ⟦<IoReader<&'a [u8]> as Reader>⟧.remaining result ≡ bytes.now }
{
    IoReader::new(bytes)
}

/// `stream_of_slice` with a buffer.
pub fn buffer_of_slice<'a>(alloc: Global, bytes: &'a [u8]) -> io::Result<BufReader<&'a [u8]>>
    ensures is_known { IfOk result ⟦<BufReader<&'a [u8]> as Reader>⟧.is_known }
    ensures remaining { IfOk result (λ r. ⟦<BufReader<&'a [u8]> as Reader>⟧.remaining r ≡ bytes.now) }
{
    BufReader::new(alloc, bytes)
}

/// Writers without a device, and the one whose device is a stream.
pub fn devices_of_writers<W: Write>()
    ensures counter { (e : EncodeError) → ¬ (⟦<SizeWriter as Writer>⟧.device e) }
    ensures slice { (e : EncodeError) → ¬ (⟦<SliceWriter<'static> as Writer>⟧.device e) }
    ensures vector { (e : EncodeError) → ¬ (⟦<VecWriter as Writer>⟧.device e) }
    ensures stream { (e : EncodeError) → ⟦<IoWriter<'static, W> as Writer>⟧.device e
        → (written : ℕ) × IsWriteIo written e }
{}

/// Counts a piece. Fails only if the count would pass 64 bits, and then leaves it as it was.
pub fn count_piece(counter: &mut SizeWriter, piece: &[u8]) -> Result<(), EncodeError>
    ensures { IfErr result (λ e. (e ≡ UnexpectedEnd) × (2 ^ 64 - 1 - counter.old.bytes_written < length piece.now)
        × (counter.new ≡ counter.old)) }
{
    counter.write(piece)
}

/// Decodes an address, without allocation.
pub fn read_address<C: Config>(
    alloc: Global,
    src: &[u8],
    config: C,
) -> Result<(IpAddr, usize), DecodeError>
    ensures { IfErr result (λ e. ¬ (e ≡ Memory)) }
{
    read(alloc, src, config)
}

/// Decodes an address with its port.
pub fn read_socket<C: Config>(
    alloc: Global,
    src: &[u8],
    config: C,
) -> Result<(SocketAddr, usize), DecodeError>
    ensures { IfErr result (λ e. ¬ (e ≡ Memory)) }
{
    read(alloc, src, config)
}

/// Decodes an IPv6 address with its port. Its flow label and its scope id are 0.
pub fn read_socket_v6<C: Config>(
    alloc: Global,
    src: &[u8],
    config: C,
) -> Result<(SocketAddrV6, usize), DecodeError>
    ensures flow { IfOk result (λ x. v6_flowinfo x.0 ≡ 0) }
    ensures scope { IfOk result (λ x. v6_scope_id x.0 ≡ 0) }
{
    decode_from_slice(alloc, src, config)
}

/// Decodes a text, which has no spare capacity.
pub fn read_text<C: Config>(
    alloc: Global,
    src: &[u8],
    config: C,
) -> Result<(String, usize), DecodeError>
    ensures { IfOk result (λ x. string_capacity x.0 ≡ length (string_bytes x.0)) }
{
    decode_from_slice(alloc, src, config)
}

/// Decodes a C string, which has no spare capacity.
pub fn read_c_string<C: Config>(
    alloc: Global,
    src: &[u8],
    config: C,
) -> Result<(CString, usize), DecodeError>
    ensures { IfOk result (λ x. vec_capacity (c_string_vec x.0) ≡ length (c_string_bytes x.0)) }
{
    decode_from_slice(alloc, src, config)
}

/// Encodes the number in a cell. Fails if the slice is too short, or if the cell is mutably borrowed.
pub fn write_ref_cell<C: Config>(
    cell: &RefCell<u8>,
    slice: &mut [u8],
    config: C,
) -> Result<usize, EncodeError>
    ensures { IfErr result (λ e. (e ≡ UnexpectedEnd) ⊎ IsBorrowed e) }
{
    encode_into_slice(cell, slice, config)
}
