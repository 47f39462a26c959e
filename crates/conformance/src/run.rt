//! How each kind of case is run.

use crate::addresses::address_of;
use crate::borrow::borrows;
use crate::calls::{Bytewise, Calls};
use crate::case::{
    Answer, Case, Decoding, Encoding, Input, Kept, Limited, LimitedAddress, LimitedList, Number,
    Refusal, Spelling, StdInput, StdValue, Value,
};
use crate::fault::Fault;
use crate::setting::{Big, Setting, Standard};
use crate::shaped::shaped_holds;
use crate::wanted::Wanted;
use bincode::config::Endianness;
use bincode::de::Decode;
use bincode::enc::Encode;
use bincode::enc::write::{SliceWriter, Writer};
use bincode::error::{DecodeError, EncodeError};
use bincode::ffi::CString;
use bincode::shape::Described;
use bincode::time::Duration;
use bincode::varint::{
    varint_encode_i16, varint_encode_i64, varint_encode_i128, varint_encode_u32, varint_encode_u128,
};
use std::alloc::{AllocError, Global};
use std::collections::BTreeMap;
use std::net::{IpAddr, Ipv4Addr, SocketAddrV6};
use std::num::NonZeroU16;
use std::ops::Bound;

/// Whether the case holds by these calls. Those of streams, of borrowing and of shapes have calls of their own.
pub(crate) fn holds<K: Calls>(alloc: Global, case: &Case) -> Result<bool, AllocError> {
    match case {
        Case::Encode(value) => encodes_value::<K>(alloc, value),
        Case::EncodeStd(value) => encodes_std::<K>(alloc, value),
        Case::Keep(Kept::Unit(row)) => keeps::<K, (), _>(alloc, row),
        Case::Keep(Kept::Five(row)) => { keeps::<K, (u8, u32, i128, char, [u8; 4]), _>(alloc, row) }
        Case::RefusePair(row) => refuses::<K, (u8, u32)>(alloc, row),
        Case::Varint(number) => spells_number::<K>(alloc, number),
        Case::Decode(input) => decodes_input::<K>(alloc, input),
        Case::DecodeStd(input) => decodes_std::<K>(alloc, input),
        Case::DecodeWithin(limited) => decodes_within::<K>(alloc, limited),
        Case::DecodeListWithin(limited) => decodes_list_within::<K>(alloc, limited),
        Case::DecodeAddressWithin(limited) => decodes_address_within::<K>(alloc, limited),
        Case::DecodeBytewise(row) => {
            Ok(
                decodes::<Bytewise, (u32, u32), _, _>(alloc, row)?
                    && decodes_described::<K, (u32, u32), _, _>(alloc, row)?,
            )
        }
        Case::Borrow(borrowed) => borrows(alloc, borrowed),
        Case::Shaped(shaped) => shaped_holds(alloc, shaped),
    }
}

fn encodes_value<K: Calls>(alloc: Global, value: &Value) -> Result<bool, AllocError> {
    match value {
        Value::U8(row) => encodes_described::<K, u8, _, _, _>(alloc, row, row.value),
        Value::U16(row) => encodes_described::<K, u16, _, _, _>(alloc, row, row.value),
        Value::U32(row) => encodes_described::<K, u32, _, _, _>(alloc, row, row.value),
        Value::I8(row) => encodes_described::<K, i8, _, _, _>(alloc, row, row.value),
        Value::Char(row) => encodes_described::<K, char, _, _, _>(alloc, row, row.value),
        Value::Pair(row) => encodes_described::<K, (u8, u32), _, _, _>(alloc, row, row.value),
        Value::Option(row) => encodes_described::<K, Option<u32>, _, _, _>(alloc, row, row.value),
        Value::Result(row) => {
            encodes_described::<K, Result<u8, u8>, _, _, _>(alloc, row, row.value)
        }
    }
}

fn encodes_std<K: Calls>(alloc: Global, value: &StdValue) -> Result<bool, AllocError> {
    match value {
        StdValue::Duration(row) => encodes_duration::<K>(alloc, row),
        StdValue::Bound(row) => encodes::<K, _, _, _>(alloc, row, row.value),
        StdValue::List(row) => encodes_list::<K, _>(alloc, row),
        StdValue::ListLegacy(row) => encodes_list::<K, _>(alloc, row),
        StdValue::Map(row) => encodes_map::<K>(alloc, row),
        StdValue::Ip(row) => encodes::<K, _, _, _>(alloc, row, row.value),
        StdValue::IpLegacy(row) => encodes::<K, _, _, _>(alloc, row, row.value),
        StdValue::Socket(row) => encodes::<K, _, _, _>(alloc, row, address_of(row.value)),
    }
}

fn spells_number<K: Calls>(alloc: Global, number: &Number) -> Result<bool, AllocError> {
    match number {
        Number::U32(row) => spells::<K, _>(alloc, row),
        Number::U128(row) => spells::<K, _>(alloc, row),
        Number::I16(row) => spells::<K, _>(alloc, row),
        Number::I16InBoth(one, other) => {
            Ok(spells::<K, _>(alloc, one)? && spells::<K, _>(alloc, other)?)
        }
        Number::I64(row) => spells::<K, _>(alloc, row),
        Number::I128(row) => spells::<K, _>(alloc, row),
    }
}

fn decodes_input<K: Calls>(alloc: Global, input: &Input) -> Result<bool, AllocError> {
    match input {
        Input::U16(row) => decodes_described::<K, u16, _, _>(alloc, row),
        Input::U16Big(row) => decodes_described::<K, u16, _, _>(alloc, row),
        Input::U64(row) => decodes_described::<K, u64, _, _>(alloc, row),
        Input::U128(row) => decodes_described::<K, u128, _, _>(alloc, row),
        Input::I16(row) => decodes_described::<K, i16, _, _>(alloc, row),
        Input::Isize(row) => decodes_described::<K, isize, _, _>(alloc, row),
        Input::Bool(row) => decodes_described::<K, bool, _, _>(alloc, row),
        Input::Char(row) => decodes_described::<K, char, _, _>(alloc, row),
        Input::Option(row) => decodes_described::<K, Option<u8>, _, _>(alloc, row),
    }
}

fn decodes_std<K: Calls>(alloc: Global, input: &StdInput) -> Result<bool, AllocError> {
    match input {
        StdInput::NonZeroU16(row) => decodes::<K, NonZeroU16, _, _>(alloc, row),
        StdInput::Bound(row) => decodes::<K, Bound<u8>, _, _>(alloc, row),
        StdInput::Duration(row) => decodes::<K, Duration, _, _>(alloc, row),
        StdInput::Text(row) => decodes_described::<K, String, _, _>(alloc, row),
        StdInput::CString(row) => decodes::<K, CString, _, _>(alloc, row),
        // Not by its shape, which keeps both of two equal keys.
        StdInput::Map(row) => decodes::<K, BTreeMap<u8, u8>, _, _>(alloc, row),
        StdInput::Ip(row) => decodes::<K, IpAddr, _, _>(alloc, row),
    }
}

fn decodes_within<K: Calls>(alloc: Global, limited: &Limited) -> Result<bool, AllocError> {
    match limited {
        Limited::U16To2(row) => decodes_described::<K, u16, _, _>(alloc, row),
        Limited::U64To7(row) => decodes_described::<K, u64, _, _>(alloc, row),
        Limited::U64To8(row) => decodes_described::<K, u64, _, _>(alloc, row),
        Limited::CharTo0(row) => decodes_described::<K, char, _, _>(alloc, row),
        Limited::PairTo15(row) => decodes_described::<K, (u64, u64), _, _>(alloc, row),
        Limited::PairTo16(row) => decodes_described::<K, (u64, u64), _, _>(alloc, row),
    }
}

fn decodes_list_within<K: Calls>(alloc: Global, limited: &LimitedList) -> Result<bool, AllocError> {
    match limited {
        LimitedList::TextTo100000(row) => decodes_described::<K, String, _, _>(alloc, row),
        LimitedList::NumbersTo100000(row) => decodes_described::<K, Vec<u32>, _, _>(alloc, row),
        LimitedList::ListsTo31(row) => decodes_described::<K, Vec<Vec<u8>>, _, _>(alloc, row),
        LimitedList::ListsTo32(row) => decodes_described::<K, Vec<Vec<u8>>, _, _>(alloc, row),
        LimitedList::UnitsTo7(row) => decodes_described::<K, Vec<()>, _, _>(alloc, row),
        LimitedList::UnitsTo10(row) => decodes_described::<K, Vec<()>, _, _>(alloc, row),
        LimitedList::UnitsTo11(row) => decodes_described::<K, Vec<()>, _, _>(alloc, row),
        LimitedList::OptionsTo11(row) => decodes_described::<K, Vec<Option<()>>, _, _>(alloc, row),
        LimitedList::OptionsTo12(row) => decodes_described::<K, Vec<Option<()>>, _, _>(alloc, row),
    }
}

fn decodes_address_within<K: Calls>(
    alloc: Global,
    limited: &LimitedAddress,
) -> Result<bool, AllocError> {
    match limited {
        LimitedAddress::Ipv4To3(row) => decodes::<K, Ipv4Addr, _, _>(alloc, row),
        LimitedAddress::Ipv4To4(row) => decodes::<K, Ipv4Addr, _, _>(alloc, row),
        LimitedAddress::IpTo7(row) => decodes::<K, IpAddr, _, _>(alloc, row),
        LimitedAddress::IpTo8(row) => decodes::<K, IpAddr, _, _>(alloc, row),
        LimitedAddress::SocketTo17(row) => decodes::<K, SocketAddrV6, _, _>(alloc, row),
        LimitedAddress::SocketTo18(row) => decodes::<K, SocketAddrV6, _, _>(alloc, row),
    }
}

/// The most bytes of an encoding or a slice.
pub(crate) const ROOM: usize = 32;

/// Whether this value is written as the bytes of the row, into a slice of just their length.
fn encodes<K: Calls, V: Encode + Copy, T, S: Setting>(
    alloc: Global,
    row: &Encoding<T, S>,
    value: V,
) -> Result<bool, AllocError> {
    let mut room = [0u8; ROOM];
    let Some(slice) = room.get_mut(..row.bytes.len()) else {
        return Ok(false);
    };
    let written = K::encode(alloc, value, slice, row.setting.config());
    Ok(fills(written, row.bytes)? && *slice == *row.bytes)
}

/// The same of a value of `D`, which is described.
fn encodes_described<K: Calls, D: Described, V: Encode + Copy, T, S: Setting>(
    alloc: Global,
    row: &Encoding<T, S>,
    value: V,
) -> Result<bool, AllocError> {
    let mut room = [0u8; ROOM];
    let Some(slice) = room.get_mut(..row.bytes.len()) else {
        return Ok(false);
    };
    let written = K::encode_described::<D, V, S::Config>(alloc, value, slice, row.setting.config());
    Ok(fills(written, row.bytes)? && *slice == *row.bytes)
}

/// Whether as many bytes are written. Fails where memory was refused.
pub(crate) fn fills(
    written: Option<Result<usize, EncodeError>>,
    bytes: &[u8],
) -> Result<bool, AllocError> {
    match written {
        Some(Ok(count)) => Ok(count == bytes.len()),
        Some(Err(EncodeError::Memory)) => Err(AllocError),
        Some(Err(_)) | None => Ok(false),
    }
}

/// Whether the `Duration` of these seconds and nanoseconds is written as the bytes.
fn encodes_duration<K: Calls>(
    alloc: Global,
    row: &Encoding<(u64, u32), Standard>,
) -> Result<bool, AllocError> {
    let (secs, nanos) = row.value;
    if nanos >= 1_000_000_000 {
        return Ok(false);
    }
    encodes::<K, _, _, _>(alloc, row, Duration::new(secs, nanos))
}

/// Whether the vector of the items is written as the bytes.
fn encodes_list<K: Calls, S: Setting>(
    alloc: Global,
    row: &Encoding<&'static [u32], S>,
) -> Result<bool, AllocError> {
    let list = row.value.to_vec(alloc)?;
    encodes_described::<K, Vec<u32>, _, _, _>(alloc, row, &list)
}

/// Whether the map of the entries is written as the bytes.
fn encodes_map<K: Calls>(
    alloc: Global,
    row: &Encoding<&'static [(u8, u8)], Standard>,
) -> Result<bool, AllocError> {
    let mut map = BTreeMap::new(alloc);
    for entry in row.value {
        map.insert(entry.0, entry.1)?;
    }
    encodes_described::<K, BTreeMap<u8, u8>, _, _, _>(alloc, row, &map)
}

/// Whether the value is written as the bytes, and all of them are decoded as the value.
fn keeps<K, T, S>(alloc: Global, row: &Encoding<T, S>) -> Result<bool, AllocError>
where
    K: Calls,
    T: Encode + Decode<()> + Described + Copy + PartialEq,
    S: Setting,
{
    let read: Option<Result<(T, usize), DecodeError>> = K::decode_described(
        alloc,
        row.bytes,
        row.setting.config(),
    );
    let answer = Answer::Value(row.value, row.bytes.len());
    Ok(
        encodes_described::<K, T, _, _, _>(alloc, row, row.value)?
            && is_answer::<K, T, T>(read, &answer)?,
    )
}

/// Whether the slice is too short for the value, and holds what it should then.
fn refuses<K: Calls, T: Encode + Described + Copy>(
    alloc: Global,
    row: &Refusal<T>,
) -> Result<bool, AllocError> {
    let mut room = [0u8; ROOM];
    let Some(slice) = room.get_mut(..row.before.len()) else {
        return Ok(false);
    };
    slice.copy_from_slice(row.before);
    match K::encode_described::<T, T, _>(alloc, row.value, slice, Standard.config()) {
        Some(Err(EncodeError::UnexpectedEnd)) => Ok(*slice == *row.after),
        Some(Err(EncodeError::Memory)) => Err(AllocError),
        _ => Ok(false),
    }
}

/// A number that has a varint call of its own.
trait VarintNumber: Encode + Described + Copy {
    fn varint_encode<W: Writer>(
        self,
        writer: &mut W,
        endian: Endianness,
    ) -> Result<(), EncodeError>;
}

impl VarintNumber for u32 {
    fn varint_encode<W: Writer>(
        self,
        writer: &mut W,
        endian: Endianness,
    ) -> Result<(), EncodeError> {
        varint_encode_u32(writer, endian, self)
    }
}

impl VarintNumber for u128 {
    fn varint_encode<W: Writer>(
        self,
        writer: &mut W,
        endian: Endianness,
    ) -> Result<(), EncodeError> {
        varint_encode_u128(writer, endian, self)
    }
}

impl VarintNumber for i16 {
    fn varint_encode<W: Writer>(
        self,
        writer: &mut W,
        endian: Endianness,
    ) -> Result<(), EncodeError> {
        varint_encode_i16(writer, endian, self)
    }
}

impl VarintNumber for i64 {
    fn varint_encode<W: Writer>(
        self,
        writer: &mut W,
        endian: Endianness,
    ) -> Result<(), EncodeError> {
        varint_encode_i64(writer, endian, self)
    }
}

impl VarintNumber for i128 {
    fn varint_encode<W: Writer>(
        self,
        writer: &mut W,
        endian: Endianness,
    ) -> Result<(), EncodeError> {
        varint_encode_i128(writer, endian, self)
    }
}

/// Whether the number is written as the bytes, as a value and by its varint call.
fn spells<K: Calls, T: VarintNumber>(alloc: Global, row: &Spelling<T>) -> Result<bool, AllocError> {
    if !is_spelled(row) {
        return Ok(false);
    }
    match row.endian {
        Endianness::Little => spells_under::<K, T, _>(alloc, row, Standard),
        Endianness::Big => spells_under::<K, T, _>(alloc, row, Big),
    }
}

/// Whether the number is written as the bytes in this configuration.
fn spells_under<K: Calls, T: VarintNumber, S: Setting + Drop>(
    alloc: Global,
    row: &Spelling<T>,
    setting: S,
) -> Result<bool, AllocError> {
    let encoding = Encoding {
        setting,
        value: row.value,
        bytes: row.bytes,
    };
    encodes_described::<K, T, _, _, _>(alloc, &encoding, row.value)
}

/// Whether the number is written as the bytes by its varint call.
fn is_spelled<T: VarintNumber>(row: &Spelling<T>) -> bool {
    let mut room = [0u8; ROOM];
    let Some(slice) = room.get_mut(..row.bytes.len()) else {
        return false;
    };
    let mut writer = SliceWriter::new(slice);
    let outcome = row.value.varint_encode(&mut writer, row.endian);
    let whole = outcome.is_ok() && writer.bytes_written() == row.bytes.len();
    drop(writer);
    whole && *slice == *row.bytes
}

/// Whether decoding the input gives the answer.
fn decodes<K: Calls, T: Decode<()>, W: Wanted<T>, S: Setting>(
    alloc: Global,
    row: &Decoding<W, S>,
) -> Result<bool, AllocError> {
    is_answer::<K, T, W>(
        K::decode(alloc, row.input, row.setting.config()),
        &row.answer,
    )
}

/// The same of a type that is described.
fn decodes_described<K: Calls, T, W: Wanted<T>, S: Setting>(
    alloc: Global,
    row: &Decoding<W, S>,
) -> Result<bool, AllocError>
where
    T: Decode<()> + Encode + Described,
{
    is_answer::<K, T, W>(
        K::decode_described(alloc, row.input, row.setting.config()),
        &row.answer,
    )
}

/// Whether this is the answer. Fails where memory was refused.
fn is_answer<K: Calls, T: Drop, W: Wanted<T>>(
    outcome: Option<Result<(T, usize), DecodeError>>,
    answer: &Answer<W>,
) -> Result<bool, AllocError> {
    match outcome {
        Some(Ok((value, taken))) => Ok(is_value(&value, taken, answer)),
        Some(Err(DecodeError::Memory)) => Err(AllocError),
        Some(Err(error)) => Ok(is_fault(K::fault(&error), answer)),
        None => Ok(false),
    }
}

/// Whether the answer is this value, of so many bytes.
fn is_value<T, W: Wanted<T>>(value: &T, taken: usize, answer: &Answer<W>) -> bool {
    match answer {
        Answer::Value(wanted, length) => wanted.is_met_by(value) && taken == *length,
        Answer::Fault(_) => false,
    }
}

/// Whether the answer is this fault.
pub(crate) fn is_fault<W>(fault: Option<Fault>, answer: &Answer<W>) -> bool {
    match (fault, answer) {
        (Some(fault), Answer::Fault(expected)) => fault.meets(*expected),
        _ => false,
    }
}
