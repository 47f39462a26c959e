//! The kinds of cases.

use crate::addresses::Socket;
use crate::fault::Fault;
use crate::setting::{Big, Legacy, LegacyBig, Standard, Within};
use crate::shaped::Shaped;
use bincode::config::Endianness;
use std::net::{IpAddr, Ipv4Addr};
use std::ops::Bound;

/// What is run, and the result that it must have.
#[derive(Drop)]
pub enum Case {
    Encode(Value),
    EncodeStd(StdValue),
    Keep(Kept),
    RefusePair(Refusal<(u8, u32)>),
    Varint(Number),
    Decode(Input),
    DecodeStd(StdInput),
    DecodeWithin(Limited),
    DecodeListWithin(LimitedList),
    DecodeAddressWithin(LimitedAddress),
    /// A pair that is decoded from a stream of one byte a call, and by the calls of the run.
    DecodeBytewise(Decoding<(u32, u32), Standard>),
    Borrow(Borrowed),
    Shaped(Shaped),
}

/// A value that is encoded.
#[derive(Drop)]
pub enum Value {
    U8(Encoding<u8, Standard>),
    U16(Encoding<u16, Standard>),
    U32(Encoding<u32, LegacyBig>),
    I8(Encoding<i8, Standard>),
    Char(Encoding<char, Standard>),
    Pair(Encoding<(u8, u32), Standard>),
    Option(Encoding<Option<u32>, Legacy>),
    Result(Encoding<Result<u8, u8>, Legacy>),
}

/// A value of a type of std that is encoded.
#[derive(Drop)]
pub enum StdValue {
    /// The `Duration` of these seconds and nanoseconds.
    Duration(Encoding<(u64, u32), Standard>),
    Bound(Encoding<Bound<u8>, Standard>),
    /// The vector of these items.
    List(Encoding<&'static [u32], Standard>),
    ListLegacy(Encoding<&'static [u32], Legacy>),
    /// The map of these entries.
    Map(Encoding<&'static [(u8, u8)], Standard>),
    Ip(Encoding<IpAddr, Standard>),
    IpLegacy(Encoding<IpAddr, Legacy>),
    /// The `SocketAddrV6` of these parts.
    Socket(Encoding<Socket, Standard>),
}

/// A value that is encoded, and decoded again.
#[derive(Drop)]
pub enum Kept {
    Unit(Encoding<(), Standard>),
    Five(Encoding<(u8, u32, i128, char, [u8; 4]), Standard>),
}

/// A number that is encoded, also as a varint by itself.
#[derive(Drop)]
pub enum Number {
    U32(Spelling<u32>),
    U128(Spelling<u128>),
    I16(Spelling<i16>),
    I16InBoth(Spelling<i16>, Spelling<i16>),
    I64(Spelling<i64>),
    I128(Spelling<i128>),
}

/// An input that is decoded.
#[derive(Drop)]
pub enum Input {
    U16(Decoding<u16, Standard>),
    U16Big(Decoding<u16, Big>),
    U64(Decoding<u64, Standard>),
    U128(Decoding<u128, Standard>),
    I16(Decoding<i16, Standard>),
    Isize(Decoding<isize, Standard>),
    Bool(Decoding<bool, Legacy>),
    Char(Decoding<char, Standard>),
    Option(Decoding<Option<u8>, Legacy>),
}

/// An input that is decoded as a type of std.
#[derive(Drop)]
pub enum StdInput {
    /// As a `NonZeroU16`; the answer has its number.
    NonZeroU16(Decoding<u16, Standard>),
    Bound(Decoding<Bound<u8>, Standard>),
    /// As a `Duration`; the answer has its seconds and nanoseconds.
    Duration(Decoding<(u64, u32), Standard>),
    Text(Decoding<&'static str, Standard>),
    /// As a C string; the answer has its bytes.
    CString(Decoding<&'static [u8], Standard>),
    /// As a map; the answer has its entries.
    Map(Decoding<&'static [(u8, u8)], Standard>),
    Ip(Decoding<IpAddr, Standard>),
}

/// An input that is decoded under a limit.
#[derive(Drop)]
pub enum Limited {
    U16To2(Decoding<u16, Within<2>>),
    U64To7(Decoding<u64, Within<7>>),
    U64To8(Decoding<u64, Within<8>>),
    CharTo0(Decoding<char, Within<0>>),
    PairTo15(Decoding<(u64, u64), Within<15>>),
    PairTo16(Decoding<(u64, u64), Within<16>>),
}

/// An input that is decoded under a limit as a text, or as a list of which the answer has the items.
#[derive(Drop)]
pub enum LimitedList {
    TextTo100000(Decoding<&'static str, Within<100_000>>),
    NumbersTo100000(Decoding<&'static [u32], Within<100_000>>),
    ListsTo31(Decoding<&'static [&'static [u8]], Within<31>>),
    ListsTo32(Decoding<&'static [&'static [u8]], Within<32>>),
    /// As a list of `()`; the answer has its length.
    UnitsTo7(Decoding<usize, Within<7>>),
    UnitsTo10(Decoding<usize, Within<10>>),
    UnitsTo11(Decoding<usize, Within<11>>),
    OptionsTo11(Decoding<&'static [Option<()>], Within<11>>),
    OptionsTo12(Decoding<&'static [Option<()>], Within<12>>),
}

/// An input that is decoded under a limit as an address.
#[derive(Drop)]
pub enum LimitedAddress {
    Ipv4To3(Decoding<Ipv4Addr, Within<3>>),
    Ipv4To4(Decoding<Ipv4Addr, Within<4>>),
    IpTo7(Decoding<IpAddr, Within<7>>),
    IpTo8(Decoding<IpAddr, Within<8>>),
    /// As a `SocketAddrV6`; the answer has its parts.
    SocketTo17(Decoding<Socket, Within<17>>),
    SocketTo18(Decoding<Socket, Within<18>>),
}

/// An input whose texts are borrowed.
#[derive(Drop)]
pub enum Borrowed {
    /// As a list.
    List(Lending),
    /// As an array of three.
    Three(Lending),
}

/// A value, and its encoding under a configuration.
#[derive(Drop)]
pub struct Encoding<T, S> {
    pub setting: S,
    pub value: T,
    pub bytes: &'static [u8],
}

/// A value that does not fit a slice in the standard configuration, and what the slice holds before and afterwards.
#[derive(Drop)]
pub struct Refusal<T> {
    pub value: T,
    pub before: &'static [u8],
    pub after: &'static [u8],
}

/// A number, and its varint in a byte order.
#[derive(Drop)]
pub struct Spelling<T> {
    pub endian: Endianness,
    pub value: T,
    pub bytes: &'static [u8],
}

/// An input, and its result under a configuration.
#[derive(Drop)]
pub struct Decoding<T, S> {
    pub setting: S,
    pub input: &'static [u8],
    pub answer: Answer<T>,
}

/// An input, the texts that are borrowed from it, and the length of their encoding.
#[derive(Drop)]
pub struct Lending {
    pub input: &'static [u8],
    pub texts: &'static [&'static str],
    pub length: usize,
}

/// The result of decoding.
#[derive(Drop)]
pub enum Answer<T> {
    /// A value, and the length of its encoding.
    Value(T, usize),
    Fault(Fault),
}
