//! Test vectors of formats: the format of each `impl` is what docs/FORMAT.md expects.
ghost use Rattle.proved_callers.specs.Formats.{UnsignedRows, SignedRows, WholeRows, CharacterRows, ChoiceRows};
ghost use Rattle.proved_callers.specs.Formats.{DurationRows, AddressRows, ListRows, TextRows, UnsignedWords};
ghost use Rattle.proved_callers.specs.Formats.{SignedWords, ZigzagRows, NeedRows, ElementRows, IsBounded, IsUnbounded};

use bincode::time::Duration;
use bincode::{EnumOf, NoMoreVariants, VariantOf, Wire};
use std::net::{IpAddr, Ipv4Addr, SocketAddr, SocketAddrV6};
use std::num::{NonZeroI16, NonZeroU16};
use std::ops::Bound;

/// Decoding unsigned numbers.
pub fn unsigned_rows()
    ensures { UnsignedRows ⟦<u8 as Wire>⟧.words.format ⟦<u16 as Wire>⟧.words.format ⟦<u32 as Wire>⟧.words.format
        ⟦<u64 as Wire>⟧.words.format ⟦<u128 as Wire>⟧.words.format ⟦<NonZeroU16 as Wire>⟧.words.format }
{}

/// Decoding signed numbers.
pub fn signed_rows()
    ensures { SignedRows ⟦<i8 as Wire>⟧.words.format ⟦<i16 as Wire>⟧.words.format ⟦<i32 as Wire>⟧.words.format
        ⟦<i64 as Wire>⟧.words.format ⟦<i128 as Wire>⟧.words.format ⟦<isize as Wire>⟧.words.format
        ⟦<NonZeroI16 as Wire>⟧.words.format }
{}

/// Decoding booleans, tuples and arrays.
pub fn whole_rows()
    ensures { WholeRows ⟦<bool as Wire>⟧.words.format ⟦<() as Wire>⟧.words.format
        ⟦<(u8, u32) as Wire>⟧.words.format ⟦<(u8, u32, i128, char, [u8; 4]) as Wire>⟧.words.format
        ⟦<[u16; 2] as Wire>⟧.words.format ⟦<[(); 2] as Wire>⟧.words.format ⟦<[u16; 0] as Wire>⟧.words.format }
{}

/// Decoding characters.
pub fn character_rows()
    ensures { CharacterRows ⟦<char as Wire>⟧.words.format }
{}

/// Three variants whose tags are not in order.
pub type Far = EnumOf<VariantOf<1, (), VariantOf<5, u8, VariantOf<300, u8, NoMoreVariants<()>>>>>;

/// Decoding choices.
pub fn choice_rows()
    ensures { ChoiceRows ⟦<Option<u8> as Wire>⟧.words.format ⟦<Option<u32> as Wire>⟧.words.format
        ⟦<Option<bool> as Wire>⟧.words.format ⟦<Result<u8, u8> as Wire>⟧.words.format
        ⟦<Result<(), u8> as Wire>⟧.words.format ⟦<Bound<u8> as Wire>⟧.words.format ⟦<Far as Wire>⟧.words.format }
{}

/// Decoding durations.
pub fn duration_rows()
    ensures { DurationRows ⟦<Duration as Wire>⟧.words.format }
{}

/// Decoding addresses.
pub fn address_rows()
    ensures { AddressRows ⟦<Ipv4Addr as Wire>⟧.words.format ⟦<IpAddr as Wire>⟧.words.format
        ⟦<SocketAddrV6 as Wire>⟧.words.format ⟦<SocketAddr as Wire>⟧.words.format }
{}

/// Decoding lists of these.
pub fn list_rows()
    ensures { ListRows ⟦<u8 as Wire>⟧.words.format ⟦<u16 as Wire>⟧.words.format ⟦<u32 as Wire>⟧.words.format
        ⟦<() as Wire>⟧.words.format ⟦<Option<u8> as Wire>⟧.words.format ⟦<Option<()> as Wire>⟧.words.format }
{}

/// Decoding texts.
pub fn text_rows()
    ensures { TextRows }
{}

/// Encoding unsigned numbers.
pub fn unsigned_words()
    ensures { UnsignedWords ⟦<u32 as Wire>⟧.words.format ⟦<u64 as Wire>⟧.words.format
        ⟦<u128 as Wire>⟧.words.format }
{}

/// Encoding signed numbers.
pub fn signed_words()
    ensures { SignedWords ⟦<i8 as Wire>⟧.words.format ⟦<i16 as Wire>⟧.words.format ⟦<i32 as Wire>⟧.words.format
        ⟦<i64 as Wire>⟧.words.format ⟦<i128 as Wire>⟧.words.format }
{}

/// Zigzag.
pub fn zigzag_rows()
    ensures { ZigzagRows }
{}

/// How large a limit inputs need.
pub fn need_rows()
    ensures { NeedRows ⟦<char as Wire>⟧.words.need ⟦<Duration as Wire>⟧.words.need ⟦<[u16; 2] as Wire>⟧.words.need
        ⟦<[Vec<u8>; 2] as Wire>⟧.words.need ⟦<Vec<Vec<u8>> as Wire>⟧.words.need }
{}

/// How many elements an encoding holds, and what bounds it.
pub fn bounded_rows()
    ensures elements { ElementRows ⟦<Vec<Vec<u8>> as Wire>⟧.words.format ⟦<Vec<[u8; 2]> as Wire>⟧.words.format }
    ensures bounded { IsBounded ⟦<Vec<Vec<u8>> as Wire>⟧.words.format }
    ensures unbounded { IsUnbounded ⟦<Vec<Vec<u8>> as Wire>⟧.words.format }
{}
