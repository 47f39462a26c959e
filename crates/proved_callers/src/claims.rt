//! Test vectors of claim sizes: what each type claims as an element is what docs/FORMAT.md expects.
ghost use Rattle.std.specs.Prelude.{◌≡◌};

use bincode::Wire;
use bincode::ffi::{CStr, CString};
use bincode::time::Duration;
use std::borrow::{Cow, CowSlice, CowStr};
use std::boxed::{BoxedSlice, BoxedStr};
use std::cell::{Cell, RefCell};
use std::cmp::Reverse;
use std::collections::{BTreeMap, BTreeSet, BinaryHeap, HashMap, HashSet, VecDeque};
use std::marker::PhantomData;
use std::net::{IpAddr, Ipv4Addr, Ipv6Addr, SocketAddr, SocketAddrV4, SocketAddrV6};
use std::num::{
    NonZeroI8, NonZeroI16, NonZeroI32, NonZeroI64, NonZeroI128, NonZeroIsize, NonZeroU8,
    NonZeroU16, NonZeroU32, NonZeroU64, NonZeroU128, NonZeroUsize, Wrapping,
};
use std::ops::{Bound, Range, RangeInclusive};
use std::path::{Path, PathBuf};
use std::rc::{Rc, RcSlice, RcStr};
use std::sync::Arc;

/// Of numbers.
pub fn number_claims()
    ensures of_u8 { ⟦<u8 as Wire>⟧.words.claim ≡ 1 }
    ensures of_u16 { ⟦<u16 as Wire>⟧.words.claim ≡ 2 }
    ensures of_u32 { ⟦<u32 as Wire>⟧.words.claim ≡ 4 }
    ensures of_u64 { ⟦<u64 as Wire>⟧.words.claim ≡ 8 }
    ensures of_u128 { ⟦<u128 as Wire>⟧.words.claim ≡ 16 }
    ensures of_usize { ⟦<usize as Wire>⟧.words.claim ≡ 8 }
    ensures of_i8 { ⟦<i8 as Wire>⟧.words.claim ≡ 1 }
    ensures of_i16 { ⟦<i16 as Wire>⟧.words.claim ≡ 2 }
    ensures of_i32 { ⟦<i32 as Wire>⟧.words.claim ≡ 4 }
    ensures of_i64 { ⟦<i64 as Wire>⟧.words.claim ≡ 8 }
    ensures of_i128 { ⟦<i128 as Wire>⟧.words.claim ≡ 16 }
    ensures of_isize { ⟦<isize as Wire>⟧.words.claim ≡ 8 }
{}

/// Of numbers other than 0.
pub fn not_zero_claims()
    ensures of_not_zero_u8 { ⟦<NonZeroU8 as Wire>⟧.words.claim ≡ 1 }
    ensures of_not_zero_u16 { ⟦<NonZeroU16 as Wire>⟧.words.claim ≡ 2 }
    ensures of_not_zero_u32 { ⟦<NonZeroU32 as Wire>⟧.words.claim ≡ 4 }
    ensures of_not_zero_u64 { ⟦<NonZeroU64 as Wire>⟧.words.claim ≡ 8 }
    ensures of_not_zero_u128 { ⟦<NonZeroU128 as Wire>⟧.words.claim ≡ 16 }
    ensures of_not_zero_usize { ⟦<NonZeroUsize as Wire>⟧.words.claim ≡ 8 }
    ensures of_not_zero_i8 { ⟦<NonZeroI8 as Wire>⟧.words.claim ≡ 1 }
    ensures of_not_zero_i16 { ⟦<NonZeroI16 as Wire>⟧.words.claim ≡ 2 }
    ensures of_not_zero_i32 { ⟦<NonZeroI32 as Wire>⟧.words.claim ≡ 4 }
    ensures of_not_zero_i64 { ⟦<NonZeroI64 as Wire>⟧.words.claim ≡ 8 }
    ensures of_not_zero_i128 { ⟦<NonZeroI128 as Wire>⟧.words.claim ≡ 16 }
    ensures of_not_zero_isize { ⟦<NonZeroIsize as Wire>⟧.words.claim ≡ 8 }
{}

/// Of `bool`, `char` and `Duration`, and of what has no bytes: that counts 1.
pub fn scalar_claims()
    ensures truth { ⟦<bool as Wire>⟧.words.claim ≡ 1 }
    ensures character { ⟦<char as Wire>⟧.words.claim ≡ 4 }
    ensures nothing { ⟦<() as Wire>⟧.words.claim ≡ 1 }
    ensures phantom { ⟦<PhantomData<u64> as Wire>⟧.words.claim ≡ 1 }
    ensures span { ⟦<Duration as Wire>⟧.words.claim ≡ 12 }
{}

/// Of addresses.
pub fn address_claims()
    ensures of_ipv4 { ⟦<Ipv4Addr as Wire>⟧.words.claim ≡ 4 }
    ensures of_ipv6 { ⟦<Ipv6Addr as Wire>⟧.words.claim ≡ 16 }
    ensures of_ip { ⟦<IpAddr as Wire>⟧.words.claim ≡ 20 }
    ensures of_socket_v4 { ⟦<SocketAddrV4 as Wire>⟧.words.claim ≡ 6 }
    ensures of_socket_v6 { ⟦<SocketAddrV6 as Wire>⟧.words.claim ≡ 18 }
    ensures of_socket { ⟦<SocketAddr as Wire>⟧.words.claim ≡ 22 }
{}

/// Of wholes, by what their parts claim. An array without elements counts 1.
pub fn whole_claims()
    ensures one { ⟦<(u8,) as Wire>⟧.words.claim ≡ 1 }
    ensures four { ⟦<(u8, u16, u32, u64) as Wire>⟧.words.claim ≡ 15 }
    ensures two_units { ⟦<((), ()) as Wire>⟧.words.claim ≡ 2 }
    ensures array { ⟦<[u64; 3] as Wire>⟧.words.claim ≡ 24 }
    ensures units { ⟦<[(); 5] as Wire>⟧.words.claim ≡ 5 }
    ensures no_array { ⟦<[u64; 0] as Wire>⟧.words.claim ≡ 1 }
    ensures option { ⟦<Option<u64> as Wire>⟧.words.claim ≡ 9 }
    ensures option_of_unit { ⟦<Option<()> as Wire>⟧.words.claim ≡ 2 }
    ensures first_outcome { ⟦<Result<u64, u16> as Wire>⟧.words.claim ≡ 12 }
    ensures second_outcome { ⟦<Result<u16, u64> as Wire>⟧.words.claim ≡ 12 }
    ensures outcome_of_units { ⟦<Result<(), ()> as Wire>⟧.words.claim ≡ 5 }
    ensures bound { ⟦<Bound<u64> as Wire>⟧.words.claim ≡ 12 }
    ensures bound_of_unit { ⟦<Bound<()> as Wire>⟧.words.claim ≡ 5 }
    ensures range { ⟦<Range<u64> as Wire>⟧.words.claim ≡ 16 }
    ensures inclusive_range { ⟦<RangeInclusive<u64> as Wire>⟧.words.claim ≡ 16 }
    ensures wrapping { ⟦<Wrapping<u64> as Wire>⟧.words.claim ≡ 8 }
    ensures reverse { ⟦<Reverse<u64> as Wire>⟧.words.claim ≡ 8 }
    ensures cell { ⟦<Cell<u64> as Wire>⟧.words.claim ≡ 8 }
    ensures ref_cell { ⟦<RefCell<u64> as Wire>⟧.words.claim ≡ 8 }
    ensures cow { ⟦<Cow<'static, u16> as Wire>⟧.words.claim ≡ 2 }
{}

/// Of pointers, lists, texts, sets and maps, whatever they hold.
pub fn owner_claims()
    ensures lent { ⟦<&'static u16 as Wire>⟧.words.claim ≡ 8 }
    ensures boxed { ⟦<Box<u16> as Wire>⟧.words.claim ≡ 8 }
    ensures counted { ⟦<Rc<u16> as Wire>⟧.words.claim ≡ 8 }
    ensures counted_by_threads { ⟦<Arc<u16> as Wire>⟧.words.claim ≡ 8 }
    ensures slice { ⟦<&'static [u8] as Wire>⟧.words.claim ≡ 16 }
    ensures boxed_slice { ⟦<BoxedSlice<u8> as Wire>⟧.words.claim ≡ 16 }
    ensures shared_slice { ⟦<RcSlice<u8> as Wire>⟧.words.claim ≡ 16 }
    ensures text_slice { ⟦<&'static str as Wire>⟧.words.claim ≡ 16 }
    ensures path { ⟦<Path<'static> as Wire>⟧.words.claim ≡ 16 }
    ensures c_string_slice { ⟦<CStr<'static> as Wire>⟧.words.claim ≡ 16 }
    ensures boxed_text { ⟦<BoxedStr as Wire>⟧.words.claim ≡ 16 }
    ensures shared_text { ⟦<RcStr as Wire>⟧.words.claim ≡ 16 }
    ensures vector { ⟦<Vec<u8> as Wire>⟧.words.claim ≡ 24 }
    ensures queue { ⟦<VecDeque<u8> as Wire>⟧.words.claim ≡ 24 }
    ensures heap { ⟦<BinaryHeap<u8> as Wire>⟧.words.claim ≡ 24 }
    ensures set { ⟦<BTreeSet<u8> as Wire>⟧.words.claim ≡ 24 }
    ensures map { ⟦<BTreeMap<u8, u8> as Wire>⟧.words.claim ≡ 24 }
    ensures hashed_set { ⟦<HashSet<u8> as Wire>⟧.words.claim ≡ 24 }
    ensures hashed_map { ⟦<HashMap<u8, u8> as Wire>⟧.words.claim ≡ 24 }
    ensures cow_slice { ⟦<CowSlice<'static, u8> as Wire>⟧.words.claim ≡ 24 }
    ensures text { ⟦<String as Wire>⟧.words.claim ≡ 24 }
    ensures owned_path { ⟦<PathBuf as Wire>⟧.words.claim ≡ 24 }
    ensures c_string { ⟦<CString as Wire>⟧.words.claim ≡ 24 }
    ensures cow_text { ⟦<CowStr<'static> as Wire>⟧.words.claim ≡ 24 }
{}
