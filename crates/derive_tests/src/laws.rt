//! Which laws are written of a type, by the types of its fields.

use crate::modules::{answer, wrong_in};
use std::alloc::{AllocError, Global};
use std::test::Fail;

/// The types of fields, each with the laws that are left out of a struct that holds it. The last three have keys, on
/// which the laws of sets and maps rest: they have to be exact.
const LEFT_OUT: &str = "\
u64 -> nothing
NonZeroU8 -> nothing
char -> nothing
f32 -> Exact
Vec<Option<f64>> -> Exact
OrderedFloat<f32> -> nothing
BTreeMap<OrderedFloat<f64>, std::cmp::OrderedFloat<f32>> -> nothing
BTreeMap<OrderedFloat<f64>, f32> -> Exact
(u8, [bool; 2]) -> nothing
Option<String> -> nothing
Result<(), CString> -> nothing
Bound<i8> -> nothing
Range<u8> -> nothing
RangeInclusive<u8> -> Exact
Duration -> Canonical
Vec<Duration> -> Canonical
PhantomData<u8> -> nothing
Wrapping<u8> -> nothing
Reverse<u8> -> nothing
Cell<u8> -> Plain, Exact, Canonical
std::cell::RefCell<u8> -> Plain, Exact, Canonical
std::sync::atomic::AtomicU64 -> Plain, Exact, Canonical
Cow<'static, u8> -> nothing
(Ipv4Addr, Ipv6Addr, IpAddr, SocketAddrV4) -> nothing
SocketAddrV6 -> Exact
SocketAddr -> Exact
(VecDeque<u8>, BoxedSlice<u8>, RcSlice<u8>) -> nothing
(PathBuf, BoxedStr, RcStr) -> nothing
(Box<u8>, Rc<u8>, Arc<u8>) -> nothing
BinaryHeap<u8> -> Exact
(BTreeMap<u8, u8>, BTreeSet<u8>) -> nothing
(HashMap<u8, u8>, HashSet<u8>) -> nothing
HashMap<u8, SocketAddr> -> Exact
HashMap<(u8, SocketAddr), u8> -> Plain, Exact, Canonical
BTreeSet<SocketAddr> -> Plain, Exact, Canonical";

/// The types of a table after which other laws than those are left out, each with the module of the struct.
fn wrong_laws(alloc: Global, rows: &str) -> Result<String, AllocError> {
    let mut wrong = String::new(alloc);
    for row in rows.lines() {
        let (of, laws) = row.split_once(" -> ").unwrap_or((row, ""));
        let module = module_with(alloc, of)?;
        if laws_left_out(module.as_str()) != laws {
            wrong.push_str(row)?;
            wrong.push_str(module.as_str())?;
        }
    }
    Ok(wrong)
}

/// The module for a struct with a field of this type.
fn module_with(alloc: Global, of: &str) -> Result<String, AllocError> {
    let source = format!(in alloc; "#[derive(Drop, PartialEq)]\nstruct A {{\n    a: {of},\n}}\n")?;
    answer(alloc, source.as_str())
}

/// The laws that a module says it leaves out of its struct.
fn laws_left_out(module: &str) -> &str {
    match module.split_once("//! Left out of A: ") {
        Some((_, after)) => after.split_once(".\n").unwrap_or(("", "")).0,
        None if module.starts_with("refused") => module,
        None => "nothing",
    }
}

/// Sources, each with what their modules say of laws.
const TOLD: &str = "\
#[derive(Drop)]
struct Inner(Cell<u8>);
#[derive(Drop, PartialEq)]
struct Outer(Inner);
-----
//! Left out of Inner: Plain, Exact, Canonical.
//! Left out of Outer: Plain, Exact, Canonical.
=====
// bincode: without Canonical
#[derive(Drop, PartialEq)]
struct Inner(BinaryHeap<u8>);
-----
//! Left out of Inner: Exact, Canonical.
=====
// bincode: without Plain
#[derive(Drop, PartialEq)]
struct A(u8);
-----
//! Left out of A: Plain, Exact, Canonical.
=====
// Another type of this name, in another module.
#[derive(Drop)]
struct Inner(Cell<u8>);
#[derive(Drop, PartialEq)]
struct Outer(super::Inner);
-----
//! Left out of Inner: Plain, Exact, Canonical.

use super::*;
=====
#[derive(Drop)]
struct Inner(u8);
#[derive(Drop, PartialEq)]
struct Outer(self::Inner, u8);
-----
//! Left out of Inner: Exact.
//! Left out of Outer: Exact.
=====
// A type that is skipped is taken to keep what it derives, and what no note leaves out.
// bincode: skip
#[derive(Drop, PartialEq)]
struct Inner(u8);
#[derive(Drop, PartialEq)]
struct Outer(Inner);
-----
impl Exact for Outer {
=====
// bincode: skip
// bincode: without Canonical
#[derive(Drop)]
struct Inner(u8);
#[derive(Drop, PartialEq)]
struct Outer(Inner);
-----
//! Left out of Outer: Exact, Canonical.
=====
// What the last type lacks, the first one lacks too, through four others.
#[derive(Drop, PartialEq)]
struct First(Second);
#[derive(Drop, PartialEq)]
struct Second(Third);
#[derive(Drop, PartialEq)]
struct Third(Fourth);
#[derive(Drop, PartialEq)]
struct Fourth(Fifth);
#[derive(Drop, PartialEq)]
struct Fifth(Last);
#[derive(Drop)]
struct Last(Cell<u8>);
-----
//! Left out of First: Plain, Exact, Canonical.
//! Left out of Second: Plain, Exact, Canonical.
//! Left out of Third: Plain, Exact, Canonical.
//! Left out of Fourth: Plain, Exact, Canonical.
//! Left out of Fifth: Plain, Exact, Canonical.
//! Left out of Last: Plain, Exact, Canonical.
";

#[test]
fn leaves_out_what_a_field_does_not_keep(rt: HostRuntime) -> Result<(), Fail> {
    let wrong = wrong_laws(rt.alloc(), LEFT_OUT)?;
    assert_eq!(rt; wrong.as_str(), "");
    let wrong = wrong_in(rt.alloc(), TOLD)?;
    assert_eq!(rt; wrong.as_str(), "");
    Ok(())
}
