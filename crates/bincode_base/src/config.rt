//! Configurations as types: byte order, integer encoding and limit (docs/FORMAT.md, section 2). The bytes do not name
//! their configuration: decode with the byte order and the integer encoding that encoded. There is no limit by default.
//!
//! ```
//! let config = standard().with_big_endian().with_fixed_int_encoding().with_limit::<65536>();
//! ```
ghost use Rattle.std.specs.Prelude.{◌≡◌, ℕ, Option, Some, None, ⊤};
ghost use Rattle.bincode_base.specs.Setting.{Setting};
ghost use Rattle.bincode_base.specs.declared.config.Endianness.{Endianness};
ghost use Rattle.bincode_base.specs.declared.config.Endianness.TheVariants.{Little, Big};
ghost use Rattle.bincode_base.specs.declared.config.IntEncoding.{IntEncoding};
ghost use Rattle.bincode_base.specs.declared.config.IntEncoding.TheVariants.{Fixed, Variable};

use std::alloc::AllocError;
use std::fmt;
use std::marker::PhantomData;

/// The byte order of a number that is wider than one byte.
#[derive(Clone, Copy, Debug, PartialEq, Eq)]
pub enum Endianness {
    /// The lowest byte first.
    Little,
    /// The highest byte first.
    Big,
}

/// How integers wider than one byte are encoded (docs/FORMAT.md, section 4).
#[derive(Clone, Copy, Debug, PartialEq, Eq)]
pub enum IntEncoding {
    /// In as many bytes as the type is wide.
    Fixed,
    /// Up to 250 in one byte, else in a tag byte and 2, 4, 8 or 16 bytes.
    Variable,
}

/// A configuration, made by [`standard`] or [`legacy`]; each method changes one part.
pub struct Configuration<E = LittleEndian, I = Varint, L = NoLimit> {
    endian: PhantomData<E>,
    int_encoding: PhantomData<I>,
    limit: PhantomData<L>,
}

/// The default configuration: little endian, variable integers, no limit.
pub const fn standard() -> Configuration {
    generate()
}

/// The configuration of bincode 1: little endian, fixed integers, no limit.
pub const fn legacy() -> Configuration<LittleEndian, Fixint, NoLimit> {
    generate()
}

const fn generate<E, I, L>() -> Configuration<E, I, L> {
    Configuration {
        endian: PhantomData,
        int_encoding: PhantomData,
        limit: PhantomData,
    }
}

impl<E, I, L> Configuration<E, I, L> {
    /// Encodes numbers with the highest byte first.
    pub const fn with_big_endian(self) -> Configuration<BigEndian, I, L> {
        generate()
    }

    /// Encodes numbers with the lowest byte first.
    pub const fn with_little_endian(self) -> Configuration<LittleEndian, I, L> {
        generate()
    }

    /// Encodes integers in variable length.
    pub const fn with_variable_int_encoding(self) -> Configuration<E, Varint, L> {
        generate()
    }

    /// Encodes integers in the width of their type.
    pub const fn with_fixed_int_encoding(self) -> Configuration<E, Fixint, L> {
        generate()
    }

    /// Limits what one decode may charge to `N` bytes. Does not change how values are encoded.
    pub const fn with_limit<const N: usize>(self) -> Configuration<E, I, Limit<N>> {
        generate()
    }

    /// Removes the limit.
    pub const fn with_no_limit(self) -> Configuration<E, I, NoLimit> {
        generate()
    }
}

// Written by hand: a derived impl would ask each of the three parts for its own.
impl<E, I, L> Clone for Configuration<E, I, L> {
    ghost is_clone = { λ old new. new ≡ old };

    ghost is_infallible = { λ _. ⊤ };

    fn clone(&self) -> Result<Self, AllocError> {
        Ok(*self)
    }
}

impl<E, I, L> Copy for Configuration<E, I, L> {}

impl<E, I, L> Default for Configuration<E, I, L> {
    fn default() -> Configuration<E, I, L> {
        generate()
    }
}

impl<E, I, L> fmt::Debug for Configuration<E, I, L>
where
    E: InternalEndianConfig,
    I: InternalIntEncodingConfig,
    L: InternalLimitConfig,
{
    fn fmt<W: fmt::Write>(&self, f: &mut fmt::Formatter<W>) -> fmt::Result {
        write!(
            f,
            "Configuration {{ endian: {:?}, int_encoding: {:?}, limit: {:?} }}",
            E::ENDIAN,
            I::INT_ENCODING,
            L::LIMIT
        )
    }
}

/// What the library asks of a configuration. Every `Copy` type with the three parts implements it.
pub trait Config: Copy + Clone {
    /// The byte order and the integer encoding. The bytes of a value depend on nothing else.
    ghost setting: { Setting };

    /// The limit on the charges of one decode, in bytes, if there is one.
    ghost bound: { Option ℕ };

    /// The byte order.
    fn endianness(&self) -> Endianness
        ensures { result ≡ setting.order };

    /// The integer encoding.
    fn int_encoding(&self) -> IntEncoding
        ensures { result ≡ setting.encoding };

    /// The limit in bytes, or `None` without a limit.
    fn limit(&self) -> Option<usize>
        ensures { result ≡ bound };
}

impl<
    T: InternalEndianConfig + InternalIntEncodingConfig + InternalLimitConfig + Copy + Clone,
> Config for T {
    ghost setting = { record { order = T.ENDIAN; encoding = T.INT_ENCODING } };

    ghost bound = { T.LIMIT };

    fn endianness(&self) -> Endianness {
        T::ENDIAN
    }

    fn int_encoding(&self) -> IntEncoding {
        T::INT_ENCODING
    }

    fn limit(&self) -> Option<usize> {
        T::LIMIT
    }
}

/// The highest byte of a number first.
#[derive(Clone, Copy)]
pub struct BigEndian;

/// The lowest byte of a number first.
#[derive(Clone, Copy)]
pub struct LittleEndian;

/// Integers in the width of their type.
#[derive(Clone, Copy)]
pub struct Fixint;

/// Integers in variable length.
#[derive(Clone, Copy)]
pub struct Varint;

/// No limit.
#[derive(Clone, Copy)]
pub struct NoLimit;

/// A limit of `N` bytes.
#[derive(Clone, Copy)]
pub struct Limit<const N: usize>;

/// A type-level byte order.
pub trait InternalEndianConfig {
    ghost ENDIAN: { Endianness };

    const ENDIAN: Endianness;
}

/// A type-level integer encoding.
pub trait InternalIntEncodingConfig {
    ghost INT_ENCODING: { IntEncoding };

    const INT_ENCODING: IntEncoding;
}

/// A type-level limit, in bytes.
pub trait InternalLimitConfig {
    ghost LIMIT: { Option ℕ };

    const LIMIT: Option<usize>;
}

impl InternalEndianConfig for BigEndian {
    ghost ENDIAN = { Big };

    const ENDIAN: Endianness = Endianness::Big;
}

impl InternalEndianConfig for LittleEndian {
    ghost ENDIAN = { Little };

    const ENDIAN: Endianness = Endianness::Little;
}

impl InternalIntEncodingConfig for Fixint {
    ghost INT_ENCODING = { Fixed };

    const INT_ENCODING: IntEncoding = IntEncoding::Fixed;
}

impl InternalIntEncodingConfig for Varint {
    ghost INT_ENCODING = { Variable };

    const INT_ENCODING: IntEncoding = IntEncoding::Variable;
}

impl InternalLimitConfig for NoLimit {
    ghost LIMIT = { None };

    const LIMIT: Option<usize> = None;
}

impl<const N: usize> InternalLimitConfig for Limit<N> {
    ghost LIMIT = { Some N };

    const LIMIT: Option<usize> = Some(N);
}

impl<E: InternalEndianConfig, I, L> InternalEndianConfig for Configuration<E, I, L> {
    ghost ENDIAN = { E.ENDIAN };

    const ENDIAN: Endianness = E::ENDIAN;
}

impl<E, I: InternalIntEncodingConfig, L> InternalIntEncodingConfig for Configuration<E, I, L> {
    ghost INT_ENCODING = { I.INT_ENCODING };

    const INT_ENCODING: IntEncoding = I::INT_ENCODING;
}

impl<E, I, L: InternalLimitConfig> InternalLimitConfig for Configuration<E, I, L> {
    ghost LIMIT = { L.LIMIT };

    const LIMIT: Option<usize> = L::LIMIT;
}
