//! The configurations of the rows.

use bincode::config::{
    self, BigEndian, Config, Configuration, Fixint, Limit, LittleEndian, NoLimit, Varint,
};

/// The name of a configuration, since a static can't hold what a call returns.
pub trait Setting {
    type Config: Config;

    /// The configuration.
    fn config(&self) -> Self::Config;
}

/// Little endian, variable integers, no limit.
#[derive(Drop)]
pub struct Standard;

impl Setting for Standard {
    type Config = Configuration;

    fn config(&self) -> Configuration {
        config::standard()
    }
}

/// Big endian, variable integers, no limit.
#[derive(Drop)]
pub struct Big;

impl Setting for Big {
    type Config = Configuration<BigEndian, Varint, NoLimit>;

    fn config(&self) -> Configuration<BigEndian, Varint, NoLimit> {
        config::standard().with_big_endian()
    }
}

/// Little endian, fixed integers, no limit.
#[derive(Drop)]
pub struct Legacy;

impl Setting for Legacy {
    type Config = Configuration<LittleEndian, Fixint, NoLimit>;

    fn config(&self) -> Configuration<LittleEndian, Fixint, NoLimit> {
        config::legacy()
    }
}

/// Big endian, fixed integers, no limit.
#[derive(Drop)]
pub struct LegacyBig;

impl Setting for LegacyBig {
    type Config = Configuration<BigEndian, Fixint, NoLimit>;

    fn config(&self) -> Configuration<BigEndian, Fixint, NoLimit> {
        config::legacy().with_big_endian()
    }
}

/// Little endian, variable integers, a limit of `N` bytes.
#[derive(Drop)]
pub struct Within<const N: usize>;

impl<const N: usize> Setting for Within<N> {
    type Config = Configuration<LittleEndian, Varint, Limit<N>>;

    fn config(&self) -> Configuration<LittleEndian, Varint, Limit<N>> {
        config::standard().with_limit::<N>()
    }
}
