//! `Duration`.
ghost use Rattle.std.specs.Prelude.{◌<◌};

mod methods;

/// A span of time: whole seconds, and nanoseconds below one second.
///
/// It stands for the standard library's `Duration`, whose contracts do not bound its nanoseconds. Each converts into
/// the other.
#[derive(Clone, Copy, Debug)]
pub struct Duration {
    secs: u64,
    nanos: u32,
    ghost below_a_second: { nanos < 1_000_000_000 },
}
