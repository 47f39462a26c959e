//! The constructor and the parts of a `Duration`.
ghost use Rattle.std.specs.Prelude.{◌≡◌, ◌+◌, ◌/◌, ◌%◌, ◌^◌, ◌<◌, nat_eq};
ghost use Rattle.std.proofs.Common.{rules};
ghost use Rattle.std.specs.Cmp.{partial_order_from_own_ties};
ghost use Rattle.std.specs.Cmp.Rules.{comparing, hashing};
ghost use Rattle.std.specs.Ordering.{on, nat_cmp, as_partial_cmp};
ghost use Rattle.std.specs.Hash as fed;
ghost use Rattle.std.specs.Duration.{as_nanos};
ghost use Rattle.bincode_spec.specs.Words.{second_in_nanos};
ghost use Rattle.bincode_types.specs.Durations.{secs_of, nanos_of, in_nanos};

use super::Duration;
use std::cmp::Ordering;
use std::hash::{Hash, Hasher};
use std::time::Duration as StdDuration;

const NANOS_PER_SEC: u32 = 1_000_000_000;

impl Duration {
    /// A span of `secs` seconds and `nanos` nanoseconds. Nanoseconds from 1,000,000,000 on are carried.
    pub const fn new(secs: u64, nanos: u32) -> Duration
        requires { secs + nanos / second_in_nanos < 2 ^ 64 }
        ensures secs { secs_of result ≡ secs + nanos / second_in_nanos }
        ensures nanos { nanos_of result ≡ nanos % second_in_nanos }
    {
        Duration {
            secs: secs + (nanos / NANOS_PER_SEC) as u64,
            nanos: nanos % NANOS_PER_SEC,
        }
    }

    /// The whole seconds.
    pub const fn as_secs(&self) -> u64
        ensures { result ≡ secs_of self.now }
    {
        self.secs
    }

    /// The nanoseconds below a second.
    pub const fn subsec_nanos(&self) -> u32
        ensures nanos { result ≡ nanos_of self.now }
        ensures below_a_second { result < second_in_nanos }
    {
        self.nanos
    }

    /// The span in nanoseconds.
    pub const fn as_nanos(&self) -> u128
        ensures { result ≡ in_nanos self.now }
    {
        self.secs as u128 * NANOS_PER_SEC as u128 + self.nanos as u128
    }
}

impl PartialEq for Duration {
    ghost eq = { on in_nanos nat_eq };

    ghost laws = { Prim.search (comparing, rules) };

    fn eq(&self, other: &Duration) -> bool {
        self.as_nanos() == other.as_nanos()
    }
}

impl Eq for Duration {
    ghost laws = { Prim.search (comparing, rules) };
}

impl PartialOrd for Duration {
    ghost partial_cmp = { as_partial_cmp (on in_nanos nat_cmp) };

    ghost laws = { partial_order_from_own_ties (Prim.search (comparing, rules))
        (Prim.search (comparing, rules)) };

    fn partial_cmp(&self, other: &Duration) -> Option<Ordering> {
        Some(self.cmp(other))
    }
}

impl Ord for Duration {
    ghost cmp = { on in_nanos nat_cmp };

    ghost total = { Prim.search (comparing, rules) };

    ghost matches_partial_cmp = { Prim.search (comparing, rules) };

    ghost matches_eq = { Prim.search (comparing, rules) };

    fn cmp(&self, other: &Duration) -> Ordering {
        self.as_nanos().cmp(&other.as_nanos())
    }
}

impl Hash for Duration {
    ghost hash_input = { λ d. fed.u128 (in_nanos d) };

    ghost respects_eq = { Prim.search (hashing, rules) };

    fn hash<H: Hasher>(&self, state: &mut H) {
        self.as_nanos().hash(state);
    }
}

impl Default for Duration {
    fn default() -> Duration
        ensures secs { secs_of result ≡ 0 }
        ensures nanos { nanos_of result ≡ 0 }
    {
        Duration { secs: 0, nanos: 0 }
    }
}

impl From<StdDuration> for Duration {
    ghost from_gives = { λ d r. in_nanos r ≡ as_nanos d };

    fn from(duration: StdDuration) -> Duration {
        Duration::new(duration.as_secs(), duration.subsec_nanos())
    }
}

impl From<Duration> for StdDuration {
    ghost from_gives = { λ d r. as_nanos r ≡ in_nanos d };

    fn from(duration: Duration) -> StdDuration {
        StdDuration::new(duration.secs, duration.nanos)
    }
}
