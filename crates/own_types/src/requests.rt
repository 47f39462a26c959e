//! A server's loop: requests one after another, from untrusted senders, decoded under a limit.
ghost use Rattle.std.specs.Prelude.{◌≡◌, ◌≤◌, ℕ, Err, IfOk, MatchOption, Some, drop, length};
ghost use Rattle.std.specs.List.{All};
ghost use Rattle.bincode.specs.Slice.{IsAnswer};
ghost use Rattle.own_types.specs.Requests.{FollowOn, IsBounded, IsRead, IsWithin};

use bincode::config::{Config, Configuration, Limit, LittleEndian, Varint, standard};
use bincode::de::Decode;
use bincode::decode_from_slice;
use bincode::error::DecodeError;
use std::alloc::{AllocError, Global};

type ServerConfig = Configuration<LittleEndian, Varint, Limit<65536>>;

/// A request that was decoded.
#[derive(Drop)]
pub struct Request<T> {
    /// The number of bytes before it.
    pub start: usize,
    /// Its length in bytes.
    pub size: usize,
    /// The request itself.
    pub value: T,
}

/// The requests in the bytes that were received.
#[derive(Drop)]
pub struct Requests<T> {
    /// The requests, in order.
    pub read: Vec<Request<T>>,
    /// The number of bytes that they take.
    pub end: usize,
    /// Why there are no more, unless there were enough: `UnexpectedEnd` if the rest of one is still to come.
    pub stopped: Option<DecodeError>,
}

/// Decodes at most `most` requests. Fails if an allocation is refused; the received bytes are only borrowed.
pub fn read_requests<T: Decode<()>, C: Config>(
    alloc: Global,
    received: &[u8],
    most: usize,
    config: C,
) -> Result<Requests<T>, AllocError>
    // Each request is an encoding of its value within the limit,
    ensures words { IfOk result (λ r.
        All (IsRead (T.words.format C.setting) C.bound T.words.decodes_to received.now) r.read.items) }
    // the limit bounds it,
    ensures bounded { (limit : ℕ) → C.bound ≡ Some limit
        → IfOk result (λ r. All (IsBounded (T.words.format C.setting) limit received.now) r.read.items) }
    // they follow one another,
    ensures in_turn { IfOk result (λ r. FollowOn 0 r.read.items r.end) }
    // there are at most `most`,
    ensures at_most { IfOk result (λ r. length r.read.items ≤ most) }
    // and if there are fewer, `stopped` is the error of decoding the bytes that are left.
    ensures stopped { IfOk result (λ r. MatchOption r.stopped (length r.read.items ≡ most) (λ why.
        IsAnswer (T.words.format C.setting) C.bound T.words.may_allocate T.words.decodes_to (drop r.end received.now)
        (Err why))) }
{
    let mut read = Vec::new(alloc);
    let mut end = 0;
    while read.len() < most {
        match decode_from_slice(alloc, &received[end..], config) {
            Ok((value, size)) => {
                read.push(Request {
                    start: end,
                    size,
                    value,
                })?;
                end += size;
            }
            Err(why) => {
                return Ok(Requests {
                    read,
                    end,
                    stopped: Some(why),
                });
            }
        }
    }
    Ok(Requests {
        read,
        end,
        stopped: None,
    })
}

/// The loop of a server: decodes the requests in what was received, as `read_requests` does. Whatever was received, no
/// request takes more than 98304 bytes, and no list, map or array in one claims more than 65536 bytes.
pub fn serve<T: Decode<()>>(
    alloc: Global,
    received: &[u8],
    most: usize,
) -> Result<Requests<T>, AllocError>
    ensures bytes { IfOk result (λ r. All (IsWithin 98304) r.read.items) }
    ensures room { IfOk result (λ r.
        All (IsBounded (T.words.format ⟦<ServerConfig as Config>⟧.setting) 65536 received.now) r.read.items) }
    ensures words { IfOk result (λ r. All (IsRead (T.words.format ⟦<ServerConfig as Config>⟧.setting)
        ⟦<ServerConfig as Config>⟧.bound T.words.decodes_to received.now) r.read.items) }
    ensures in_turn { IfOk result (λ r. FollowOn 0 r.read.items r.end) }
    ensures at_most { IfOk result (λ r. length r.read.items ≤ most) }
    ensures stopped { IfOk result (λ r. MatchOption r.stopped (length r.read.items ≡ most) (λ why.
        IsAnswer (T.words.format ⟦<ServerConfig as Config>⟧.setting) ⟦<ServerConfig as Config>⟧.bound
        T.words.may_allocate T.words.decodes_to (drop r.end received.now) (Err why))) }
{
    let config: ServerConfig = standard().with_limit::<65536>();
    read_requests(alloc, received, most, config)
}
