//! Calls without streams, for the tests of a service: each request goes through a frame, the loop of the server and the
//! frame of its reply.
ghost use Rattle.std.specs.Prelude.{◌≡◌, ◌<◌, ℕ, List, [], Some, IfOk, length};
ghost use Rattle.std.specs.List.{All};
ghost use Rattle.framed_store.specs.Appended.{FitsStore};
ghost use Rattle.calls.specs.Calling.{AreReplies, SendsAll};
ghost use Rattle.calls.specs.Conversing.{Converses, ServesAll};

use crate::calling::{CallError, Caller, send_requests};
use crate::service::Service;
use crate::serving::{ServeError, serve};
use bincode::config::Config;
use bincode::de::Decode;
use bincode::enc::Encode;
use bincode::laws::Exact;
use std::alloc::Global;
use std::fmt::Display;
use std::io;
use std::io::BufReader;
use thiserror::Error;

/// Why calls in memory failed.
#[derive(Debug, Drop, Error)]
#[error_bound(E: Display)]
pub enum MemoryCallError<E> {
    /// A request was not sent, or a reply was not read.
    #[error("{0}")]
    Call(CallError),
    /// The loop of the server ended.
    #[error("{0}")]
    Serve(ServeError<E>),
    /// An allocation for a buffer was refused.
    #[error("{0}")]
    Memory(io::Error),
}

/// Asks a service a list of requests, and returns the reply to each: as over two streams, but in memory. Encodings have
/// at most `most` bytes. Requests that were answered before an error changed the service.
pub fn call_in_memory<S: Service, C: Config>(
    alloc: Global,
    service: &mut S,
    requests: &[S::Request],
    config: C,
    most: u32,
) -> Result<Vec<S::Reply>, MemoryCallError<S::Failure>>
where
    S::Request: Encode + Exact,
    // Each reply equals what the service answers to a request that equals the one of that place, in order.
    ensures { IfOk result (λ replies. Converses S.replies S.refusal_reply (FitsStore S.Reply.words
        C.setting C.bound most) S.Request.eq S.Reply.eq (S.state service.old)
        requests.now replies.items (S.state service.new)) }
{
    S::Request::tell_exact();
    S::Reply::tell_exact();
    let sent = frames_of(alloc, requests, config, most)?;
    tell_bytes(&sent);
    let answered = serve_slice(alloc, service, &sent, config, most)?;
    tell_bytes(&answered);
    replies_of(alloc, &answered, requests.len(), config, most)
}

/// The frames of requests, one after another.
fn frames_of<Q: Encode + Decode<()> + Exact, E, C: Config>(
    alloc: Global,
    requests: &[Q],
    config: C,
    most: u32,
) -> Result<Vec<u8>, MemoryCallError<E>>
    ensures { IfOk result (λ sent. SendsAll Q.words C.setting C.bound most requests.now (Some []) (Some sent.items)) }
{
    let mut sent = Vec::new(alloc);
    match send_requests(alloc, &mut sent, requests, config, most) {
        Ok(()) => Ok(sent),
        Err(stopped) => Err(MemoryCallError::Call(CallError::Send(stopped))),
    }
}

/// The frames of the replies to frames of requests.
fn serve_slice<S: Service, C: Config>(
    alloc: Global,
    service: &mut S,
    sent: &[u8],
    config: C,
    most: u32,
) -> Result<Vec<u8>, MemoryCallError<S::Failure>>
    ensures { IfOk result (λ answered. ServesAll S.replies S.refusal_reply S.Request.words
        S.Reply.words C.setting C.bound most sent.now (S.state service.old)
        (S.state service.new) answered.items) }
{
    let mut input = match BufReader::new(alloc, sent) {
        Ok(input) => input,
        Err(why) => return Err(MemoryCallError::Memory(why)),
    };
    let mut answered = Vec::new(alloc);
    let mut buffer = Vec::new(alloc);
    match serve(
        alloc,
        service,
        &mut input,
        &mut answered,
        &mut buffer,
        config,
        most,
    ) {
        Ok(_) => Ok(answered),
        Err(why) => Err(MemoryCallError::Serve(why)),
    }
}

/// The first replies of frames, as many as are asked for.
fn replies_of<A: Decode<()> + Exact, E, C: Config>(
    alloc: Global,
    answered: &[u8],
    count: usize,
    config: C,
    most: u32,
) -> Result<Vec<A>, MemoryCallError<E>>
    ensures count { IfOk result (λ replies. length replies.items ≡ count) }
    ensures replies { IfOk result (λ replies. (left : List ℕ)
        × AreReplies A.words C.setting C.bound most answered.now left replies.items) }
{
    let mut caller = Caller::new(alloc, answered, Vec::new(alloc), config, most);
    match caller.receive_many(count) {
        Ok(replies) => Ok(replies),
        Err(why) => Err(MemoryCallError::Call(why)),
    }
}

/// Tells a proof that bytes are numbers below 256.
fn tell_bytes(bytes: &[u8])
    ensures { All (λ b. b < 256) bytes.now }
{
    let _ = bytes;
}
