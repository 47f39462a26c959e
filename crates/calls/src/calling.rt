//! The side that asks: requests go out in frames, and their replies come back in order.
ghost use Rattle.std.specs.Prelude.{◌<◌, ◌≡◌, ◌++◌, ℕ, List, true, IfErr, IfNone, IfOk, IfSome, IsSomeAnd, OnErr, OnOk};
ghost use Rattle.std.specs.Prelude.{MatchResult, length};
ghost use Rattle.std.specs.Io.KnownBytes.{Keeps};
ghost use Rattle.std.specs.List.{All};
ghost use Rattle.bincode_io.specs.Stream.{TellsBytes, known_bytes};
ghost use Rattle.frames.specs.Frames.{Reads, frame};
ghost use Rattle.frames.specs.declared.Frame.TheVariants.{End};
ghost use Rattle.framed_store.specs.Appended.{IsFitting};
ghost use Rattle.framed_store.specs.Pieces.{Piece, ArePieces, bytes_of_all};
ghost use Rattle.calls.specs.Calling.{AreReplies, IsFlush, IsNoReply, IsOutsideCall, IsReply, IsUnsent, MaybeNoReply};
ghost use Rattle.calls.specs.Calling.{MaybeAllSent, MaybeSent, SendsAll, StopsAt, StopsReceiving, StopsSending};
ghost use Rattle.calls.specs.Calling.{input_of, most_of, output_of, told_as};
ghost use Rattle.calls.specs.Sending.{Sends};
ghost use Rattle.calls.specs.declared.calling.CallError.TheVariants.{NoReply};

use bincode::config::Config;
use bincode::de::Decode;
use bincode::enc::Encode;
use bincode::error::DecodeError;
use bincode::laws::Exact;
use framed_store::appending::{AppendError, append};
use framed_store::records::{Content, Next};
use framed_store::streams::{ReadError, next_from_stream};
use std::alloc::{AllocError, Global};
use std::io;
use std::io::{Read, Write};
use thiserror::Error;

/// Which of the requests that were to be sent was not.
#[derive(Debug, Drop, Error)]
#[error("request {number} was not sent: {why}")]
pub struct SendError {
    /// Its number, from 0 on. Those before it were written, so that as many replies are still to come.
    pub number: usize,
    /// Why it was not sent.
    pub why: AppendError,
}

/// Why a call got no reply.
#[derive(Debug, Drop, Error)]
pub enum CallError {
    /// A request was not sent, nor was any after it. The replies to those before it, as many as its number, are still
    /// to come: `flush` and then `receive_many` of that number reads them, if the output did not fail. Before that a
    /// call would take one of them for its own reply.
    #[error("{0}")]
    Send(SendError),
    /// The output failed when its buffer was flushed. Each request may have been sent, and carried out.
    #[error("the output failed, and the request may have been sent: {0}")]
    Flush(io::Error),
    /// The input ended before the reply.
    #[error("there is no reply")]
    NoReply,
    /// The input ended within the reply.
    #[error("the reply ends early")]
    Torn,
    /// The length of the reply is above what the caller takes.
    #[error("the reply's length of {0} is above what is taken")]
    TooLong(u32),
    /// The check of the reply does not fit.
    #[error("the reply is damaged")]
    Damaged,
    /// The check fits, and the word does not begin with a reply within the limit. The error tells why.
    #[error("the reply cannot be decoded: {0}")]
    Undecodable(DecodeError),
    /// The check fits, and the word goes on after a reply.
    #[error("bytes follow the {taken} of the reply")]
    TrailingBytes {
        /// The number of bytes of the reply.
        taken: usize,
    },
    /// The input failed. What it gave of a reply is lost.
    #[error("{0}")]
    Read(io::Error),
    /// An allocation was refused. What the input gave of a reply is lost.
    #[error("{0}")]
    Memory(AllocError),
}

/// The side that asks, over two streams: one from the server, and one to it. The replies
/// of a server that `serve` runs are of its service's `Reply`.
#[derive(Drop)]
pub struct Caller<R, W, C> {
    alloc: Global,
    input: R,
    output: W,
    buffer: Vec<u8>,
    config: C,
    most: u32,
}

impl<R: Read, W: Write, C: Config> Caller<R, W, C> {
    /// A caller that reads replies from `input` and writes requests to `output`, of at most `most` bytes each.
    pub fn new(alloc: Global, input: R, output: W, config: C, most: u32) -> Caller<R, W, C>
        ensures input { input_of result ≡ input }
        ensures output { output_of result ≡ output }
        ensures most { most_of result ≡ most }
    {
        Caller {
            alloc,
            input,
            output,
            buffer: Vec::new(alloc),
            config,
            most,
        }
    }

    /// Sends a request, and reads its reply. Fails with `Send` of the number 0 if the request is not sent, with `Flush`
    /// if it is not known whether it was, and with the other errors if what the input begins with is no reply: then the
    /// request was sent, and may have been carried out. After an error no further call is of use, unless the error is
    /// `Send` and its cause comes before anything is written.
    pub fn call<Q: Encode + Decode<()> + Exact, A: Decode<()> + Exact>(
        &mut self,
        request: &Q,
    ) -> Result<A, CallError>
        // The frame of the request was written.
        ensures sent { OnOk result (Sends Q.words C.setting C.bound (most_of self.old) request.now
            (W.contents (output_of self.old)) (W.contents (output_of self.new))) }
        // After an error it was too, or not, for the reason that the error tells.
        ensures unsent { IfErr result (MaybeSent Q.words C.setting C.bound (most_of self.old) request.now W.contents
            (output_of self.old) (output_of self.new)) }
        // These clauses speak of input whose bytes are known. The reply is that of the first frame, and what follows it
        // is left;
        ensures reply { TellsBytes (R.remaining (input_of self.old)) → IfOk result (IsReply A.words C.setting C.bound
            (most_of self.old) (known_bytes (R.remaining (input_of self.old)))
            (known_bytes (R.remaining (input_of self.new)))) }
        // or there is none, for the reason that the error tells, if the request was sent.
        ensures none { TellsBytes (R.remaining (input_of self.old)) → IfErr result (MaybeNoReply A.words C.setting
            C.bound (most_of self.old) (known_bytes (R.remaining (input_of self.old)))) }
        ensures most { most_of self.new ≡ most_of self.old }
    {
        self.send(request)?;
        self.flush()?;
        self.receive()
    }

    /// Sends requests, all of them before the first reply is read, and reads a reply for each. Where both streams are
    /// pipes, the replies to all have to fit in what the pipe to the caller holds (65,536 bytes on Linux), or neither
    /// side goes on. Fails as `call` does; replies that came before the error are lost. After `Send` none was read, and
    /// as many are still to come as the number that it tells: no further call is of use before `flush` and then
    /// `receive_many` of that number.
    pub fn call_many<Q: Encode + Decode<()> + Exact, A: Decode<()> + Exact>(
        &mut self,
        requests: &[Q],
    ) -> Result<Vec<A>, CallError>
        // The frames of the requests were written, in order.
        ensures sent { OnOk result (SendsAll Q.words C.setting C.bound (most_of self.old) requests.now
            (W.contents (output_of self.old)) (W.contents (output_of self.new))) }
        // After an error all of them were too, or as many as the number that the error tells, and the next one was not.
        ensures unsent { IfErr result (MaybeAllSent Q.words C.setting C.bound (most_of self.old) requests.now W.contents
            (output_of self.old) (output_of self.new)) }
        // There is a reply for each,
        ensures count { IfOk result (λ replies. length replies.items ≡ length requests.now) }
        // and where the bytes of the input are known, they are those of its first frames, in order.
        ensures replies { TellsBytes (R.remaining (input_of self.old)) → IfOk result (λ replies. AreReplies A.words
            C.setting C.bound (most_of self.old) (known_bytes (R.remaining (input_of self.old)))
            (known_bytes (R.remaining (input_of self.new))) replies.items) }
        ensures most { most_of self.new ≡ most_of self.old }
    {
        self.send_many(requests)?;
        self.flush()?;
        self.receive_many(requests.len())
    }

    /// Writes the frames of requests, in order. They may stay in a buffer of the output until `flush`. Fails with
    /// `Send` alone; the requests before its number are written, and as many replies are to come.
    pub fn send_many<Q: Encode + Decode<()> + Exact>(
        &mut self,
        requests: &[Q],
    ) -> Result<(), CallError>
        ensures sent { OnOk result (SendsAll Q.words C.setting C.bound (most_of self.old) requests.now
            (W.contents (output_of self.old)) (W.contents (output_of self.new))) }
        // After an error those before the number that it tells are sent, and that one is not, for the reason it tells.
        ensures unsent { IfErr result (StopsSending Q.words C.setting C.bound (most_of self.old) requests.now W.contents
            (output_of self.old) (output_of self.new)) }
        ensures input { input_of self.new ≡ input_of self.old }
        ensures most { most_of self.new ≡ most_of self.old }
    {
        match send_requests(
            self.alloc,
            &mut self.output,
            requests,
            self.config,
            self.most,
        ) {
            Ok(()) => Ok(()),
            Err(stopped) => Err(CallError::Send(stopped)),
        }
    }

    /// Reads as many replies as are asked for. Fails as `receive` does; replies that came before the error are lost.
    pub fn receive_many<A: Decode<()> + Exact>(&mut self, count: usize) -> Result<Vec<A>, CallError>
        ensures count { IfOk result (λ replies. length replies.items ≡ count) }
        // Where the bytes of the input are known, the replies are those of its first frames, in order.
        ensures replies { TellsBytes (R.remaining (input_of self.old)) → IfOk result (λ replies. AreReplies A.words
            C.setting C.bound (most_of self.old) (known_bytes (R.remaining (input_of self.old)))
            (known_bytes (R.remaining (input_of self.new))) replies.items) }
        // After an error they are fewer, and then none follows, for the reason that the error tells.
        ensures none { TellsBytes (R.remaining (input_of self.old)) → IfErr result (StopsReceiving A.words C.setting
            C.bound (most_of self.old) count (known_bytes (R.remaining (input_of self.old)))) }
        ensures is_known { TellsBytes (R.remaining (input_of self.old)) → TellsBytes (R.remaining (input_of self.new)) }
        ensures output { output_of self.new ≡ output_of self.old }
        ensures most { most_of self.new ≡ most_of self.old }
    {
        let mut replies = Vec::new(self.alloc);
        for _ in 0..count {
            let reply = self.receive()?;
            if let Err(why) = replies.push(reply) {
                return Err(CallError::Memory(AllocError::from(why)));
            }
        }
        Ok(replies)
    }

    /// Writes the frame of a request. It may stay in a buffer of the output until `flush`. Fails with `Send` of the
    /// number 0 alone.
    pub fn send<Q: Encode + Decode<()> + Exact>(&mut self, request: &Q) -> Result<(), CallError>
        ensures sent { OnOk result (Sends Q.words C.setting C.bound (most_of self.old) request.now
            (W.contents (output_of self.old)) (W.contents (output_of self.new))) }
        ensures unsent { IfErr result (IsUnsent Q.words C.setting C.bound (most_of self.old) request.now W.contents
            (output_of self.old) (output_of self.new)) }
        ensures input { input_of self.new ≡ input_of self.old }
        ensures most { most_of self.new ≡ most_of self.old }
    {
        match append(
            self.alloc,
            &mut self.output,
            request,
            self.config,
            self.most,
        ) {
            Ok(_) => Ok(()),
            Err(why) => Err(CallError::Send(SendError { number: 0, why })),
        }
    }

    /// Hands on what the output has in its buffer. Fails with `Flush` alone.
    pub fn flush(&mut self) -> Result<(), CallError>
        ensures kept { Keeps (W.contents (output_of self.old)) (W.contents (output_of self.new)) }
        ensures failed { IfErr result IsFlush }
        ensures input { input_of self.new ≡ input_of self.old }
        ensures most { most_of self.new ≡ most_of self.old }
    {
        match self.output.flush() {
            Ok(()) => Ok(()),
            Err(why) => Err(CallError::Flush(why)),
        }
    }

    /// Reads the reply that the input begins with.
    pub fn receive<A: Decode<()> + Exact>(&mut self) -> Result<A, CallError>
        // These clauses speak of input whose bytes are known. The reply is that of the first frame, and what follows it
        // is left;
        ensures reply { TellsBytes (R.remaining (input_of self.old)) → IfOk result (IsReply A.words C.setting C.bound
            (most_of self.old) (known_bytes (R.remaining (input_of self.old)))
            (known_bytes (R.remaining (input_of self.new)))) }
        // or there is none, for the reason that the error tells.
        ensures none { TellsBytes (R.remaining (input_of self.old)) → IfErr result (IsNoReply A.words C.setting C.bound
            (most_of self.old) (known_bytes (R.remaining (input_of self.old)))) }
        // The frame of a reply that was sent is read as an equal one, whatever follows it.
        ensures equal { TellsBytes (R.remaining (input_of self.old))
            → All (λ b. b < 256) (known_bytes (R.remaining (input_of self.old)))
            → (sent : A) (word rest : List ℕ) → IsFitting A.words C.setting C.bound (most_of self.old) sent word
            → known_bytes (R.remaining (input_of self.old)) ≡ frame word ++ rest
            → MatchResult result (λ reply. (A.eq sent reply ≡ true)
            × (known_bytes (R.remaining (input_of self.new)) ≡ rest)) IsOutsideCall }
        ensures is_known { TellsBytes (R.remaining (input_of self.old)) → TellsBytes (R.remaining (input_of self.new)) }
        ensures output { output_of self.new ≡ output_of self.old }
        ensures most { most_of self.new ≡ most_of self.old }
    {
        match next_reply(
            self.alloc,
            &mut self.input,
            &mut self.buffer,
            self.config,
            self.most,
        ) {
            Ok(Some(reply)) => Ok(reply),
            Ok(None) => Err(CallError::NoReply),
            Err(why) => Err(why),
        }
    }
}

/// Writes the frames of requests to a stream, in order, without reading a reply, of encodings of at most `most` bytes
/// each. Fails at the first request that is not written. Where the output failed, a prefix of its frame may be there.
pub fn send_requests<Q: Encode + Decode<()> + Exact, C: Config, W: Write>(
    alloc: Global,
    output: &mut W,
    requests: &[Q],
    config: C,
    most: u32,
) -> Result<(), SendError>
    ensures sent { OnOk result (SendsAll Q.words C.setting C.bound most requests.now (W.contents output.old)
        (W.contents output.new)) }
    // After an error those before the one of its number are sent, and that one is not, for the reason that it tells.
    ensures unsent { IfErr result (StopsAt Q.words C.setting C.bound most requests.now W.contents output.old
        output.new) }
{
    for (number, request) in requests.iter().enumerate() {
        if let Err(why) = append(alloc, output, request, config, most) {
            return Err(SendError { number, why });
        }
    }
    Ok(())
}

/// Reads the reply that a stream begins with, of an encoding of at most `most` bytes, or `None` at its end. `buffer`
/// holds one frame at a time. Fails as `Caller::receive` does, and never with `NoReply`.
pub fn next_reply<A: Decode<()> + Exact, R: Read, C: Config>(
    alloc: Global,
    input: &mut R,
    buffer: &mut Vec<u8>,
    config: C,
    most: u32,
) -> Result<Option<A>, CallError>
    // These clauses speak of input whose bytes are known. The reply is that of the first frame, and what follows it is
    // left;
    ensures reply { TellsBytes (R.remaining input.old) → IfOk result (λ found. IfSome found (IsReply A.words C.setting
        C.bound most (known_bytes (R.remaining input.old)) (known_bytes (R.remaining input.new)))) }
    // or the input is at its end;
    ensures end { TellsBytes (R.remaining input.old) → IfOk result (λ found.
        IfNone found (Reads most (known_bytes (R.remaining input.old)) End)) }
    // or there is none, for the reason that the error tells.
    ensures none { TellsBytes (R.remaining input.old) → IfErr result (λ why. (IsNoReply A.words C.setting C.bound most
        (known_bytes (R.remaining input.old)) why) × (why ≡ NoReply → ⊥)) }
    // The frame of a reply that was sent is read as an equal one, whatever follows it.
    ensures equal { TellsBytes (R.remaining input.old) → All (λ b. b < 256) (known_bytes (R.remaining input.old))
        → (sent : A) (word rest : List ℕ) → IsFitting A.words C.setting C.bound most sent word
        → known_bytes (R.remaining input.old) ≡ frame word ++ rest
        → MatchResult result (λ found. IsSomeAnd found (λ reply. (A.eq sent reply ≡ true)
        × (known_bytes (R.remaining input.new) ≡ rest))) IsOutsideCall }
    ensures is_known { TellsBytes (R.remaining input.old) → TellsBytes (R.remaining input.new) }
{
    A::tell_exact();
    match next_from_stream(alloc, input, buffer, config, most) {
        Ok(Next::Record { size: _, content }) => reply_of(content),
        Ok(Next::End) => Ok(None),
        Ok(Next::Torn) => Err(CallError::Torn),
        Ok(Next::TooLong(length)) => Err(CallError::TooLong(length)),
        Err(ReadError::Read(why)) => Err(CallError::Read(why)),
        Err(ReadError::Memory(why)) => Err(CallError::Memory(why)),
    }
}

/// The reply that a frame holds.
fn reply_of<A>(content: Content<A>) -> Result<Option<A>, CallError>
    ensures { result ≡ told_as content }
{
    match content {
        Content::Value(reply) => Ok(Some(reply)),
        Content::Damaged => Err(CallError::Damaged),
        Content::Undecodable(why) => Err(CallError::Undecodable(why)),
        Content::Longer { taken } => Err(CallError::TrailingBytes { taken }),
    }
}
