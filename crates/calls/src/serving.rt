//! The loop of a server: requests in frames from one stream, and their replies in frames to another.
ghost use Rattle.std.specs.Prelude.{◌≡◌, ◌↔◌, ◌+◌, ◌≤◌, ◌^◌, IfErr, IfOk, IsTrue, OnErr, OnOk, vec_len};
ghost use Rattle.std.specs.Io.Buffered.{reader_remaining};
ghost use Rattle.std.specs.Io.KnownBytes.{Keeps};
ghost use Rattle.bincode_io.specs.Stream.{TellsBytes, known_bytes};
ghost use Rattle.framed_store.specs.declared.records.Content.TheVariants.{Value};
ghost use Rattle.calls.specs.Sending.{Sends};
ghost use Rattle.calls.specs.Serving.{IsServed, IsStopped};
ghost use Rattle.calls.specs.ServingSteps.{AnswersContent, FailsAt, HoldsFrame, IsLonger, IsMemory, IsWrite};
ghost use Rattle.calls.specs.ServingSteps.{SendsIfFit, SendsPart, StopsFrame, TakesFrame};

use crate::refusal::{Fault, Refusal};
use crate::service::Service;
use bincode::config::Config;
use bincode::de::Decode;
use bincode::enc::Encode;
use bincode::error::{DecodeError, EncodeError, StreamError};
use bincode::laws::Exact;
use framed_store::appending::{AppendError, append};
use framed_store::records::{Content, Next};
use framed_store::streams::{ReadError, next_from_stream};
use frames::OVERHEAD;
use std::alloc::{AllocError, Global};
use std::fmt::Display;
use std::io;
use std::io::{BufReader, ErrorKind, Read, Write};
use thiserror::Error;

/// The number of bytes of a length.
const FIELD: usize = 4;

/// What was served.
#[derive(Clone, Copy, Debug, Drop, PartialEq)]
pub struct Served {
    /// The number of frames that were answered.
    pub answers: u64,
    /// Whether the input ended within a frame after them, which got no answer.
    pub is_torn: bool,
}

/// Why the loop of a server ended before its input did. The frames before that place were answered.
#[derive(Debug, Drop, Error)]
#[error_bound(E: Display)]
#[error("request {answers}: {why}")]
pub struct ServeError<E> {
    /// The number of frames that were answered, which is the number of the next one, from 0 on.
    pub answers: u64,
    /// What went wrong then.
    pub why: Failure<E>,
}

/// What ends the loop of a server.
#[derive(Debug, Drop, Error)]
#[error_bound(E: Display)]
pub enum Failure<E> {
    /// The service cannot go on. The request got no answer. Whether it changed anything the service tells: where it has
    /// a log, the change may stand there, and be carried out after a restart.
    #[error("{0}")]
    Service(E),
    /// The length of a frame is above what the server takes. That was answered, and changed nothing.
    #[error("its length of {0} is above what the server takes")]
    TooLong(u32),
    /// The input failed, or has 2^64 bytes. What it gave of a frame is lost.
    #[error("{0}")]
    Read(io::Error),
    /// An allocation was refused. The request may have been carried out, and got no answer.
    #[error("{0}")]
    Memory(AllocError),
    /// The output failed. The request was carried out, and a prefix of its answer may have been written.
    #[error("{0}")]
    Write(EncodeError),
    /// A refusal is longer than the server's frames may be, or passes its limit. The request may have been carried out,
    /// and got no answer.
    #[error("a refusal does not fit: {0}")]
    Unsent(AppendError),
}

/// Answers the requests of a stream, frame by frame and in order, up to its end or to a torn frame. It takes and sends
/// encodings of at most `most` bytes. A frame that holds no request is answered by a refusal, and changes nothing. A
/// request whose answer is too long is carried out, and answered by `Refusal::AnswerTooLong`.
/// `buffer` holds one frame at a time. A server that waits for input has written and flushed all answers to the frames
/// before: the output is flushed where the input's buffer does not hold a whole frame, also where it holds a part of
/// one. Fails with `Service` where the service fails, with `TooLong` at a length
/// above `most`, with `Read` or `Write` if a stream fails, with `Memory`, or with `Unsent` if not even a refusal can be
/// sent. After an error the replies before it may be in a buffer of the output: a caller flushes it, which sends them.
pub fn serve<S: Service, C: Config, R: Read, W: Write>(
    alloc: Global,
    service: &mut S,
    input: &mut BufReader<R>,
    output: &mut W,
    buffer: &mut Vec<u8>,
    config: C,
    most: u32,
) -> Result<Served, ServeError<S::Failure>>
    // The buffer holds at most a frame.
    ensures room { vec_len buffer.new ≤ 8 + most }
    // These clauses speak of input whose bytes are known. Each of its frames got one reply, in order; it ends after
    // them, or within a frame.
    ensures served { TellsBytes (reader_remaining R.remaining input.old) → IfOk result (IsServed
        S.replies S.refusal_reply S.Request.words S.Reply.words C.setting C.bound most
        (known_bytes (reader_remaining R.remaining input.old)) (S.state service.old) (S.state service.new)
        (W.contents output.old) (W.contents output.new)) }
    // After an error the frames before the place did, and what stands there is told.
    ensures stopped { TellsBytes (reader_remaining R.remaining input.old) → IfErr result (IsStopped
        S.replies S.refusal_reply S.Request.words S.Reply.words C.setting C.bound most S.fails
        (known_bytes (reader_remaining R.remaining input.old)) (S.state service.old) (S.state service.new)
        (W.contents output.old) (W.contents output.new)) }
{
    let mut answers = 0;
    let mut offset = 0;
    'frames: loop {
        match serve_next(alloc, service, input, output, buffer, config, most, offset) {
            Ok(Step::End) => {
                return Ok(Served {
                    answers,
                    is_torn: false,
                });
            }
            Ok(Step::Torn) => {
                return Ok(Served {
                    answers,
                    is_torn: true,
                });
            }
            Ok(Step::Answered(next)) => {
                answers += 1;
                offset = next;
            }
            Err(why) => return Err(ServeError { answers, why }),
        }
    }
}

/// One step of the loop.
#[derive(Clone, Copy, Drop)]
enum Step {
    /// No byte was left.
    End,
    /// The input ended within a frame.
    Torn,
    /// A frame was answered. The number is the offset after it.
    Answered(usize),
}

/// Answers the frame at an offset.
fn serve_next<S: Service, C: Config, R: Read, W: Write>(
    alloc: Global,
    service: &mut S,
    input: &mut BufReader<R>,
    output: &mut W,
    buffer: &mut Vec<u8>,
    config: C,
    most: u32,
    offset: usize,
) -> Result<Step, Failure<S::Failure>>
    ensures room { vec_len buffer.new ≤ 8 + most }
    ensures longer { IfOk result (IsLonger offset) }
    ensures takes { TellsBytes (reader_remaining R.remaining input.old) → IfOk result (TakesFrame
        S.replies S.refusal_reply S.Request.words S.Reply.words C.setting C.bound most offset
        (known_bytes (reader_remaining R.remaining input.old)) (S.state service.old) (S.state service.new)
        (known_bytes (reader_remaining R.remaining input.new)) (W.contents output.old) (W.contents output.new)) }
    ensures stops { TellsBytes (reader_remaining R.remaining input.old) → IfErr result (StopsFrame
        S.replies S.refusal_reply S.Request.words S.Reply.words C.setting C.bound most S.fails
        (known_bytes (reader_remaining R.remaining input.old)) (S.state service.old) (S.state service.new)
        (W.contents output.old) (W.contents output.new)) }
    ensures is_known { TellsBytes (reader_remaining R.remaining input.old)
        → TellsBytes (reader_remaining R.remaining input.new) }
{
    match next_from_stream(alloc, input, buffer, config, most) {
        Ok(Next::End) => Ok(Step::End),
        Ok(Next::Torn) => Ok(Step::Torn),
        Ok(Next::TooLong(length)) => {
            let refusal = Refusal::TooLong { length, most };
            refuse::<S, C, W>(alloc, output, refusal, config, most)?;
            flush(output)?;
            Err(Failure::TooLong(length))
        }
        Ok(Next::Record { size, content }) => {
            let next = match after(offset, size) {
                Ok(next) => next,
                Err(why) => return Err(Failure::Read(why)),
            };
            answer_frame(alloc, service, output, content, config, most)?;
            if !holds_frame(input.buffer(), most) {
                flush(output)?;
            }
            Ok(Step::Answered(next))
        }
        Err(ReadError::Read(why)) => Err(Failure::Read(why)),
        Err(ReadError::Memory(why)) => Err(Failure::Memory(why)),
    }
}

/// The offset after a frame. Fails only at 2^64 or above.
fn after(offset: usize, size: usize) -> io::Result<usize>
    ensures sum { IfOk result (λ n. n ≡ offset + size) }
    ensures full { OnErr result (2 ^ 64 ≤ offset + size) }
{
    match offset.checked_add(size) {
        Some(next) => Ok(next),
        None => Err(io::Error::from(ErrorKind::FileTooLarge)),
    }
}

/// Answers what a frame holds.
fn answer_frame<S: Service, C: Config, W: Write>(
    alloc: Global,
    service: &mut S,
    output: &mut W,
    content: Content<S::Request>,
    config: C,
    most: u32,
) -> Result<(), Failure<S::Failure>>
    ensures answered { OnOk result (AnswersContent S.replies S.refusal_reply S.Reply.words C.setting
        C.bound most (S.state service.old) content (S.state service.new) (W.contents output.old)
        (W.contents output.new)) }
    ensures failed { IfErr result (FailsAt S.replies S.refusal_reply S.Reply.words C.setting
        C.bound most S.fails (S.state service.old) content (S.state service.new) (W.contents output.old)
        (W.contents output.new)) }
{
    match content {
        Content::Value(request) => answer_request(alloc, service, output, request, config, most),
        Content::Damaged => { refuse::<S, C, W>(alloc, output, Refusal::Damaged, config, most) }
        Content::Undecodable(why) => {
            let refusal = Refusal::Undecodable(Fault::of_error(&why));
            refuse::<S, C, W>(alloc, output, refusal, config, most)
        }
        Content::Longer { taken } => {
            let refusal = Refusal::TrailingBytes {
                taken: taken as u64,
            };
            refuse::<S, C, W>(alloc, output, refusal, config, most)
        }
    }
}

/// Has the service answer a request, and sends the answer.
fn answer_request<S: Service, C: Config, W: Write>(
    alloc: Global,
    service: &mut S,
    output: &mut W,
    request: S::Request,
    config: C,
    most: u32,
) -> Result<(), Failure<S::Failure>>
    ensures answered { OnOk result (AnswersContent S.replies S.refusal_reply S.Reply.words C.setting
        C.bound most (S.state service.old) (Value request) (S.state service.new) (W.contents output.old)
        (W.contents output.new)) }
    ensures failed { IfErr result (FailsAt S.replies S.refusal_reply S.Reply.words C.setting
        C.bound most S.fails (S.state service.old) (Value request) (S.state service.new) (W.contents output.old)
        (W.contents output.new)) }
{
    match service.answer(request) {
        Ok(reply) => match send_reply(alloc, output, &reply, config, most) {
            Ok(Sending::Sent) => Ok(()),
            Ok(Sending::Unfit(_)) => {
                refuse::<S, C, W>(alloc, output, Refusal::AnswerTooLong, config, most)
            }
            Err(why) => Err(why),
        },
        Err(why) => Err(Failure::Service(why)),
    }
}

/// Sends a refusal.
fn refuse<S: Service, C: Config, W: Write>(
    alloc: Global,
    output: &mut W,
    refusal: Refusal,
    config: C,
    most: u32,
) -> Result<(), Failure<S::Failure>>
    ensures sent { OnOk result (Sends S.Reply.words C.setting C.bound most (S.refusal_reply refusal)
        (W.contents output.old) (W.contents output.new)) }
    ensures failed { IfErr result (SendsPart S.Reply.words C.setting C.bound most (S.refusal_reply refusal)
        (W.contents output.old) (W.contents output.new)) }
{
    let reply = S::refuse(refusal);
    match send_reply(alloc, output, &reply, config, most) {
        Ok(Sending::Sent) => Ok(()),
        Ok(Sending::Unfit(why)) => Err(Failure::Unsent(why)),
        Err(why) => Err(why),
    }
}

/// Whether a reply was sent.
#[derive(Drop)]
enum Sending {
    /// Its frame was written.
    Sent,
    /// Nothing was written: it passes the limit, or is longer than a frame may be.
    Unfit(AppendError),
}

/// Sends a reply, if it fits.
fn send_reply<T: Encode + Decode<()> + Exact, E, C: Config, W: Write>(
    alloc: Global,
    output: &mut W,
    reply: &T,
    config: C,
    most: u32,
) -> Result<Sending, Failure<E>>
    ensures sent { IfOk result (SendsIfFit T.words C.setting C.bound most reply.now (W.contents output.old)
        (W.contents output.new)) }
    ensures failed { IfErr result (SendsPart T.words C.setting C.bound most reply.now (W.contents output.old)
        (W.contents output.new)) }
{
    match append(alloc, output, reply, config, most) {
        Ok(_) => Ok(Sending::Sent),
        Err(AppendError::Write(why)) => Err(Failure::Write(why)),
        Err(why) => {
            if is_memory(&why) {
                return Err(Failure::Memory(AllocError));
            }
            Ok(Sending::Unfit(why))
        }
    }
}

/// Whether an allocation was refused.
fn is_memory(error: &AppendError) -> bool
    ensures { IsTrue result ↔ IsMemory error.now }
{
    match error {
        AppendError::Memory(_) => true,
        AppendError::Encode(why) => matches!(why, EncodeError::Memory),
        AppendError::ReadBack(why) => matches!(why, DecodeError::Memory),
        _ => false,
    }
}

/// Hands on what an output has in its buffer.
fn flush<W: Write, E>(output: &mut W) -> Result<(), Failure<E>>
    ensures kept { Keeps (W.contents output.old) (W.contents output.new) }
    ensures failed { IfErr result IsWrite }
{
    match output.flush() {
        Ok(()) => Ok(()),
        Err(why) => Err(Failure::Write(EncodeError::Io {
            inner: StreamError::from(why),
            index: 0,
        })),
    }
}

/// Whether bytes begin with a whole frame, or with a length above `most`, so that nothing more has to be read to answer
/// it.
pub fn holds_frame(bytes: &[u8], most: u32) -> bool
    ensures { IsTrue result ↔ HoldsFrame most bytes.now }
{
    match bytes {
        [a, b, c, d, rest @ ..] => {
            let length = u32::from_le_bytes([*a, *b, *c, *d]);
            length > most || rest.len() >= OVERHEAD - FIELD + length as usize
        }
        _ => false,
    }
}
