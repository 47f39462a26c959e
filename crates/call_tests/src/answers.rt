//! What is replied to frames of each kind, and what a caller reads. The frames are those of docs/STORES.md, made by
//! Python.

use crate::reply::Reply;
use crate::streams::whole;
use crate::zeros::Zeros;
use bincode::config::{Configuration, Limit, LittleEndian, Varint, standard};
use calls::calling::{CallError, Caller, SendError};
use calls::memory::call_in_memory;
use calls::refusal::{Fault, Refusal};
use calls::serving::{Failure, ServeError, Served, serve};
use std::alloc::{AllocError, Global};
use std::cell::Cell;
use std::io;
use std::io::{BufReader, Read, Write};

/// The longest word.
pub const MOST: u32 = 12;

pub fn settings() -> Configuration<LittleEndian, Varint, Limit<64>> {
    standard().with_limit::<64>()
}

/// What is asked, and what is answered: two zeros, an empty word, a number that is too wide, a byte more, ten zeros,
/// eleven, whose answer is longer than a word may be, and a frame with a changed bit.
pub static ROWS: [(&[u8], &[u8]); 7] = [
    (
        &[1, 0, 0, 0, 2, 110, 105, 88, 156],
        &[4, 0, 0, 0, 0, 2, 0, 0, 234, 98, 90, 226],
    ),
    (
        &[0, 0, 0, 0, 199, 75, 103, 72],
        &[4, 0, 0, 0, 1, 2, 1, 1, 38, 211, 214, 222],
    ),
    (
        &[9, 0, 0, 0, 253, 1, 0, 0, 0, 0, 0, 0, 0, 148, 59, 252, 60],
        &[3, 0, 0, 0, 1, 2, 3, 81, 78, 111, 146],
    ),
    (
        &[2, 0, 0, 0, 2, 9, 107, 55, 81, 211],
        &[3, 0, 0, 0, 1, 3, 1, 209, 166, 246, 96],
    ),
    (
        &[1, 0, 0, 0, 10, 161, 49, 129, 22],
        &[
            12, 0, 0, 0, 0, 10, 0, 0, 0, 0, 0, 0, 0, 0, 0, 0, 153, 229, 160, 138,
        ],
    ),
    (
        &[1, 0, 0, 0, 11, 162, 178, 234, 228],
        &[2, 0, 0, 0, 1, 4, 33, 211, 158, 88],
    ),
    (
        &[1, 0, 0, 0, 3, 110, 105, 88, 156],
        &[2, 0, 0, 0, 1, 0, 62, 68, 4, 159],
    ),
];

/// A length of 13, and its answer.
const TOO_LONG: (&[u8], &[u8]) = (
    &[13, 0, 0, 0],
    &[4, 0, 0, 0, 1, 1, 13, 12, 226, 253, 78, 88],
);

/// All requests, one after another, or all answers.
pub fn joined(alloc: Global, answers: bool) -> Result<Vec<u8>, AllocError> {
    let mut bytes = Vec::new(alloc);
    for (request, answer) in &ROWS {
        bytes.extend_from_slice(if answers { *answer } else { *request })?;
    }
    Ok(bytes)
}

/// An output that keeps what is written, and how many bytes of it were flushed.
#[derive(Drop)]
struct Output {
    written: Vec<u8>,
    flushed: usize,
}

impl Write for Output {
    fn write(&mut self, bytes: &[u8]) -> io::Result<usize> {
        self.written.write(bytes)
    }

    fn flush(&mut self) -> io::Result<()> {
        self.flushed = self.written.len();
        Ok(())
    }
}

/// What a run of the server gave: the output holds what was flushed.
#[derive(Drop)]
struct Outcome {
    result: Result<Served, ServeError<AllocError>>,
    output: Vec<u8>,
    count: u64,
}

/// Serves these bytes, with words of at most this many bytes.
fn run(alloc: Global, input: &[u8], most: u32) -> anyhow::Result<Outcome> {
    let mut service = Zeros { alloc, count: 0 };
    let mut input = BufReader::with_capacity(alloc, 16, input)?;
    let mut output = Output {
        written: Vec::new(alloc),
        flushed: 0,
    };
    let mut buffer = Vec::new(alloc);
    let result = serve(
        alloc,
        &mut service,
        &mut input,
        &mut output,
        &mut buffer,
        settings(),
        most,
    );
    let Output {
        mut written,
        flushed,
    } = output;
    written.truncate(flushed);
    Ok(Outcome {
        result,
        output: written,
        count: service.count,
    })
}

/// Each frame gets its answer, in order; what is refused changes nothing, but for the answer that is too long.
#[test]
fn answers_each_frame(rt: HostRuntime) -> anyhow::Result<()> {
    let alloc = rt.alloc();
    let input = joined(alloc, false)?;
    let run = run(alloc, &input, MOST)?;
    let is_whole = matches!(&run.result, Ok(served) if served.answers == 7 && !served.is_torn);
    let wanted = joined(alloc, true)?;
    assert!(rt; is_whole && run.output.as_slice() == wanted.as_slice() && run.count == 23);
    Ok(())
}

/// An input that is cut anywhere gets the answers to the frames that stand whole.
#[test]
fn answers_what_stands_whole(rt: HostRuntime) -> anyhow::Result<()> {
    let alloc = rt.alloc();
    let (request, answer) = ROWS[0];
    for cut in 1..request.len() {
        let mut input = Vec::from_slice(alloc, request)?;
        input.extend_from_slice(&request[..cut])?;
        let run = run(alloc, &input, MOST)?;
        let is_torn = matches!(&run.result, Ok(served) if served.answers == 1 && served.is_torn);
        assert!(rt; is_torn && run.output.as_slice() == answer && run.count == 2);
    }
    Ok(())
}

/// A length that is too great is answered, and ends the loop.
#[test]
fn ends_at_a_length_that_is_too_great(rt: HostRuntime) -> anyhow::Result<()> {
    let alloc = rt.alloc();
    let mut input = Vec::from_slice(alloc, TOO_LONG.0)?;
    input.extend_from_slice(ROWS[0].0)?;
    let run = run(alloc, &input, MOST)?;
    let is_stopped =
        matches!(&run.result, Err(error) if error.answers == 0 && matches!(&error.why, Failure::TooLong(13)));
    assert!(rt; is_stopped && run.output.as_slice() == TOO_LONG.1 && run.count == 0);
    Ok(())
}

/// Where not even a refusal fits, the loop ends, and nothing was written.
#[test]
fn ends_where_no_refusal_fits(rt: HostRuntime) -> anyhow::Result<()> {
    let alloc = rt.alloc();
    let run = run(alloc, ROWS[1].0, 3)?;
    let is_stopped =
        matches!(&run.result, Err(error) if error.answers == 0 && matches!(&error.why, Failure::Unsent(_)));
    assert!(rt; is_stopped && run.output.is_empty());
    Ok(())
}

/// A caller writes the frames of its requests, and reads the replies, and then that there is none.
#[test]
fn reads_what_was_answered(rt: HostRuntime) -> anyhow::Result<()> {
    let alloc = rt.alloc();
    let answers = joined(alloc, true)?;
    let mut caller = Caller::new(alloc, answers.as_slice(), Vec::new(alloc), settings(), MOST);
    let replies: Result<Vec<Reply<Vec<u8>>>, CallError> = caller.call_many(&[
        2u32, 3, 4, 5, 6, 7, 8,
    ]);
    let is_read = match &replies {
        Ok(replies) => are_wanted(alloc, replies)?,
        Err(_) => false,
    };
    let ended: Result<Reply<Vec<u8>>, CallError> = caller.call(&1u32);
    assert!(rt; is_read && matches!(&ended, Err(CallError::NoReply)));
    Ok(())
}

/// Whether replies are those of the rows.
fn are_wanted(alloc: Global, replies: &[Reply<Vec<u8>>]) -> Result<bool, AllocError> {
    let wanted = [
        Reply::Answer(vec![in alloc; 0u8; 2]?),
        Reply::Refused(Refusal::Undecodable(Fault::UnexpectedEnd { additional: 1 })),
        Reply::Refused(Refusal::Undecodable(Fault::InvalidIntegerType)),
        Reply::Refused(Refusal::TrailingBytes { taken: 1 }),
        Reply::Answer(vec![in alloc; 0u8; 10]?),
        Reply::Refused(Refusal::AnswerTooLong),
        Reply::Refused(Refusal::Damaged),
    ];
    Ok(replies == wanted.as_slice())
}

/// Both sides in memory: each request gets its reply.
#[test]
fn calls_in_memory(rt: HostRuntime) -> anyhow::Result<()> {
    let alloc = rt.alloc();
    let mut service = Zeros { alloc, count: 0 };
    let replies = call_in_memory(alloc, &mut service, &[2u32, 10, 11], settings(), MOST);
    let wanted = [
        Reply::Answer(vec![in alloc; 0u8; 2]?),
        Reply::Answer(vec![in alloc; 0u8; 10]?),
        Reply::Refused(Refusal::AnswerTooLong),
    ];
    let are_equal = matches!(&replies, Ok(replies) if replies.as_slice() == wanted.as_slice());
    assert!(rt; are_equal && service.count == 23);
    Ok(())
}

/// A word of three bytes, whose answer has 1,000 zeros.
#[test]
fn answers_with_long_words(rt: HostRuntime) -> anyhow::Result<()> {
    let alloc = rt.alloc();
    let mut service = Zeros { alloc, count: 0 };
    let request = [3, 0, 0, 0, 251, 232, 3, 52, 127, 251, 249];
    let mut input = BufReader::with_capacity(alloc, 16, request.as_slice())?;
    let mut output = Vec::new(alloc);
    let mut buffer = Vec::new(alloc);
    let ended = serve(
        alloc,
        &mut service,
        &mut input,
        &mut output,
        &mut buffer,
        standard().with_limit::<65536>(),
        65536,
    );
    let mut wanted = Vec::from_slice(alloc, &[236, 3, 0, 0, 0, 251, 232, 3])?;
    wanted.extend_from_slice(&vec![in alloc; 0u8; 1000]?)?;
    wanted.extend_from_slice(&[217, 179, 254, 168])?;
    assert!(rt; ended.is_ok() && output == wanted && service.count == 1000);
    Ok(())
}

/// A thousand calls in a row, in memory and over streams, each of which is answered with a zero.
#[test]
fn calls_a_thousand_times(rt: HostRuntime) -> anyhow::Result<()> {
    let alloc = rt.alloc();
    let mut service = Zeros { alloc, count: 0 };
    let requests = vec![in alloc; 1u32; 1000]?;
    let replies = call_in_memory(alloc, &mut service, &requests, settings(), MOST);
    assert!(rt; matches!(&replies, Ok(replies) if are_zeros(replies)) && service.count == 1000);
    let answers = [3, 0, 0, 0, 0, 1, 0, 66, 135, 153, 16].repeat(alloc, 1000)?;
    let mut sent = Vec::new(alloc);
    let mut caller = Caller::new(
        alloc,
        answers.as_slice(),
        whole(&mut sent),
        settings(),
        MOST,
    );
    let replies: Result<Vec<Reply<Vec<u8>>>, CallError> = caller.call_many(&requests);
    drop(caller);
    assert!(rt; matches!(&replies, Ok(replies) if are_zeros(replies)));
    assert!(rt; sent == [1, 0, 0, 0, 1, 154, 154, 8, 143].repeat(alloc, 1000)?);
    Ok(())
}

/// Whether replies are a thousand times one zero.
fn are_zeros(replies: &[Reply<Vec<u8>>]) -> bool {
    replies.len() == 1000
        && replies.iter().all(
            |reply| matches!(reply, Reply::Answer(zeros) if zeros.as_slice() == [0].as_slice()),
        )
}

/// After the request that is not sent, the replies to those before it are still to come.
#[test]
fn tells_how_many_were_sent(rt: HostRuntime) -> anyhow::Result<()> {
    let alloc = rt.alloc();
    let mut sent = Vec::new(alloc);
    let mut caller = Caller::new(alloc, ROWS[0].1, whole(&mut sent), settings(), 4);
    let called: Result<Vec<Reply<Vec<u8>>>, CallError> = caller.call_many(&[2u32, 70000, 3]);
    let Err(CallError::Send(SendError { number, why })) = called else {
        assert!(rt; false);
        return Ok(());
    };
    let rest: Result<Vec<Reply<Vec<u8>>>, CallError> = caller.receive_many(number);
    drop(caller);
    let text = format!(in alloc; "{}", CallError::Send(SendError { number, why }))?;
    assert!(rt; text.starts_with("request 1 was not sent: "), "{text}");
    let wanted = [Reply::Answer(vec![in alloc; 0u8; 2]?)];
    assert!(rt; matches!(&rest, Ok(replies) if replies.as_slice() == wanted.as_slice()));
    assert!(rt; sent.as_slice() == ROWS[0].0);
    Ok(())
}

/// What went over the streams of a caller.
#[derive(Drop)]
struct Counts {
    /// The number of bytes that were written.
    written: Cell<usize>,
    /// The number of those that were flushed.
    flushed: Cell<usize>,
    /// The number of those that were flushed at the first read.
    first: Cell<Option<usize>>,
}

/// One side of a caller's streams, which counts.
#[derive(Drop)]
struct Counted<'s> {
    counts: &'s Counts,
    bytes: &'s [u8],
}

impl Read for Counted<'_> {
    fn read(&mut self, bytes: &mut [u8]) -> io::Result<usize> {
        if self.counts.first.get().is_none() {
            self.counts.first.set(Some(self.counts.flushed.get()));
        }
        self.bytes.read(bytes)
    }
}

impl Write for Counted<'_> {
    fn write(&mut self, bytes: &[u8]) -> io::Result<usize> {
        let written = self.counts.written.get();
        self.counts.written.set(written.saturating_add(bytes.len()));
        Ok(bytes.len())
    }

    fn flush(&mut self) -> io::Result<()> {
        self.counts.flushed.set(self.counts.written.get());
        Ok(())
    }
}

/// How many bytes of requests a caller flushes before it reads, where it asks for these numbers of zeros at once, or
/// for the first alone.
fn flushed_before(alloc: Global, requests: &[u32], at_once: bool) -> Option<usize> {
    let counts = Counts {
        written: Cell::new(0),
        flushed: Cell::new(0),
        first: Cell::new(None),
    };
    let (input, output) = (
        Counted {
            counts: &counts,
            bytes: ROWS[0].1,
        },
        Counted {
            counts: &counts,
            bytes: &[],
        },
    );
    let mut caller = Caller::new(alloc, input, output, settings(), MOST);
    if at_once {
        let _replies: Result<Vec<Reply<Vec<u8>>>, CallError> = caller.call_many(requests);
    } else {
        let _reply: Result<Reply<Vec<u8>>, CallError> = caller.call(requests.first()?);
    }
    counts.first.get()
}

/// Requests are flushed before a reply is waited for: a frame of 9 bytes each.
#[test]
fn flushes_before_it_reads(rt: HostRuntime) {
    assert!(rt; flushed_before(rt.alloc(), &[2], false) == Some(9));
    assert!(rt; flushed_before(rt.alloc(), &[2, 10], true) == Some(18));
}
