//! Streams that give and take few bytes a call, and break; and what a caller reports of bytes that are no reply. The
//! checks are Python's.

use crate::answers::{MOST, ROWS, joined, settings};
use crate::reply::Reply;
use crate::streams::{Sink, Source};
use crate::zeros::Zeros;
use calls::calling::{CallError, Caller};
use calls::serving::{Failure, ServeError, Served, serve};
use std::alloc::{AllocError, Global};
use std::io::{BufReader, ErrorKind};

/// Where the requests of the rows end, and where their answers do.
const REQUEST_ENDS: [usize; 8] = [0, 9, 17, 34, 44, 53, 62, 71];

const ANSWER_ENDS: [usize; 8] = [0, 12, 24, 35, 46, 66, 76, 86];

/// How much a stream gives or takes: so many bytes a call, and the number of calls before it breaks.
#[derive(Clone, Copy)]
struct Flow {
    most: usize,
    calls: usize,
}

/// A stream that does not break.
const SINGLE_BYTES: Flow = Flow {
    most: 1,
    calls: usize::MAX,
};

/// What came of the requests of the rows over such streams, and what the output took.
fn served(
    alloc: Global,
    reads: Flow,
    writes: Flow,
) -> anyhow::Result<(Result<Served, ServeError<AllocError>>, Vec<u8>)> {
    let requests = joined(alloc, false)?;
    let source = Source {
        bytes: &requests,
        most: reads.most,
        calls: reads.calls,
    };
    let mut held = Vec::new(alloc);
    let mut sink = Sink {
        held: &mut held,
        most: writes.most,
        calls: writes.calls,
    };
    let mut input = BufReader::with_capacity(alloc, 16, source)?;
    let ended = serve(
        alloc,
        &mut Zeros { alloc, count: 0 },
        &mut input,
        &mut sink,
        &mut Vec::new(alloc),
        settings(),
        MOST,
    );
    drop(sink);
    Ok((ended, held))
}

/// The number of the last of some ends that stands within so many bytes.
fn frames_in(ends: &[usize], bytes: usize) -> usize {
    ends.iter()
        .filter(|end| **end <= bytes)
        .count()
        .saturating_sub(1)
}

/// One byte a call gives and takes the same.
#[test]
fn takes_single_bytes(rt: HostRuntime) -> anyhow::Result<()> {
    let alloc = rt.alloc();
    let (ended, held) = served(alloc, SINGLE_BYTES, SINGLE_BYTES)?;
    assert!(rt; matches!(&ended, Ok(served) if served.answers == 7 && !served.is_torn));
    assert!(rt; held == joined(alloc, true)?);
    Ok(())
}

/// An input that breaks at each call: the requests that came whole by then are answered, and the next one is named.
#[test]
fn tells_a_broken_input(rt: HostRuntime) -> anyhow::Result<()> {
    let alloc = rt.alloc();
    let wanted = joined(alloc, true)?;
    for calls in 0..=11 {
        let (ended, held) = served(alloc, Flow { most: 7, calls }, SINGLE_BYTES)?;
        let frames = frames_in(&REQUEST_ENDS, calls * 7);
        let is_told = matches!(
            &ended,
            Err(ServeError { answers, why: Failure::Read(why) })
                if *answers == frames as u64 && why.kind() == ErrorKind::ConnectionReset
        );
        assert!(rt; is_told && wanted.starts_with(&held), "after {calls} reads");
        assert!(rt;
            ANSWER_ENDS.get(frames) == Some(&held.len()),
            "after {calls} reads"
        );
    }
    Ok(())
}

/// An output that breaks at each write or flush: it has taken a prefix of the answers, and the request whose answer was
/// not handed on is named. There are 86 writes of a byte, and 7 flushes.
#[test]
fn tells_a_broken_output(rt: HostRuntime) -> anyhow::Result<()> {
    let alloc = rt.alloc();
    let wanted = joined(alloc, true)?;
    for calls in 0..93 {
        let (ended, held) = served(alloc, Flow { most: 9, calls: 99 }, Flow { most: 1, calls })?;
        let whole = frames_in(&ANSWER_ENDS, held.len());
        let is_told = matches!(
            &ended,
            Err(ServeError { answers, why: Failure::Write(_) })
                if *answers == whole as u64 || answers.saturating_add(1) == whole as u64
        );
        assert!(rt; is_told && wanted.starts_with(&held), "after {calls} calls");
    }
    let (ended, held) = served(
        alloc,
        Flow { most: 9, calls: 99 },
        Flow { most: 1, calls: 93 },
    )?;
    assert!(rt; ended.is_ok() && held == wanted);
    Ok(())
}

/// Bytes that a caller reads after a reply of two zeros, and what it is told: a changed bit, a frame that is cut, a
/// byte after a reply, a length of 13, a tag that no reply has, and nothing.
static NO_REPLIES: [(&[u8], &str); 6] = [
    (
        &[3, 0, 0, 0, 1, 4, 1, 209, 166, 246, 96],
        "the reply is damaged",
    ),
    (&[3, 0, 0, 0, 0], "the reply ends early"),
    (
        &[3, 0, 0, 0, 0, 0, 9, 249, 196, 137, 123],
        "bytes follow the 2 of the reply",
    ),
    (
        &[13, 0, 0, 0],
        "the reply's length of 13 is above what is taken",
    ),
    (
        &[1, 0, 0, 0, 2, 110, 105, 88, 156],
        "the reply cannot be decoded: ",
    ),
    (&[], "there is no reply"),
];

/// Each is told after the reply before it was read.
#[test]
fn tells_what_is_no_reply(rt: HostRuntime) -> anyhow::Result<()> {
    let alloc = rt.alloc();
    for (bytes, wanted) in &NO_REPLIES {
        let mut input = Vec::from_slice(alloc, ROWS[0].1)?;
        input.extend_from_slice(bytes)?;
        let mut caller = Caller::new(alloc, input.as_slice(), Vec::new(alloc), settings(), MOST);
        let first: Result<Reply<Vec<u8>>, CallError> = caller.receive();
        let next: Result<Reply<Vec<u8>>, CallError> = caller.receive();
        let text = match &next {
            Ok(_) => String::new(alloc),
            Err(why) => format!(in alloc; "{why}")?,
        };
        assert!(rt; matches!(&first, Ok(Reply::Answer(zeros)) if zeros.len() == 2));
        assert!(rt; text.starts_with(wanted), "{text}");
    }
    Ok(())
}
