//! What calls leave where an allocation fails: each test passes whichever one it is.

use crate::answers::{MOST, ROWS, settings};
use crate::reply::Reply;
use crate::zeros::Zeros;
use bincode::error::{DecodeError, EncodeError};
use calls::calling::{CallError, Caller, SendError};
use calls::serving::{Failure, ServeError, Served, serve};
use framed_store::appending::AppendError;
use std::alloc::AllocError;
use std::io::BufReader;

/// Whether a server answered the one frame, or ended for want of memory.
fn is_end(ended: &Result<Served, ServeError<AllocError>>) -> bool {
    match ended {
        Ok(served) => served.answers == 1,
        Err(error) => matches!(
            &error.why,
            Failure::Memory(_) | Failure::Service(_) | Failure::Write(_)
        ),
    }
}

/// What was answered is a prefix of the answer.
#[test]
fn serves(rt: HostRuntime) {
    let alloc = rt.alloc();
    let (request, answer) = ROWS[4];
    let mut service = Zeros { alloc, count: 0 };
    let mut output = Vec::new(alloc);
    let mut buffer = Vec::new(alloc);
    if let Ok(mut input) = BufReader::with_capacity(alloc, 16, request) {
        let ended = serve(
            alloc,
            &mut service,
            &mut input,
            &mut output,
            &mut buffer,
            settings(),
            MOST,
        );
        assert!(rt; is_end(&ended) && answer.starts_with(output.as_slice()));
    }
}

/// Whether a request was not sent for want of memory.
fn is_unsent(why: &AppendError) -> bool {
    matches!(
        why,
        AppendError::Memory(_)
            | AppendError::Encode(EncodeError::Memory)
            | AppendError::ReadBack(DecodeError::Memory)
            | AppendError::Write(_)
    )
}

/// Whether ten zeros are the reply, or memory was refused.
fn is_reply(reply: &Result<Reply<Vec<u8>>, CallError>) -> bool {
    match reply {
        Ok(Reply::Answer(zeros)) => zeros.len() == 10,
        Ok(Reply::Refused(_)) => false,
        Err(CallError::Send(SendError { number: 0, why })) => is_unsent(why),
        Err(why) => matches!(
            why,
            CallError::Memory(_) | CallError::Undecodable(DecodeError::Memory)
        ),
    }
}

/// A reply is read as a whole, or not at all.
#[test]
fn calls(rt: HostRuntime) {
    let alloc = rt.alloc();
    let mut caller = Caller::new(alloc, ROWS[4].1, Vec::new(alloc), settings(), MOST);
    let reply = caller.call(&10u32);
    assert!(rt; is_reply(&reply));
}
