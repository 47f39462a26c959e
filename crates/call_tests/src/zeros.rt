//! A service that replies with zeros.
ghost use Rattle.std.specs.Prelude.{◌≡◌, ℕ, length};
ghost use Rattle.call_tests.specs.declared.reply.Reply.TheVariants.{Answer, Refused};

use crate::reply::Reply;
use calls::refusal::Refusal;
use calls::service::Service;
use std::alloc::{AllocError, Global};

/// Answers with as many zeros as are asked for, and counts them.
#[derive(Drop)]
pub struct Zeros {
    pub alloc: Global,
    /// The number of zeros that were answered.
    pub count: u64,
}

impl Service for Zeros {
    type Request = u32;

    type Reply = Reply<Vec<u8>>;

    type Failure = AllocError;

    ghost State = { ℕ };

    ghost state = { λ zeros. zeros.count };

    ghost replies = { λ old request reply new. (zeros : _) × (reply ≡ Answer zeros)
        × (length zeros.items ≡ request) };

    ghost fails = { λ old request why new. new ≡ old };

    ghost refusal_reply = { Refused };

    fn answer(&mut self, request: u32) -> Result<Reply<Vec<u8>>, AllocError> {
        let zeros = vec![in self.alloc; 0u8; request as usize]?;
        self.count = self.count.saturating_add(u64::from(request));
        Ok(Reply::Answer(zeros))
    }

    fn refuse(refusal: Refusal) -> Reply<Vec<u8>> {
        Reply::Refused(refusal)
    }
}
