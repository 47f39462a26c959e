//! Services: what replies to requests.
ghost use Rattle.std.specs.Prelude.{◌≡◌, IfErr, IfOk};
ghost use Rattle.calls.specs.declared.refusal.Refusal.{Refusal};

use crate::refusal::Refusal;
use bincode::de::Decode;
use bincode::enc::Encode;
use bincode::laws::Exact;

/// What answers requests, and has a state that they change.
pub trait Service {
    /// What is asked for.
    type Request: Decode<()>;

    /// What is replied: an answer or a refusal, as `Result<Answer, Refusal>`.
    type Reply: Encode + Decode<()> + Exact;

    /// Why the service cannot go on: memory that was refused, or a file that failed.
    type Failure;

    /// What is seen of a state.
    ghost State: { Type 0 };

    /// The state that a service is in.
    ghost state: { Self → State };

    /// In a state a request gets a reply, and leads to another state.
    ghost replies: { State → Self.Request → Self.Reply → State → Type 0 };

    /// In a state the service fails at a request, for this reason, and is then in another state, or the same.
    ghost fails: { State → Self.Request → Self.Failure → State → Type 0 };

    /// The reply to a frame that holds no request, or one whose answer is too long.
    ghost refusal_reply: { Refusal → Self.Reply };

    /// Answers a request. That the service does not do what is asked for is a reply too. Fails where the service cannot
    /// go on; then the request may have changed something.
    fn answer(&mut self, request: Self::Request) -> Result<Self::Reply, Self::Failure>
        ensures replied { IfOk result (λ reply. replies (state self.old) request reply (state self.new)) }
        ensures failed { IfErr result (λ why. fails (state self.old) request why (state self.new)) };

    /// The reply to a frame that holds no request, or one whose answer is too long. `Err(refusal)` for a reply that is
    /// a `Result`.
    fn refuse(refusal: Refusal) -> Self::Reply
        ensures { result ≡ refusal_reply refusal };
}
