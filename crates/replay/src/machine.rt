//! Machines: states that commands change.
ghost use Rattle.std.specs.Prelude.{◌≡◌, IfErr, OnErr, OnOk};

use bincode::de::Decode;
use bincode::laws::Exact;

/// A state that commands change. `Till` in `tills` is one.
pub trait Machine {
    /// What changes the state.
    type Command: Decode<()> + Exact;

    /// Why a command is refused.
    type Refusal;

    /// What is seen of a state.
    ghost State: { Type 0 };

    /// The state that a machine is in.
    ghost state: { Self → State };

    /// A command leads from one state to another.
    ghost applies: { State → Self.Command → State → Type 0 };

    /// A command is refused in a state, for this reason.
    ghost refuses: { State → Self.Command → Self.Refusal → Type 0 };

    /// Carries a command out. Fails if it is refused, and then leaves the state as it was.
    fn apply(&mut self, command: Self::Command) -> Result<(), Self::Refusal>
        ensures applied { OnOk result (applies (state self.old) command (state self.new)) }
        ensures refused { IfErr result (refuses (state self.old) command) }
        ensures unchanged { OnErr result (state self.new ≡ state self.old) };
}
