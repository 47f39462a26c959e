//! `Wire` for `Duration`.
ghost use Rattle.std.proofs.Common.{arith};
ghost use Rattle.bincode_spec.specs.Layers.Needs.{duration_needs};
ghost use Rattle.bincode_lemmas.specs.NeedLaws.{duration-needs};
ghost use Rattle.bincode_lemmas.specs.ChargedLaws.{duration-charged};
ghost use Rattle.std.specs.Prelude.{◌<◌, ◌^◌, pos};
ghost use Rattle.bincode_spec.specs.Meaning.{IsNumber, IsThen, IsNothing};
ghost use Rattle.bincode_spec.specs.Words.{second_in_nanos, duration};
ghost use Rattle.bincode_types.specs.Durations.{secs_of, nanos_of};
ghost use Rattle.bincode_lemmas.specs.DurationLaws.{duration-lawful, duration-balanced};
ghost use Rattle.bincode_lemmas.specs.DurationLaws.{duration-has_word};

use crate::laws::{ConstantCharge, Exact, Inhabited, Plain, Writable};
use crate::own::time::Duration;
use crate::wire::Wire;

impl Wire for Duration {
    ghost words = { record {
      format = duration;
      valid = λ v. (secs_of v < 2 ^ 64) × (nanos_of v < second_in_nanos);
      means = λ v. IsThen (IsNumber (pos (secs_of v))) (IsThen (IsNumber (pos (nanos_of v))) IsNothing);
      decodes_to = λ m v. IsThen (IsNumber (pos (secs_of v))) (IsThen (IsNumber (pos (nanos_of v))) IsNothing) m;
      writable = λ s v. Unit {0};
      own_errors = λ e. ⊥;
      may_allocate = ⊥;
      claim = 12;
      need = duration_needs;
      lawful = duration-lawful;
      balanced = duration-balanced;
      has_word = λ s v h w. duration-has_word s (secs_of v) (nanos_of v) h.0 h.1;
      errors_are_own = λ e h. absurd h;
      claims = omega arith;
      needs = duration-needs;
      charges_enough = duration-charged;
    } };

    fn claim_size() -> usize {
        12
    }
}

impl Inhabited for Duration {
    fn tell_inhabited() {}
}

impl Writable for Duration {
    fn tell_writable() {}
}

impl Plain for Duration {
    fn tell_plain() {}
}

impl Exact for Duration {
    fn tell_exact() {}
}

impl ConstantCharge for Duration {
    ghost cost = { 12 };

    ghost peak = { 12 };

    fn tell_costs() {}
}
