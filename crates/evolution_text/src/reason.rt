//! Why one shape does not read all encodings of another.
ghost use Rattle.std.specs.Prelude.{◌≡◌, IfOk, IfSome};
ghost use Rattle.bincode_shape.specs.Shapes.{format_of};
ghost use Rattle.shape_difference.specs.Differing.{Shows};
ghost use Rattle.evolution_text.specs.Settings.{as_setting};

use crate::setting::Setting;
use bincode::config::{self, Config, Endianness, IntEncoding};
use bincode::shape::Shape;
use shape_difference::difference::{Difference, explain, place_of};
use std::alloc::{AllocError, Global};

/// Why a new shape does not read all words of an old one.
#[derive(Debug, Drop)]
pub struct Reason {
    /// Where the two differ: in which part, in which part of that, and so on. The element of a list and the part of an
    /// option are part 0.
    pub place: Vec<usize>,
    /// A word of the old shape that is no word of the new one with the same meaning. `None` if none was found.
    pub word: Option<Vec<u8>>,
}

/// Why, in a setting in which the rules tell that not all words are read. Fails if an allocation is refused.
pub fn reason_in(
    alloc: Global,
    new: &Shape,
    old: &Shape,
    setting: Setting,
) -> Result<Reason, AllocError>
    // Bytes that are told show a difference.
    ensures { IfOk result (λ reason. IfSome reason.word (λ word. Shows (format_of new.now (as_setting setting))
        (format_of old.now (as_setting setting)) word.items)) }
{
    let little = config::standard();
    let fixed = little.with_fixed_int_encoding();
    match setting.encoding {
        IntEncoding::Variable => match setting.order {
            Endianness::Little => reason_by(alloc, new, old, little),
            Endianness::Big => reason_by(alloc, new, old, little.with_big_endian()),
        },
        IntEncoding::Fixed => match setting.order {
            Endianness::Little => reason_by(alloc, new, old, fixed),
            Endianness::Big => reason_by(alloc, new, old, fixed.with_big_endian()),
        },
    }
}

/// Why, in the setting of a configuration.
fn reason_by<C: Config>(
    alloc: Global,
    new: &Shape,
    old: &Shape,
    config: C,
) -> Result<Reason, AllocError>
    ensures { IfOk result (λ reason. IfSome reason.word (λ word. Shows (format_of new.now C.setting)
        (format_of old.now C.setting) word.items)) }
{
    match explain(alloc, new, old, config)? {
        Some(Difference { word, place }) => Ok(Reason {
            place,
            word: Some(word),
        }),
        None => Ok(Reason {
            place: place_of(alloc, new, old, config)?,
            word: None,
        }),
    }
}
