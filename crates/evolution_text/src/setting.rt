//! How numbers are written, and whether one shape reads all encodings of another then.
ghost use Rattle.std.specs.Prelude.{◌≡◌, IsTrue};
ghost use Rattle.bincode_shape.specs.Shapes.{format_of};
ghost use Rattle.bincode_evolution.specs.Reading.{ReadsAll};
ghost use Rattle.bincode_evolution.specs.Rules.{is_read};
ghost use Rattle.evolution_text.specs.Settings.{as_setting};

use bincode::config::{self, Endianness, IntEncoding};
use bincode::shape::Shape;
use bincode_evolution::evolution::reads_all;
use std::fmt;

/// How numbers are written: an integer encoding and a byte order.
#[derive(Clone, Copy, Debug, PartialEq)]
pub struct Setting {
    /// Whether numbers have variable or fixed lengths.
    pub encoding: IntEncoding,
    /// Which byte of a number is first.
    pub order: Endianness,
}

/// All settings.
pub const SETTINGS: [Setting; 4] = [
    Setting {
        encoding: IntEncoding::Variable,
        order: Endianness::Little,
    },
    Setting {
        encoding: IntEncoding::Variable,
        order: Endianness::Big,
    },
    Setting {
        encoding: IntEncoding::Fixed,
        order: Endianness::Little,
    },
    Setting {
        encoding: IntEncoding::Fixed,
        order: Endianness::Big,
    },
];

/// Two columns, of the same width for each setting.
impl fmt::Display for Setting {
    fn fmt<W: fmt::Write>(&self, f: &mut fmt::Formatter<W>) -> fmt::Result {
        f.write_str(match self.encoding {
            IntEncoding::Variable => "variable  ",
            IntEncoding::Fixed => "fixed     ",
        })?;
        f.write_str(match self.order {
            Endianness::Little => "little endian",
            Endianness::Big => "big endian   ",
        })
    }
}

/// Whether the new shape reads all words of the old one in a setting, by the rules of `reads_all`.
pub fn is_read_in(new: &Shape, old: &Shape, setting: Setting) -> bool
    ensures by_rules { result ≡ is_read setting.encoding old.now new.now }
    ensures reads { IsTrue result
        → ReadsAll (format_of new.now (as_setting setting)) (format_of old.now (as_setting setting)) }
{
    let little = config::standard();
    let fixed = little.with_fixed_int_encoding();
    match setting.encoding {
        IntEncoding::Variable => match setting.order {
            Endianness::Little => reads_all(new, old, little),
            Endianness::Big => reads_all(new, old, little.with_big_endian()),
        },
        IntEncoding::Fixed => match setting.order {
            Endianness::Little => reads_all(new, old, fixed),
            Endianness::Big => reads_all(new, old, fixed.with_big_endian()),
        },
    }
}
