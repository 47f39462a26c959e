//! The command line of the program `describe`.

use crate::text::{ShapeTextError, shape_of};
use bincode::config::{Endianness, IntEncoding};
use bincode::shape::Shape;
use clap::Error;
use clap::error::ErrorKind;
use command_line::found::Found;
use command_line::matching::{found_in, mistake};
use command_line::table::{Kind, Program, Taken, Word};
use evolution_text::setting::Setting;
use std::alloc::{AllocError, Global};

/// What the words of the program ask for.
#[derive(Drop)]
pub enum Asked {
    /// What a file holds.
    Describe(Request),
    /// Whether one shape reads all that another one wrote.
    Compare(Comparison),
}

/// Which shapes are compared, and for which settings.
#[derive(Drop)]
pub struct Comparison {
    /// The shapes.
    pub shapes: Compared,
    /// The one setting that is asked for; `None` for all.
    pub setting: Option<Setting>,
}

/// Which shapes are compared.
#[derive(Drop)]
pub enum Compared {
    /// A new one and an old one, each as a text, or as the path of a file with the text, after `@`.
    Two { new: String, old: String },
    /// Those of the lines of the standard input.
    Lines,
}

/// What is described, and how it was written.
#[derive(Drop)]
pub struct Request {
    /// The integer encoding of the input.
    pub encoding: IntEncoding,
    /// The byte order of the input.
    pub endian: Endianness,
    /// How many bytes an encoding may claim.
    pub limit: SizeLimit,
    /// The shape of the values.
    pub shape: Shape,
    /// The path of the file; `None` for the standard input.
    pub file: Option<String>,
    /// How many values of an encoding are printed at most.
    pub most_values: usize,
    /// The greatest length of a word in bytes, if the input is a store of frames.
    pub longest: Option<u32>,
}

/// How many bytes an encoding may claim.
#[derive(Clone, Copy, PartialEq)]
pub enum SizeLimit {
    KiB1,
    KiB64,
    MiB1,
    MiB16,
    MiB64,
    GiB1,
    Unlimited,
}

/// How many values of an encoding are printed at most by default.
const MOST_VALUES: u64 = 1_000_000;

/// The greatest length of a word in frames by default.
const LONGEST: u32 = 1_048_576;

/// How the program is called.
const USAGE: &str = "describe [OPTIONS] SHAPE [FILE]
       describe [OPTIONS] --reads NEW OLD";

/// What stands at the end of the help.
const AFTER_HELP: &str = "Shapes:
  ()                           nothing, in no bytes
  bool, char, text             a truth value, a character, a text
  u8 u16 u32 u64 u128 usize    a number
  i8 i16 i32 i64 i128 isize    a number that may be negative
  [T]                          a list or a set of T; bytes are [u8]
  [(K, V)]                     a map from K to V
  [T; 4]                       an array of four T
  (A, B)                       a tuple or a struct of an A and a B; of one part (A,)
  T?                           an optional T
  A|B                          an enum: its variants in order, one without parts is ()
  |A                           an enum of one variant
  (T)                          T, in brackets around a part

Output:
  A line of JSON for each encoding, with its offset and its length in bytes:
  {\"offset\":0,\"length\":3,\"value\":300}

  A number that fits 64 bits is a number, any other a string. Readers that hold numbers as doubles,
  as JavaScript does, lose digits above 2^53. () is null, and so is an optional part that is absent.
  A part that is present is printed as itself; one that could be null, such as () or another option,
  as {\"some\":PART}. A variant is {\"TAG\":PART}, and a list of elements without bytes {\"count\":N}.
  An encoding of more values than are printed has \"values\":N in place of \"value\".

  With --frames, offset and length are those of the frame. In place of \"value\" there is
  \"undecodable\":WHY where its content begins with no encoding, or \"longer\":BYTES where bytes follow
  one. Damaged frames in a row share a line, with \"damaged\":COUNT and the bytes of all.

Changes of a type:
  describe --reads NEW OLD checks whether each file of values of the shape OLD is read by the shape
  NEW, as the same values. --config, --fixed and --big-endian choose one setting; without them all
  four are checked. Where a file is not read, it shows bytes of OLD that NEW does not read as the
  same, and where the shapes differ: parts and variants are counted from 0. docs/SHAPES.md, section
  4, has the rules. No limit is looked at: under one, NEW may need a larger one.

  @FILE in place of a shape is a file that holds its text. describe --reads - checks the shapes in
  the lines of the standard input, each NEW before its OLD.

Status:
  0  all is whole; with --reads, each file of OLD is read by NEW
  1  the input is damaged or truncated, or holds what is no encoding of the shape; with --reads, not
     each file of OLD is read
  2  wrong arguments
  3  the file, the standard input or the standard output fails, or memory is refused";

/// The program's command line.
static DESCRIBE: Program = Program {
    name: "describe",
    version: "0.1.0",
    about: "Prints what a file in the format of bincode holds, by the shape of its values",
    after_help: AFTER_HELP,
    usage: Some(USAGE),
    words: &[
        Word {
            id: "fixed",
            kind: Kind::Flag,
            help: "Numbers have a fixed length",
            conflicts: &[],
            needs: &[],
        },
        Word {
            id: "big-endian",
            kind: Kind::Flag,
            help: "Numbers begin with their highest byte",
            conflicts: &[],
            needs: &[],
        },
        Word {
            id: "config",
            kind: Kind::Value {
                name: "CONFIG",
                taken: Taken::Choice(&["standard", "legacy"]),
                default: &[],
            },
            help: "standard: variable lengths, lowest byte first; legacy: fixed lengths, lowest byte first",
            conflicts: &["fixed", "big-endian"],
            needs: &[],
        },
        Word {
            id: "limit",
            kind: Kind::Value {
                name: "SIZE",
                taken: Taken::Choice(&["1KiB", "64KiB", "1MiB", "16MiB", "64MiB", "1GiB", "none"]),
                default: &["64MiB"],
            },
            help: "How many bytes an encoding may claim",
            conflicts: &[],
            needs: &[],
        },
        Word {
            id: "values",
            kind: Kind::Value {
                name: "N",
                taken: Taken::U64,
                default: &["1000000"],
            },
            help: "How many values of one encoding are printed at most",
            conflicts: &[],
            needs: &[],
        },
        Word {
            id: "frames",
            kind: Kind::Flag,
            help: "The input is a store of frames, each with the encoding of one value",
            conflicts: &[],
            needs: &[],
        },
        Word {
            id: "longest",
            kind: Kind::Value {
                name: "N",
                taken: Taken::U32,
                default: &[],
            },
            help: "The greatest length of a frame's content, in bytes [default: 1048576]",
            conflicts: &[],
            needs: &["frames"],
        },
        Word {
            id: "reads",
            kind: Kind::Flag,
            help: "Checks whether the shape NEW reads all that the shape OLD wrote",
            conflicts: &["frames", "limit", "values"],
            needs: &[],
        },
        Word {
            id: "shape",
            kind: Kind::One("SHAPE"),
            help: "The shape of the values, such as (u8, [u16], text?, u32|text); with --reads the new one",
            conflicts: &[],
            needs: &[],
        },
        Word {
            id: "file",
            kind: Kind::Optional("FILE"),
            help: "The file; the standard input, where it is - or missing; with --reads the old shape",
            conflicts: &[],
            needs: &[],
        },
    ],
    commands: &[],
};

/// The program's command line. Each function that names the static itself has all of it in its states.
fn table() -> &'static Program {
    &DESCRIBE
}

/// What these words ask for, of which the first is the program's name. Where they ask for nothing, or for help or for
/// the version, the error has the text for it.
pub fn asked_of(alloc: Global, words: &[String]) -> Result<Asked, Error> {
    let found = found_in(alloc, table(), words)?;
    let shape = found.text("shape").unwrap_or("");
    if found.is_set("reads") {
        return Ok(Asked::Compare(comparison_in(alloc, &found, shape)?));
    }
    let shape = shape_in(alloc, shape)?;
    Ok(Asked::Describe(request_in(alloc, &found, shape)?))
}

/// Which shapes are compared, of which the first is given, or `-`.
fn comparison_in(alloc: Global, found: &Found<'_>, first: &str) -> Result<Comparison, Error> {
    let shapes = match found.text("file") {
        Some(old) => Compared::Two {
            new: String::from_str(alloc, first)?,
            old: String::from_str(alloc, old)?,
        },
        None if first == "-" => Compared::Lines,
        None => {
            let kind = ErrorKind::MissingRequiredArgument;
            return Err(mistake(
                alloc,
                table(),
                kind,
                "--reads wants two shapes, NEW and OLD",
            )?);
        }
    };
    Ok(Comparison {
        shapes,
        setting: setting_in(found),
    })
}

/// The setting for which options ask, if there are any.
fn setting_in(found: &Found<'_>) -> Option<Setting> {
    let is_chosen = found.is_set("fixed")
        || found.is_set("big-endian")
        || found.text("config").is_some();
    is_chosen.then_some(Setting {
        encoding: encoding_in(found),
        order: endian_in(found),
    })
}

/// The shape that a text spells, or the error with the usage.
fn shape_in(alloc: Global, text: &str) -> Result<Shape, Error> {
    match shape_of(alloc, text) {
        Ok(shape) => Ok(shape),
        Err(ShapeTextError::Memory) => Err(AllocError.into()),
        Err(why) => {
            let message = format!(in alloc; "{text:?} is no shape: {why}")?;
            let kind = ErrorKind::ValueValidation;
            Err(mistake(alloc, table(), kind, message.as_str())?)
        }
    }
}

/// The request in what was found.
fn request_in(alloc: Global, found: &Found<'_>, shape: Shape) -> Result<Request, AllocError> {
    let most_values = found.number("values").unwrap_or(MOST_VALUES);
    Ok(Request {
        encoding: encoding_in(found),
        endian: endian_in(found),
        limit: limit_named(found.text("limit").unwrap_or("")),
        shape,
        file: file_in(alloc, found)?,
        most_values: usize::try_from(most_values).unwrap_or(usize::MAX),
        longest: longest_in(found),
    })
}

/// The path of the file; `None` for the standard input.
fn file_in(alloc: Global, found: &Found<'_>) -> Result<Option<String>, AllocError> {
    match found.text("file") {
        None | Some("-") => Ok(None),
        Some(path) => Ok(Some(String::from_str(alloc, path)?)),
    }
}

/// The integer encoding of the input.
fn encoding_in(found: &Found<'_>) -> IntEncoding {
    if found.is_set("fixed") || found.text("config") == Some("legacy") {
        IntEncoding::Fixed
    } else {
        IntEncoding::Variable
    }
}

/// The byte order of the input.
fn endian_in(found: &Found<'_>) -> Endianness {
    if found.is_set("big-endian") {
        Endianness::Big
    } else {
        Endianness::Little
    }
}

/// The greatest length of a word in bytes, if the input is a store of frames.
fn longest_in(found: &Found<'_>) -> Option<u32> {
    let longest = found.number("longest").unwrap_or(LONGEST as u64);
    let longest = u32::try_from(longest).unwrap_or(LONGEST);
    found.is_set("frames").then_some(longest)
}

/// The limit of this name.
fn limit_named(name: &str) -> SizeLimit {
    match name {
        "1KiB" => SizeLimit::KiB1,
        "64KiB" => SizeLimit::KiB64,
        "1MiB" => SizeLimit::MiB1,
        "16MiB" => SizeLimit::MiB16,
        "1GiB" => SizeLimit::GiB1,
        "none" => SizeLimit::Unlimited,
        _ => SizeLimit::MiB64,
    }
}
