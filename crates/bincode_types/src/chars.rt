//! Characters as UTF-8 (RFC 3629).
ghost use Rattle.std.specs.Prelude.{◌≡◌, ◌<◌, ◌≤◌, ◌∷◌, [], Some, None, IfOk, IfErr};
ghost use Rattle.std.specs.Char.{encode_utf8};
ghost use Rattle.bincode_spec.specs.Layers.Reads.{ReadsWord};
ghost use Rattle.bincode_spec.specs.Meaning.{Character};
ghost use Rattle.bincode_spec.specs.Words.{char_width, rest_of_char};
ghost use Rattle.bincode_spec.specs.Layers.Chars.{Spells};

use bincode_base::error::DecodeError;
use bincode_io::bytes::read_array;
use bincode_io::read::Reader;

// All are inlined, as the decoding of integers is: a call would return its result through memory, for the error in it.

/// The number of bytes of a character, from its first byte; `None` if it begins none.
#[inline(always)]
pub fn width_of_char(first: u8) -> Option<usize>
    ensures { result ≡ char_width first }
{
    if first < 128 {
        Some(1)
    } else if first < 194 {
        None
    } else if first < 224 {
        Some(2)
    } else if first < 240 {
        Some(3)
    } else if first < 245 {
        Some(4)
    } else {
        None
    }
}

/// The two bytes of this code point.
#[inline(always)]
pub fn two_bytes_of_char(code: u32) -> [u8; 2]
    requires least { 128 ≤ code }
    requires most { code < 2048 }
    ensures { result ≡ encode_utf8 code }
{
    [192 + (code / 64) as u8, 128 + (code % 64) as u8]
}

/// The three bytes of this code point.
#[inline(always)]
pub fn three_bytes_of_char(code: u32) -> [u8; 3]
    requires least { 2048 ≤ code }
    requires most { code < 65536 }
    ensures { result ≡ encode_utf8 code }
{
    [
        224 + (code / 4096) as u8,
        128 + (code / 64 % 64) as u8,
        128 + (code % 64) as u8,
    ]
}

/// The four bytes of this code point.
#[inline(always)]
pub fn four_bytes_of_char(code: u32) -> [u8; 4]
    requires least { 65536 ≤ code }
    requires most { code < 1114112 }
    ensures { result ≡ encode_utf8 code }
{
    [
        240 + (code / 262144) as u8,
        128 + (code / 4096 % 64) as u8,
        128 + (code / 64 % 64) as u8,
        128 + (code % 64) as u8,
    ]
}

// The bytes give a code point. They encode it if it is a character's and encodes to these bytes again.

#[inline(always)]
fn char_of_two(first: u8, second: u8) -> Option<char>
    requires { char_width first ≡ Some 2 }
    ensures { Spells (first ∷ second ∷ []) result }
{
    let code = u32::from(first % 32) * 64 + u32::from(second % 64);
    if code < 128 || two_bytes_of_char(code) != [first, second] {
        return None;
    }
    char::from_u32(code)
}

#[inline(always)]
fn char_of_three(first: u8, second: u8, third: u8) -> Option<char>
    requires { char_width first ≡ Some 3 }
    ensures { Spells (first ∷ second ∷ third ∷ []) result }
{
    let code = (u32::from(first % 16) * 64 + u32::from(second % 64)) * 64 + u32::from(third % 64);
    if code < 2048 || three_bytes_of_char(code) != [first, second, third] {
        return None;
    }
    char::from_u32(code)
}

#[inline(always)]
fn char_of_four(first: u8, second: u8, third: u8, fourth: u8) -> Option<char>
    requires { char_width first ≡ Some 4 }
    ensures { Spells (first ∷ second ∷ third ∷ fourth ∷ []) result }
{
    let code = ((u32::from(first % 8) * 64 + u32::from(second % 64)) * 64 + u32::from(third % 64))
        * 64
        + u32::from(fourth % 64);
    if code < 65536
        || code >= 1114112
        || four_bytes_of_char(code) != [first, second, third, fourth]
    {
        return None;
    }
    char::from_u32(code)
}

/// The character, or `InvalidCharEncoding` with these bytes if there is none.
#[inline(always)]
fn char_or_fault(found: Option<char>, bytes: [u8; 4]) -> Result<char, DecodeError>
    ensures ok { IfOk result (λ c. found ≡ Some c) }
    ensures err { IfErr result (λ e. (found ≡ None) × (e ≡ DecodeError.InvalidCharEncoding bytes)) }
{
    match found {
        Some(c) => Ok(c),
        None => Err(DecodeError::InvalidCharEncoding(bytes)),
    }
}

/// Reads the bytes after the first one of a character of `width` bytes.
#[inline(always)]
pub fn read_rest_of_char<R: Reader>(
    read: &mut R,
    first: u8,
    width: usize,
) -> Result<char, DecodeError>
    requires { char_width first ≡ Some width }
    ensures { ReadsWord R.is_known R.remaining R.failures R.loans R.end_error R.device (rest_of_char first width)
        Character result read.old read.new }
{
    match width {
        2 => {
            let [second] = read_array::<R, 1>(read)?;
            char_or_fault(char_of_two(first, second), [first, second, 0, 0])
        }
        3 => {
            let [second, third] = read_array::<R, 2>(read)?;
            char_or_fault(
                char_of_three(first, second, third),
                [first, second, third, 0],
            )
        }
        4 => {
            let [second, third, fourth] = read_array::<R, 3>(read)?;
            char_or_fault(
                char_of_four(first, second, third, fourth),
                [first, second, third, fourth],
            )
        }
        _ => Ok(char::from(first)),
    }
}
