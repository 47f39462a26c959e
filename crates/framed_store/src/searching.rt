//! Finding a frame in bytes of which it is not known where one begins.
ghost use Rattle.std.specs.Prelude.{◌<◌, ◌↔◌, ℕ, IfNone, IfSome, IsTrue};
ghost use Rattle.framed_store.specs.Searches.{BeginsWithWhole, StandsAt};

use frames::{Frame, read_frame};

/// The first offset at which a whole frame stands, of a word of at most `most` bytes: one whose check fits. For what
/// follows a length that was damaged. Where four bytes name no length that is allowed, or fewer bytes follow them, that
/// is all that is read of an offset; elsewhere the check of as many bytes is computed.
pub fn find_frame(bytes: &[u8], most: u32) -> Option<usize>
    // On `Some(n)` a whole frame stands at `n`,
    ensures found { IfSome result (StandsAt most bytes.now) }
    // and at no offset before it.
    ensures first { IfSome result (λ n. (k : ℕ) → k < n → ¬ StandsAt most bytes.now k) }
    // On `None` there is no offset at which one stands.
    ensures none { IfNone result ((k : ℕ) → ¬ StandsAt most bytes.now k) }
{
    for offset in 0..bytes.len() {
        if begins_with_whole(&bytes[offset..], most) {
            return Some(offset);
        }
    }
    None
}

/// Whether bytes begin with a frame whose check fits.
fn begins_with_whole(bytes: &[u8], most: u32) -> bool
    ensures { IsTrue result ↔ BeginsWithWhole most bytes.now }
{
    match read_frame(bytes, most) {
        Frame::Whole(_, _) => true,
        Frame::End => false,
        Frame::Torn => false,
        Frame::TooLong(_) => false,
        Frame::Damaged(_) => false,
    }
}
