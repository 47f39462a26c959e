//! Snapshots: a state in bytes, with the number of commands up to it and a digest.
ghost use Rattle.std.specs.Prelude.{◌≡◌, ◌<◌, ◌^◌, ◌++◌, ℕ, ◌↔◌, length, true, IsTrue, IfErr, IfOk, MatchResult};
ghost use Rattle.std.specs.Int.{w64, to_le_bytes};
ghost use Rattle.sha2.specs.Sha256.{sha256};
ghost use Rattle.bincode_base.specs.declared.error.DecodeError.TheVariants.{Memory};
ghost use Rattle.bincode_spec.specs.Slice.{IsDecoded};
ghost use Rattle.framed_store.specs.Appended.{IsEntry};
ghost use Rattle.snapshots.specs.Snapshots.{
  snapshot,
  FitsLimits,
  HoldsState,
  IsHeaderFault,
  IsLoadFault,
  IsLoaded,
  IsNoMemory,
  IsSaveMemory,
  IsSnapshot,
  IsStateFault,
};

use bincode::config::Config;
use bincode::de::Decode;
use bincode::enc::Encode;
use bincode::error::{DecodeError, EncodeError};
use bincode::laws::Exact;
use bincode::{decode_from_slice, encode_to_vec};
use sha2::{Digest, Sha256};
use std::alloc::{AllocError, Global};
use thiserror::Error;

/// The number of bytes of a digest.
const DIGEST: usize = 32;

/// The number of bytes of a count.
const COUNT: usize = 8;

/// The number of bytes of a snapshot before the encoding of the state: a digest and the number of commands.
pub const HEADER: usize = DIGEST + COUNT;

/// Why a state is not saved.
#[derive(Debug, Drop, Error)]
pub enum SaveError {
    /// Encoding failed.
    #[error("{0}")]
    Encode(EncodeError),
    /// Decoding the encoding again failed: it passes the limit, or the error is `Memory`.
    #[error("it cannot be read back: {0}")]
    ReadBack(DecodeError),
    /// An allocation for the snapshot was refused.
    #[error("{0}")]
    Memory(AllocError),
}

/// Why bytes are not taken for a snapshot.
#[derive(Debug, Drop, Error)]
pub enum LoadError {
    /// There are fewer bytes than a snapshot has before the encoding of its state.
    #[error("it is too short for a snapshot")]
    Short,
    /// The digest does not fit.
    #[error("it is damaged: its digest does not fit")]
    Damaged,
    /// The digest fits, and what follows does not begin with an encoding of a state within the limit. The error tells
    /// why: of a version that is not known, it is `UnexpectedVariant` with the name of the enum of versions.
    #[error("it cannot be decoded: {0}")]
    Undecodable(DecodeError),
    /// The digest fits, and bytes follow the encoding of the state.
    #[error("bytes follow the {taken} of its encoding")]
    Longer {
        /// The number of bytes of the encoding.
        taken: usize,
    },
    /// An allocation was refused.
    #[error("{0}")]
    Memory(AllocError),
}

/// The bytes of a snapshot of a state, to which this number of commands led. The encoding is decoded once before it is
/// used. Fails with `Encode`, `ReadBack` or `Memory`.
pub fn save<T: Encode + Decode<()> + Exact, C: Config>(
    alloc: Global,
    commands: u64,
    state: &T,
    config: C,
) -> Result<Vec<u8>, SaveError>
    ensures saved { IfOk result (λ v. IsSnapshot T.words C.setting C.bound commands state.now v.items) }
    // Of a state that fits the limit the error is one of memory.
    ensures fits { FitsLimits T.words C.setting C.bound state.now → IfErr result IsSaveMemory }
{
    let word = readable_word(alloc, state, config)?;
    match sealed(alloc, commands, &word) {
        Ok(bytes) => Ok(bytes),
        Err(e) => Err(SaveError::Memory(e)),
    }
}

/// Encodes a state and decodes it again under the limit.
fn readable_word<T: Encode + Decode<()> + Exact, C: Config>(
    alloc: Global,
    state: &T,
    config: C,
) -> Result<Vec<u8>, SaveError>
    ensures entry { IfOk result (λ word. IsEntry T.words C.setting C.bound state.now word.items) }
    ensures fits { FitsLimits T.words C.setting C.bound state.now → IfErr result IsSaveMemory }
{
    T::tell_plain();
    state.tell_valid();
    let word = match encode_to_vec(alloc, state, config) {
        Ok(word) => word,
        Err(e) => return Err(SaveError::Encode(e)),
    };
    let read: Result<(T, usize), DecodeError> = decode_from_slice(alloc, &word, config);
    match read {
        Ok(_) => Ok(word),
        Err(e) => Err(SaveError::ReadBack(e)),
    }
}

/// The snapshot that a word is in.
fn sealed(alloc: Global, commands: u64, word: &[u8]) -> Result<Vec<u8>, AllocError>
    ensures { IfOk result (λ v. v.items ≡ snapshot commands word.now) }
{
    let count = commands.to_le_bytes();
    let digest = digest_of(&count, word);
    let mut bytes = Vec::with_capacity(alloc, word.len().saturating_add(HEADER))?;
    bytes.extend_from_slice(&digest)?;
    bytes.extend_from_slice(&count)?;
    bytes.extend_from_slice(word)?;
    Ok(bytes)
}

/// The digest of a count and a word after it.
fn digest_of(count: &[u8], word: &[u8]) -> [u8; DIGEST]
    ensures { result ≡ sha256 (count.now ++ word.now) }
{
    let mut hasher = Sha256::new();
    hasher.update(count);
    hasher.update(word);
    hasher.finalize()
}

/// The state of a snapshot, and the number of commands that it stands for. Fails with `Short`, `Damaged`, `Undecodable`
/// or `Longer` where the bytes are no snapshot of such a state, or with `Memory`.
pub fn load<T: Decode<()> + Exact, C: Config>(
    alloc: Global,
    bytes: &[u8],
    config: C,
) -> Result<(u64, T), LoadError>
    // The bytes are a snapshot of that state, and no byte is left.
    ensures loaded { IfOk result (λ x. IsLoaded (T.words.format C.setting) C.bound T.words.decodes_to bytes.now x.0
        x.1) }
    // Else it is told why they are not.
    ensures fault { IfErr result (IsLoadFault (T.words.format C.setting) C.bound bytes.now) }
    // What `save` returned is loaded again, the same number and an equal state, or the error is `Memory`.
    ensures back { (commands : ℕ) (state : T) → commands < 2 ^ 64
        → IsSnapshot T.words C.setting C.bound commands state bytes.now
        → MatchResult result (λ x. (x.0 ≡ commands) × (T.eq state x.1 ≡ true)) IsNoMemory }
{
    T::tell_exact();
    let (commands, word) = opened(bytes)?;
    let state = state_of(alloc, word, config)?;
    Ok((commands, state))
}

/// The number of commands and the word of a snapshot whose digest fits.
fn opened(bytes: &[u8]) -> Result<(u64, &[u8]), LoadError>
    ensures opened { IfOk result (λ x. HoldsState bytes.now x.0 x.1.now) }
    ensures fault { IfErr result (IsHeaderFault bytes.now) }
{
    if bytes.len() < HEADER {
        return Err(LoadError::Short);
    }
    let (digest, rest) = bytes.split_at(DIGEST);
    if !is_digest_of(digest, rest) {
        return Err(LoadError::Damaged);
    }
    let (count, word) = rest.split_at(COUNT);
    Ok((number_of(count), word))
}

/// Whether bytes are the digest of a message.
fn is_digest_of(digest: &[u8], message: &[u8]) -> bool
    ensures { IsTrue result ↔ (digest.now ≡ sha256 message.now) }
{
    digest == Sha256::digest(message).as_slice()
}

/// Eight bytes as a number, the lowest first.
fn number_of(count: &[u8]) -> u64
    requires { length count.now ≡ 8 }
    ensures { to_le_bytes w64 result ≡ count.now }
{
    u64::from_le_bytes([
        count[0], count[1], count[2], count[3], count[4], count[5], count[6], count[7],
    ])
}

/// The state that a word holds, all of it.
fn state_of<T: Decode<()>, C: Config>(alloc: Global, word: &[u8], config: C) -> Result<T, LoadError>
    ensures state { IfOk result (λ state. IsDecoded (T.words.format C.setting) C.bound word.now
        (λ m. T.words.decodes_to m state) (length word.now)) }
    ensures fault { IfErr result (IsStateFault (T.words.format C.setting) C.bound word.now) }
{
    match decode_from_slice(alloc, word, config) {
        Ok((state, taken)) => {
            if taken < word.len() {
                return Err(LoadError::Longer { taken });
            }
            Ok(state)
        }
        Err(why) => {
            if is_memory(&why) {
                return Err(LoadError::Memory(AllocError));
            }
            Err(LoadError::Undecodable(why))
        }
    }
}

/// Whether an allocation was refused.
fn is_memory(error: &DecodeError) -> bool
    ensures { IsTrue result ↔ (error.now ≡ Memory) }
{
    matches!(error, DecodeError::Memory)
}
