//! A device in memory, for tests, which crashes where a test wants it.
ghost use Rattle.std.specs.Prelude.{◌≡◌, ◌≤◌, ◌<◌, [], ◌∷◌, ◌++◌, length, take, IfOk, OnErr, OnOk, Some, None};
ghost use Rattle.std.specs.Prelude.{vec_capacity, vec_len};
ghost use Rattle.crash_device.specs.declared.device.DeviceError.TheVariants.{Memory as OutOfMemory, Failed};
ghost use Rattle.std.proofs.Common.{inl};
ghost use Rattle.crash_device.specs.Files.{IsAppended, IsCut, IsReplaced};
ghost use Rattle.crash_device.specs.Moments.{Elapses};
ghost use Rattle.crash_device.specs.Past.{files_of, LeftSince, only-files};
ghost use Rattle.crash_device.specs.Crashing.{bytes_left, next_crash};

use crate::device::{Device, DeviceError};
use std::alloc::{AllocError, Global};

/// A call of a device.
#[derive(Clone, Copy, Debug, Drop, PartialEq)]
pub enum Call {
    /// `read_snapshot`.
    ReadSnapshot,
    /// `read_log`.
    ReadLog,
    /// `append`.
    Append,
    /// `cut`.
    Cut,
    /// `sync`.
    Sync,
    /// `replace`.
    Replace,
}

/// The call in which a device in memory crashes. That call fails, and so does each one after it.
#[derive(Clone, Copy, Debug, Drop, PartialEq)]
pub struct Crash {
    /// The number of calls before it.
    pub calls: usize,
    /// The number of bytes that stand of those that it was to append, or to take away. With one at least a snapshot is
    /// replaced.
    pub bytes: usize,
}

/// What stands on a device in memory.
#[derive(Drop)]
struct Contents {
    snapshot: Vec<u8>,
    log: Vec<u8>,
}

/// A device in memory. Each call is done at once, so a crash leaves what is seen. It keeps all that it had.
#[derive(Drop)]
pub struct Memory {
    alloc: Global,
    contents: Contents,
    past: Vec<Contents>,
    failures: Vec<Call>,
    crash: Option<Crash>,
}

impl Memory {
    ghost use Rattle.crash_device.specs.Memory.{memory_files, memory_crash, memory_failures};

    /// A device with these files, which does not crash.
    pub fn new(alloc: Global, snapshot: Vec<u8>, log: Vec<u8>) -> Self
        ensures files { memory_files result ≡ record { snapshot = snapshot.items; log = log.items } }
        ensures crash { memory_crash result ≡ None }
        ensures failures { memory_failures result ≡ [] }
    {
        Memory {
            alloc,
            contents: Contents { snapshot, log },
            past: Vec::new(alloc),
            failures: Vec::new(alloc),
            crash: None,
        }
    }

    /// Tells the device in which call it is to crash, counted from now on; with `None` it works again.
    pub fn set_crash(&mut self, crash: Option<Crash>)
        ensures crash { memory_crash self.new ≡ crash }
        ensures files { memory_files self.new ≡ memory_files self.old }
        ensures failures { memory_failures self.new ≡ memory_failures self.old }
    {
        self.crash = crash;
    }

    /// The bytes of the snapshot.
    pub fn snapshot(&self) -> &[u8]
        ensures { result.now ≡ (memory_files self.now).snapshot }
    {
        &self.contents.snapshot
    }

    /// The bytes of the log.
    pub fn log(&self) -> &[u8]
        ensures { result.now ≡ (memory_files self.now).log }
    {
        &self.contents.log
    }

    /// The calls that failed, in order.
    pub fn failures(&self) -> &[Call]
        ensures { result.now ≡ memory_failures self.now }
    {
        &self.failures
    }
}

/// Counts a call. Returns the number of bytes that stand of it if the device crashes in it.
fn count_call(crash: &mut Option<Crash>) -> Option<usize>
    ensures bytes { result ≡ bytes_left crash.old }
    ensures next { crash.new ≡ next_crash crash.old }
{
    let due = (*crash)?;
    if due.calls == 0 {
        *crash = Some(Crash { calls: 0, bytes: 0 });
        return Some(due.bytes);
    }
    *crash = Some(Crash {
        calls: due.calls - 1,
        bytes: due.bytes,
    });
    None
}

/// Notes that a call failed, and returns the error of the device, or `Memory` where there is no room for the note.
fn fail(failures: &mut Vec<Call>, call: Call) -> DeviceError
    ensures counted { result ≡ Failed → failures.new.items ≡ failures.old.items ++ call ∷ [] }
    ensures later { length failures.old.items ≤ length failures.new.items }
    ensures room { vec_len failures.old < vec_capacity failures.old → result ≡ Failed }
{
    match failures.push(call) {
        Ok(()) => DeviceError::Failed,
        Err(_) => DeviceError::Memory,
    }
}

/// The first bytes, of this number or fewer.
fn front(bytes: &[u8], n: usize) -> &[u8]
    ensures { result.now ≡ take n bytes.now }
{
    bytes.get(..n).unwrap_or(bytes)
}

/// Keeps what stands, before it is changed.
fn keep(alloc: Global, contents: &Contents, past: &mut Vec<Contents>) -> Result<(), AllocError>
    ensures kept { OnOk result ((v : _) × (files_of v ≡ files_of contents.now)
        × (past.new.items ≡ past.old.items ++ v ∷ [])) }
    ensures err { OnErr result (past.new.items ≡ past.old.items) }
{
    let snapshot = contents.snapshot.to_vec(alloc)?;
    let log = contents.log.to_vec(alloc)?;
    past.push(Contents { snapshot, log })?;
    Ok(())
}

/// The bytes of a log and those behind it.
fn joined(alloc: Global, log: &[u8], bytes: &[u8]) -> Result<Vec<u8>, AllocError>
    ensures { IfOk result (λ v. v.items ≡ log.now ++ bytes.now) }
{
    let mut longer = log.to_vec(alloc)?;
    longer.extend_from_slice(bytes)?;
    Ok(longer)
}

/// Keeps what stands, and puts another log in the place of the log. After an error nothing is changed.
fn put_log(
    alloc: Global,
    contents: &mut Contents,
    past: &mut Vec<Contents>,
    log: Vec<u8>,
) -> Result<(), AllocError>
    ensures ok { OnOk result (files_of contents.new ≡ record (files_of contents.old) { log = log.items }) }
    ensures past { OnOk result ((v : _) × (files_of v ≡ files_of contents.old)
        × (past.new.items ≡ past.old.items ++ v ∷ [])) }
    ensures err { OnErr result (files_of contents.new ≡ files_of contents.old) }
    ensures past_err { OnErr result (past.new.items ≡ past.old.items) }
{
    keep(alloc, contents, past)?;
    contents.log = log;
    Ok(())
}

/// Keeps what stands, and puts another snapshot in the place of the snapshot. After an error nothing is changed.
fn put_snapshot(
    alloc: Global,
    contents: &mut Contents,
    past: &mut Vec<Contents>,
    snapshot: Vec<u8>,
) -> Result<(), AllocError>
    ensures ok { OnOk result (files_of contents.new ≡ record (files_of contents.old) { snapshot = snapshot.items }) }
    ensures past { OnOk result ((v : _) × (files_of v ≡ files_of contents.old)
        × (past.new.items ≡ past.old.items ++ v ∷ [])) }
    ensures err { OnErr result (files_of contents.new ≡ files_of contents.old) }
    ensures past_err { OnErr result (past.new.items ≡ past.old.items) }
{
    keep(alloc, contents, past)?;
    contents.snapshot = snapshot;
    Ok(())
}

impl Device for Memory {
    ghost seen = { λ m. files_of m.contents };

    ghost may_leave = { λ m c. c ≡ files_of m.contents };

    ghost moment = { λ m. length m.past.items };

    ghost left_since = { λ m t c. LeftSince m.past.items (files_of m.contents) t c };

    ghost faults = { λ m. length m.failures.items };

    ghost syncs_without_memory = { λ m. vec_len m.failures < vec_capacity m.failures };

    ghost counts_now = { λ m t c le now. inl now };

    ghost only_now = { λ m c left. only-files m.past.items (files_of m.contents) c left };

    fn read_snapshot(&mut self, alloc: Global) -> Result<Vec<u8>, DeviceError> {
        match count_call(&mut self.crash) {
            None => Ok(self.contents.snapshot.to_vec(alloc)?),
            Some(_) => Err(fail(&mut self.failures, Call::ReadSnapshot)),
        }
    }

    fn read_log(&mut self, alloc: Global) -> Result<Vec<u8>, DeviceError> {
        match count_call(&mut self.crash) {
            None => Ok(self.contents.log.to_vec(alloc)?),
            Some(_) => Err(fail(&mut self.failures, Call::ReadLog)),
        }
    }

    fn append(&mut self, bytes: &[u8]) -> Result<(), DeviceError> {
        self.failures.reserve(1)?;
        let stands = count_call(&mut self.crash);
        let taken = stands.map_or(bytes, |n| front(bytes, n));
        let log = joined(self.alloc, &self.contents.log, taken)?;
        put_log(self.alloc, &mut self.contents, &mut self.past, log)?;
        match stands {
            None => Ok(()),
            Some(_) => Err(fail(&mut self.failures, Call::Append)),
        }
    }

    fn cut(&mut self, length: usize) -> Result<(), DeviceError> {
        let stands = count_call(&mut self.crash);
        let kept = match stands {
            None => length,
            Some(n) => length.max(self.contents.log.len().saturating_sub(n)),
        };
        let log = front(&self.contents.log, kept).to_vec(self.alloc)?;
        put_log(self.alloc, &mut self.contents, &mut self.past, log)?;
        match stands {
            None => Ok(()),
            Some(_) => Err(fail(&mut self.failures, Call::Cut)),
        }
    }

    fn sync(&mut self) -> Result<(), DeviceError> {
        match count_call(&mut self.crash) {
            None => Ok(()),
            Some(_) => Err(fail(&mut self.failures, Call::Sync)),
        }
    }

    fn replace(&mut self, bytes: &[u8]) -> Result<(), DeviceError> {
        let stands = count_call(&mut self.crash);
        if stands == Some(0) {
            return Err(fail(&mut self.failures, Call::Replace));
        }
        let snapshot = bytes.to_vec(self.alloc)?;
        put_snapshot(self.alloc, &mut self.contents, &mut self.past, snapshot)?;
        match stands {
            None => Ok(()),
            Some(_) => Err(fail(&mut self.failures, Call::Replace)),
        }
    }
}
