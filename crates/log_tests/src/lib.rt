//! The tests of logs of payments into a till, of snapshots of the till, and of a device in memory that keeps both: logs
//! that are replayed, cut and damaged (`logs`, `streams`, `resumed`, `snapshots_of_tills`, `refused_memory`); the
//! device itself (`steps`, `device_calls`, `crashes`), where each call fails in turn, with a crash at each byte of a
//! write; and logs and tills on it, with a crash at each byte of an append, of a recovery and of a compaction. Frames,
//! checks and snapshots are Python's, and the files of the device itself are written out by hand.
#![tactic(auto)]

#[cfg(test)]
mod appends;
#[cfg(test)]
mod compactions;
#[cfg(test)]
mod crashes;
#[cfg(test)]
mod device_calls;
#[cfg(test)]
mod device_logs;
#[cfg(test)]
mod logs;
#[cfg(test)]
mod messages;
#[cfg(test)]
mod payments;
#[cfg(test)]
mod recoveries;
#[cfg(test)]
mod refused_memory;
#[cfg(test)]
mod resumed;
#[cfg(test)]
mod resumptions;
#[cfg(test)]
mod snapshots_of_tills;
#[cfg(test)]
mod steps;
#[cfg(test)]
mod streams;
#[cfg(test)]
mod tills_on_devices;
