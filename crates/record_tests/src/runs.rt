//! What the program does to a file, and the statuses with which it ends.

use crate::requests::words_of;
use crate::stores::{FRAMED, damaged};
use std::path::PathBuf;
use std::{env, fs, process};
use stock_files::program::{Source, add, run};
use stock_files::request::{Request, request_of};
use stock_files::status::{DAMAGED, DONE, FAILED, USAGE};

/// Whether the program ends with this status: with this command, the file and these words.
fn ends(rt: &HostRuntime, (command, path, others): (&str, &str, &str), status: u8) -> bool {
    let Ok(line) = format!(in rt.alloc(); "{command} {path} {others}") else {
        return false;
    };
    match words_of(rt.alloc(), line.as_str()) {
        Ok(words) => run(rt, &words) == status,
        Err(_) => false,
    }
}

/// Whether a file holds these bytes.
fn holds(rt: &HostRuntime, path: &str, bytes: &[u8]) -> bool {
    match fs::read(rt, path) {
        Ok(held) => held.as_slice() == bytes,
        Err(_) => false,
    }
}

/// A path that no other test has.
fn path_of(rt: &HostRuntime, name: &str) -> anyhow::Result<PathBuf> {
    let name = format!(in rt.alloc(); "{}-{name}.stock", process::id(rt.process()))?;
    Ok(env::temp_dir(rt)?.join(rt.alloc(), name.as_str())?)
}

/// Whether an article of these words is added to the file, and this is printed after the name of the file.
fn tells(rt: &HostRuntime, path: &str, article: &str, text: &str) -> bool {
    let alloc = rt.alloc();
    let Ok(line) = format!(in alloc; "add {path} {article}") else {
        return false;
    };
    let Ok(wanted) = format!(in alloc; "{path}: {text}\n") else {
        return false;
    };
    let Ok(words) = words_of(alloc, line.as_str()) else {
        return false;
    };
    let Ok(Request::Add { file, article }) = request_of(alloc, &words) else {
        return false;
    };
    let mut out = Vec::new(alloc);
    match add(rt, file.as_str(), Source::One(&article), &mut out) {
        Ok(status) => status == DONE && out.as_slice() == wanted.as_bytes(),
        Err(_) => false,
    }
}

/// Salt, tea and salt again, each with its place, the last by a run. Words that spell no article leave the file as it
/// is.
#[test]
fn adds_to_a_file(rt: HostRuntime) -> anyhow::Result<()> {
    let file = path_of(&rt, "added")?;
    let path = file.as_str();
    let is_added = tells(&rt, path, "salt 40", "16 bytes at byte 0")
        && tells(
            &rt,
            path,
            "tea 1250 origin=Assam 100",
            "31 bytes at byte 16",
        )
        && ends(&rt, ("add", path, "salt 40"), DONE)
        && ends(&rt, ("add", path, "salt much"), USAGE)
        && holds(&rt, path, &FRAMED);
    let is_shown = ends(&rt, ("list", path, ""), DONE) && ends(&rt, ("check", path, ""), DONE);
    assert!(rt; fs::remove_file(&rt, path).is_ok() && is_added && is_shown);
    assert!(rt;
        ends(&rt, ("check", path, ""), FAILED)
            && ends(&rt, ("repair", path, ""), FAILED)
            && ends(&rt, ("sell", path, ""), USAGE)
    );
    Ok(())
}

/// Nothing is added to a torn file, and it is told as one until it is repaired.
#[test]
fn leaves_a_torn_file(rt: HostRuntime) -> anyhow::Result<()> {
    let file = path_of(&rt, "torn")?;
    let path = file.as_str();
    let torn = &FRAMED[..46];
    let is_left = fs::write(&rt, path, torn).is_ok()
        && ends(&rt, ("add", path, "salt 40"), DAMAGED)
        && ends(&rt, ("check", path, ""), DAMAGED)
        && holds(&rt, path, torn);
    let is_repaired = ends(&rt, ("repair", path, ""), DONE) && holds(&rt, path, &FRAMED[..16]);
    let is_told = fs::write(&rt, path, damaged().as_slice()).is_ok()
        && ends(&rt, ("list", path, ""), DAMAGED);
    assert!(rt; fs::remove_file(&rt, path).is_ok() && is_left && is_repaired && is_told);
    Ok(())
}

/// What a killed repair left beside a file is no hindrance to the next one, which leaves nothing there.
#[test]
fn repairs_after_a_killed_repair(rt: HostRuntime) -> anyhow::Result<()> {
    let file = path_of(&rt, "killed")?;
    let path = file.as_str();
    let beside = format!(in rt.alloc(); "{path}.repaired")?;
    let beside = beside.as_str();
    let is_repaired = fs::write(&rt, path, damaged().as_slice()).is_ok()
        && fs::write(&rt, beside, &FRAMED[..9]).is_ok()
        && ends(&rt, ("repair", path, "--drop-damaged"), DONE)
        && ends(&rt, ("check", path, ""), DONE);
    let is_left = fs::metadata(&rt, beside).is_ok();
    assert!(rt; fs::remove_file(&rt, path).is_ok() && is_repaired && !is_left);
    Ok(())
}
