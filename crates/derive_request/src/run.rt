//! A run of the program over all files that it is given.
ghost use Rattle.std.specs.Prelude.{◌≡◌, max, IfOk};

use crate::paths::module_path;
use crate::program::{Outcome, ProgramError, outcome_of, refuse_by_hand, written_for};
use crate::request::{Request, request_of};
use clap::Error;
use std::alloc::{AllocError, Global};
use std::io;
use std::io::ErrorKind;

/// Where the sources and their modules stand.
pub trait Shelf {
    /// The text of a file. Fails where there is none, and where it can't be read.
    fn text(&self, path: &str) -> io::Result<String>;

    /// The path of a file from the root on, by which its crate is found.
    fn place(&self, path: &str) -> io::Result<String>;

    /// Writes a file, and makes the folder that it stands in.
    fn write(&mut self, path: &str, text: &str) -> io::Result<()>;
}

/// What is said of a run, and the status with which the program ends.
#[derive(Drop)]
pub struct Report {
    /// What goes to the standard output.
    pub printed: String,
    /// What goes to the standard error.
    pub complaints: String,
    /// 0 where all is done or up to date, 1 where a module is stale or missing, 2 where something failed.
    pub status: u8,
}

impl Report {
    fn new(alloc: Global) -> Report
        ensures { result.status ≡ 0 }
    {
        Report {
            printed: String::new(alloc),
            complaints: String::new(alloc),
            status: 0,
        }
    }

    /// Adds what is said of one more file. The greatest status stays.
    fn add(&mut self, printed: &str, complaint: &str, status: u8) -> Result<(), AllocError>
        ensures { IfOk result (λ _. self.new.status ≡ max self.old.status status) }
    {
        self.printed.push_str(printed)?;
        self.complaints.push_str(complaint)?;
        self.status = self.status.max(status);
        Ok(())
    }
}

/// Does what these words ask for, of which the first is the program's name, file by file: one that is refused keeps no
/// other from being written. Fails where memory is refused for what is said.
pub fn run<S: Shelf>(alloc: Global, shelf: &mut S, words: &[String]) -> Result<Report, AllocError> {
    match request_of(alloc, words) {
        Ok(request) => run_request(alloc, shelf, &request),
        Err(error) => usage(alloc, &error),
    }
}

/// Does what a request asks for with each of its files.
fn run_request<S: Shelf>(
    alloc: Global,
    shelf: &mut S,
    request: &Request,
) -> Result<Report, AllocError> {
    let mut report = Report::new(alloc);
    for file in request.files.iter() {
        match run_file(alloc, shelf, request, file.as_str()) {
            Ok(outcome) => report.add(outcome.printed.as_str(), "", outcome.status)?,
            Err(error) => {
                let complaint = format!(in alloc; "derive: {error}\n")?;
                report.add("", complaint.as_str(), 2)?;
            }
        }
    }
    Ok(report)
}

/// Does what a request asks for with one file.
fn run_file<S: Shelf>(
    alloc: Global,
    shelf: &mut S,
    request: &Request,
    file: &str,
) -> Result<Outcome, ProgramError> {
    let text = named(alloc, file, shelf.text(file))?;
    let place = named(alloc, file, shelf.place(file))?;
    let made = written_for(alloc, request, file, place.as_str(), text.as_str())?;
    let path = module_path(alloc, file)?;
    let path = path.as_str();
    let found = named(alloc, path, found_at(shelf, path))?;
    let found = found.as_ref().map(String::as_str);
    let module = made.module.as_str();
    let mut outcome = outcome_of(alloc, request.action, file, path, module, found)?;
    refuse_by_hand(alloc, path, found, &outcome)?;
    if outcome.is_written {
        named(alloc, path, shelf.write(path, module))?;
        outcome.printed.push_str(made.answers.as_str())?;
    }
    Ok(outcome)
}

/// What an access to a file of this name gives, and an error with the name.
fn named<T: Drop>(alloc: Global, path: &str, outcome: io::Result<T>) -> Result<T, ProgramError> {
    match outcome {
        Ok(value) => Ok(value),
        Err(why) => Err(ProgramError::File {
            path: String::from_str(alloc, path)?,
            why,
        }),
    }
}

/// The text of a file, which may be missing.
fn found_at<S: Shelf>(shelf: &S, path: &str) -> io::Result<Option<String>> {
    match shelf.text(path) {
        Ok(text) => Ok(Some(text)),
        Err(error) if error.kind() == ErrorKind::NotFound => Ok(None),
        Err(error) => Err(error),
    }
}

/// What is said where words spell no request, or ask for help or for the version.
fn usage(alloc: Global, error: &Error) -> Result<Report, AllocError> {
    let mut report = Report::new(alloc);
    let text = format!(in alloc; "{error}")?;
    if error.use_stderr() {
        report.add("", text.as_str(), 2)?;
    } else {
        report.add(text.as_str(), "", 0)?;
    }
    Ok(report)
}
