//! The files of the file system.

use derive_request::run::Shelf;
use std::path::Path;
use std::{fs, io};

/// The file system.
#[derive(Drop)]
pub struct Disk<'r> {
    pub rt: &'r HostRuntime,
}

impl Shelf for Disk<'_> {
    fn text(&self, path: &str) -> io::Result<String> {
        fs::read_to_string(self.rt, path)
    }

    fn place(&self, path: &str) -> io::Result<String> {
        let place = fs::canonicalize(self.rt, path)?;
        Ok(String::from_str(self.rt.alloc(), place.as_str())?)
    }

    fn write(&mut self, path: &str, text: &str) -> io::Result<()> {
        if let Some(folder) = Path::new(path).parent() {
            fs::create_dir_all(self.rt, folder)?;
        }
        fs::write(self.rt, path, text)
    }
}
