//! A type in two versions.

mod words;

/// The settings of a program, as each version of it wrote them. A new version is a new variant, at the end.
// bincode: without Canonical
#[derive(Debug, Drop, PartialEq)]
pub enum Saved {
    First(String),
    Second { name: String, port: u16 },
}

/// The settings as this version of the program has them.
#[derive(Debug, Drop, PartialEq)]
// bincode: skip
pub struct Settings {
    pub name: String,
    pub port: u16,
}

/// Settings of whatever version, as the newest one.
pub fn newest(saved: Saved) -> Settings {
    match saved {
        Saved::First(name) => Settings { name, port: 8080 },
        Saved::Second { name, port } => Settings { name, port },
    }
}
