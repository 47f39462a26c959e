//! Where the file of a source is, and where its module goes.

use std::alloc::{AllocError, Global};

/// The path of the module for the source at this path: in the folder that has the modules below it.
pub fn module_path(alloc: Global, file: &str) -> Result<String, AllocError> {
    let stem = stem_of(file);
    if is_root(stem) {
        return String::from_str(alloc, "words.rt");
    }
    let folder = match stem.rsplit_once('/') {
        Some((folder, name)) if is_root(name) => folder,
        _ => stem,
    };
    format!(in alloc; "{folder}/words.rt")
}

/// Where the toolchain declares the types of the source at this path, as `app.specs.declared.book` for
/// `app/src/book.rt`. The crate is the folder before the last `src`, if none is given. `None` if there is none.
pub fn declared_path(
    alloc: Global,
    file: &str,
    crate_name: Option<&str>,
) -> Result<Option<String>, AllocError> {
    let (folder, module) = file.rsplit_once("/src/").unwrap_or(("", file_name(file)));
    let Some(crate_name) = crate_name.or(named_folder(folder)) else {
        return Ok(None);
    };
    let mut declared = format!(in alloc; "{crate_name}.specs.declared")?;
    let stem = stem_of(module);
    if !is_root(stem) {
        for name in stem.split('/') {
            declared.push_str(".")?;
            declared.push_str(name)?;
        }
    }
    Ok(Some(declared))
}

/// The name of a folder, without those that it stands in. `None` if the path is empty.
fn named_folder(path: &str) -> Option<&str> {
    let name = file_name(path);
    if name.is_empty() { None } else { Some(name) }
}

/// The last name of a path.
pub fn file_name(path: &str) -> &str {
    match path.rsplit_once('/') {
        Some((_, name)) => name,
        None => path,
    }
}

/// A path without what stands behind the last dot of its last name.
fn stem_of(path: &str) -> &str {
    match path.rsplit_once('.') {
        Some((stem, ending)) if !ending.contains('/') => stem,
        _ => path,
    }
}

/// Whether a file of this name is the root of a crate.
fn is_root(name: &str) -> bool {
    name == "lib" || name == "main"
}
