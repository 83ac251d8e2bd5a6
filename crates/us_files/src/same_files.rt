use std::fs::{self, Metadata};
use std::io::{self, ErrorKind};
use std::os::unix::fs::MetadataExt;
use std::path::Path;
use std::rt::Files;

/// Whether two paths lead to one regular file, or, where nothing is there, to one name in one folder. Devices and pipes
/// are no such files, and a path that can't be looked at is like no other.
pub fn is_same_file<R: Files>(rt: &R, path: &str, other: &str) -> bool {
    match (fs::metadata(rt, path), fs::metadata(rt, other)) {
        (Ok(found), Ok(other)) => found.is_file() && is_same_node(&found, &other),
        (Err(error), Err(other_error)) => {
            is_absent(&error) && is_absent(&other_error) && is_same_name(rt, path, other)
        }
        _ => false,
    }
}

fn is_same_node(found: &Metadata, other: &Metadata) -> bool {
    found.dev() == other.dev() && found.ino() == other.ino()
}

fn is_absent(error: &io::Error) -> bool {
    error.kind() == ErrorKind::NotFound
}

/// Whether two paths end with one name in one folder.
fn is_same_name<R: Files>(rt: &R, path: &str, other: &str) -> bool {
    let (path, other) = (Path::new(path), Path::new(other));
    if path.file_name() != other.file_name() {
        return false;
    }
    match (folder_of(rt, path), folder_of(rt, other)) {
        (Ok(folder), Ok(other)) => is_same_node(&folder, &other),
        _ => false,
    }
}

/// The folder that a path's last name stands in.
fn folder_of<R: Files>(rt: &R, path: Path<'_>) -> io::Result<Metadata> {
    match path.parent() {
        Some(folder) if folder.to_str() != Some("") => fs::metadata(rt, folder),
        _ => fs::metadata(rt, "."),
    }
}
