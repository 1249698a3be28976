//! Lists of files, as `--files-from` reads them.

use crate::fault::Fault;
use crate::lookup::{MISSING, Refused};
use crate::search::Search;
use std::io::Read;
use std::{fs, io, str};
use tocmark_files::unquoted::unquoted;

/// What is wrong with a line that ends as on Windows.
const RETURN: &str = "the name ends with a carriage return; end lines with a line feed alone";

/// What a list has, or standard input.
fn bytes_of(rt: &HostRuntime, path: &str) -> io::Result<Vec<u8>> {
    if path != "-" {
        return fs::read(rt, path);
    }
    let mut bytes = Vec::new(rt.alloc());
    rt.stdin().read_to_end(&mut bytes)?;
    Ok(bytes)
}

/// The name of a list in messages.
fn shown_name(path: &str) -> &str {
    if path == "-" { "standard input" } else { path }
}

fn add_name(rt: &HostRuntime, search: &mut Search, name: &[u8]) -> Result<(), Refused> {
    match str::from_utf8(name) {
        Ok(name) => search.add_listed(rt, name),
        Err(_) => {
            let name = String::from_utf8_lossy(rt.alloc(), name)?;
            search.fail(rt, name.as_str(), Fault::Name)
        }
    }
}

/// What is wrong in a list whose names end with this byte: it seems to have names that end with the other one.
fn fault_of(bytes: &[u8], end: u8) -> Option<&'static str> {
    let has_nul = bytes.contains(&0);
    if end != 0 && has_nul {
        Some("the list of files has a NUL: pass -0 for names that end with one")
    } else if end == 0 && !has_nul && bytes.contains(&b'\n') {
        Some("the list of files has no NUL: leave out -0 for a name a line")
    } else {
        None
    }
}

/// Whether a line of a list is the name of something that is there.
fn is_there(rt: &HostRuntime, line: &[u8]) -> bool {
    match str::from_utf8(line) {
        Ok(name) => fs::symlink_metadata(rt, name).is_ok(),
        Err(_) => false,
    }
}

/// Adds what a line of a list means: a name, also one that Git quotes.
fn add_line(rt: &HostRuntime, search: &mut Search, line: &[u8]) -> Result<(), Refused> {
    match unquoted(rt.alloc(), line)? {
        Some(name) if !is_there(rt, line) => add_name(rt, search, &name),
        _ => add_name(rt, search, line),
    }
}

/// Adds what the names in the text of a list mean, which end with this byte.
fn add_names(
    rt: &HostRuntime,
    search: &mut Search,
    path: &str,
    bytes: &[u8],
    end: u8,
) -> Result<(), Refused> {
    let mut number = 0usize;
    for name in bytes.split(|byte| *byte == end) {
        number = number.saturating_add(1);
        if end == b'\n' && name.ends_with(b"\r") && !is_there(rt, name) {
            let path = String::from_str(rt.alloc(), shown_name(path))?;
            return Err(Refused::Line(path, number, RETURN));
        }
        if name.is_empty() {
            continue;
        }
        if end == b'\n' {
            add_line(rt, search, name)?;
        } else {
            add_name(rt, search, name)?;
        }
    }
    Ok(())
}

/// Adds what the names in a list mean, which end with this byte.
pub fn add_list(rt: &HostRuntime, search: &mut Search, path: &str, end: u8) -> Result<(), Refused> {
    let bytes = match bytes_of(rt, path) {
        Ok(bytes) => bytes,
        Err(error) => {
            let path = String::from_str(rt.alloc(), path)?;
            if error.kind() == io::ErrorKind::NotFound {
                return Err(Refused::File(path, MISSING));
            }
            return Err(Refused::Unreadable(path, error));
        }
    };
    if let Some(why) = fault_of(&bytes, end) {
        let name = String::from_str(rt.alloc(), shown_name(path))?;
        return Err(Refused::File(name, why));
    }
    add_names(rt, search, path, &bytes, end)
}
