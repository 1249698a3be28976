//! Which release a program was installed from.

use std::{env, fs, io};

/// Where a release says what was proved, from the folder of its programs on.
const PROVED: &str = "../share/doc/tocmark/PROVED.txt";

/// What `--version` says of a program that has no such file.
const NO_RELEASE: &str =
    "not installed from a release: no PROVED.txt says which commit was proved\n";

/// The rest of the first line that begins with this key.
fn value_of<'t>(text: &'t str, key: &str) -> Option<&'t str> {
    for line in text.lines() {
        if let Some(value) = line.strip_prefix(key) {
            return Some(value);
        }
    }
    None
}

/// What `--version` says of a program with this `PROVED.txt`.
fn line_of(rt: &HostRuntime, text: &str) -> io::Result<String> {
    let (Some(commit), Some(toolchain)) = (
        value_of(text, "commit: "),
        value_of(text, "toolchain: "),
    ) else {
        return Err(io::Error::from(io::ErrorKind::InvalidData));
    };
    match format!(in rt.alloc(); "proved at commit {commit} by {toolchain}\n") {
        Ok(line) => Ok(line),
        Err(_) => Err(io::Error::from(io::ErrorKind::OutOfMemory)),
    }
}

/// The line of `--version` that names the commit of this program's release and the prover, or says that there is none.
///
/// It fails if the program's place or its `PROVED.txt` can't be read, or if memory runs out.
pub fn release_line(rt: &HostRuntime) -> io::Result<String> {
    let program = env::current_exe(rt)?;
    let Some(folder) = program.parent() else {
        return Err(io::Error::from(io::ErrorKind::NotFound));
    };
    let path = folder.join(rt.alloc(), PROVED)?;
    match fs::read_to_string(rt, path.as_path()) {
        Ok(text) => line_of(rt, text.as_str()),
        Err(error) if error.kind() == io::ErrorKind::NotFound => {
            Ok(String::from_str(rt.alloc(), NO_RELEASE)?)
        }
        Err(error) => Err(error),
    }
}
