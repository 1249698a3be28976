//! Names of files.

/// The endings of Markdown files, in any case.
const ENDINGS: [&str; 4] = ["md", "markdown", "mdown", "mkd"];

/// Whether a file's name has an ending of Markdown: `.md`, `.markdown`, `.mdown` or `.mkd`, in any case.
pub fn is_markdown(name: &str) -> bool {
    let Some((_, ending)) = name.rsplit_once('.') else {
        return false;
    };
    for known in &ENDINGS {
        if ending.eq_ignore_ascii_case(known) {
            return true;
        }
    }
    false
}
