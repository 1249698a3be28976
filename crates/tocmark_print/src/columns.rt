//! Tables of pandoc whose columns are marked by dashes. To the reader their lines are texts, rules and code.

use crate::source::{is_blank, without_blanks};

/// What a line is to such a table.
#[derive(Clone, Copy, PartialEq, Eq)]
enum Row {
    Blank,
    /// A run of dashes: it begins and ends a table whose rows have blank lines between them.
    Rule,
    /// Several runs of dashes, one over each column.
    Marks,
    Text,
}

/// A table whose end isn't found yet.
#[derive(Clone, Copy)]
struct Open {
    from: usize,
    /// Whether it begins with a run of dashes, and so ends with one.
    is_ruled: bool,
}

/// Finds tables, line by line.
#[derive(Clone, Copy)]
pub(crate) struct Columns {
    /// Where the lines after the last blank one begin, if a table could begin there.
    front: Option<usize>,
    /// Whether the first one of them is a run of dashes.
    is_ruled: bool,
    /// The row before, and where it ends. The one that marks the columns counts as text.
    last: Row,
    to: usize,
    open: Option<Open>,
}

/// What a line is. Only one that begins with a dash is looked at whole.
fn row_of(line: &str) -> Row {
    match line.as_bytes().iter().find(|byte| !is_blank(**byte)) {
        None => Row::Blank,
        Some(b'-') => row_of_dashes(without_blanks(line)),
        Some(_) => Row::Text,
    }
}

/// What a line is that begins with a dash, without the blanks round it.
fn row_of_dashes(bare: &str) -> Row {
    let are_dashes = bare.starts_with("--")
        && bare.contains("---")
        && bare
            .as_bytes()
            .iter()
            .all(|byte| matches!(*byte, b'-' | b' '));
    match (are_dashes, bare.contains(' ')) {
        (false, _) => Row::Text,
        (true, false) => Row::Rule,
        (true, true) => Row::Marks,
    }
}

/// Whether a table can begin with a line: it begins no list, quote, heading, code, HTML or definition of a link.
fn can_begin(bare: &str) -> bool {
    match bare.as_bytes().first() {
        Some(b'-') => bare.starts_with("--"),
        Some(b'+' | b'*' | b'>' | b'#' | b'|' | b'`' | b'~' | b'<' | b':') => false,
        Some(b'[') => !bare.contains("]:"),
        Some(b'0'..=b'9') => !bare.contains(". ") && !bare.contains(") "),
        _ => true,
    }
}

impl Columns {
    pub(crate) fn new() -> Columns {
        Columns {
            front: None,
            is_ruled: false,
            last: Row::Blank,
            to: 0,
            open: None,
        }
    }

    /// Takes the line that begins at a place. A table that it ends has the bytes between two places.
    pub(crate) fn take(&mut self, line: &str, from: usize) -> Option<(usize, usize)> {
        let row = row_of(line);
        if row == Row::Blank {
            let found = self.end();
            self.last = row;
            return found;
        }
        if self.last == Row::Blank {
            self.front = if can_begin(without_blanks(line)) {
                Some(from)
            } else {
                None
            };
            self.is_ruled = row == Row::Rule;
        }
        self.to = from.saturating_add(line.len());
        self.last = self.passed(row);
        None
    }

    /// What a row counts as, once it has opened a table, or shown that the open one is none.
    fn passed(&mut self, row: Row) -> Row {
        match self.open {
            Some(open) if open.is_ruled && self.last == Row::Rule => self.open = None,
            _ => {}
        }
        if row != Row::Marks || self.open.is_some() {
            return row;
        }
        self.open = self.front.map(|from| Open {
            from,
            is_ruled: self.is_ruled,
        });
        Row::Text
    }

    /// The table that ends with the row before a blank line or before the end of the text.
    pub(crate) fn end(&mut self) -> Option<(usize, usize)> {
        let open = self.open?;
        if open.is_ruled && !matches!(self.last, Row::Rule | Row::Marks) {
            return None;
        }
        self.open = None;
        Some((open.from, self.to))
    }
}
