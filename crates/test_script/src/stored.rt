//! Files of stored rows. A row is a script, and below it are the lines that it is to be answered, each after `> `.

use crate::batch::answer;
use crate::line_fault::NumberedFault;
use crate::lines::ScriptLines;
use crate::rows::RowTrials;
use crate::script::{Script, put};
use crate::short_lines::with_short_lines;
use std::alloc::{AllocError, Global};
use std::io::{self, Write};

/// What an expected line begins with.
const EXPECTED: &str = "> ";

/// Rows whose lines come one after the other.
#[derive(Drop)]
pub struct StoredRows {
    alloc: Global,
    /// The name of their file.
    file: String,
    lines: ScriptLines,
    /// The lines that the row is to be answered.
    expected: String,
    trials: RowTrials,
    /// Whether each row so far has the answer that is expected.
    is_right: bool,
}

impl StoredRows {
    /// No row yet.
    pub fn new(alloc: Global) -> StoredRows {
        StoredRows {
            alloc,
            file: String::new(alloc),
            lines: ScriptLines::new(alloc),
            expected: String::new(alloc),
            trials: RowTrials::new(alloc),
            is_right: true,
        }
    }

    /// Whether each row so far has the answer that is expected.
    pub fn is_right(&self) -> bool {
        self.is_right
    }

    /// The answer of a row, with a line for each trial that failed.
    fn answer(&mut self, script: &Script<'static>) -> Result<String, AllocError> {
        let mut lines = answer(self.alloc, script)?;
        self.trials.run(self.alloc, script, &mut lines)?;
        with_short_lines(self.alloc, lines.as_str())
    }

    fn refuse<O: Write>(&mut self, output: &mut O, fault: NumberedFault<'_>) -> io::Result<()> {
        self.is_right = false;
        let file = self.file.as_str();
        writeln!(output, "{file}, {fault}")
    }

    /// Writes the answer of a row, unless it is expected.
    fn compare<O: Write>(&mut self, output: &mut O, script: &Script<'static>) -> io::Result<()> {
        let answer = self.answer(script)?;
        if answer.as_str() == self.expected.as_str() {
            return Ok(());
        }
        self.is_right = false;
        let (file, line) = (self.file.as_str(), self.lines.line());
        writeln!(
            output,
            "{file}, line {line}: this row has another answer:\n{answer}%"
        )
    }

    /// Ends a row.
    fn end_row<O: Write>(&mut self, output: &mut O) -> io::Result<()> {
        let ended = self.lines.end();
        let compared = match &ended {
            Ok(Some(script)) => self.compare(output, script),
            Ok(None) => Ok(()),
            Err(fault) => self.refuse(output, *fault),
        };
        drop(ended);
        self.expected.clear();
        compared
    }

    /// Takes the next line.
    fn take<O: Write>(&mut self, output: &mut O, line: &str) -> io::Result<()> {
        if line == "%" {
            self.lines.pass();
            return self.end_row(output);
        }
        if let Some(expected) = line.strip_prefix(EXPECTED) {
            self.lines.pass();
            self.expected.push_str(expected)?;
            return Ok(self.expected.push('\n')?);
        }
        match self.lines.take(line) {
            Ok(()) => Ok(()),
            Err(fault) => self.refuse(output, fault),
        }
    }

    /// Tries each row of a file, and writes what isn't as expected. A line `%` ends each row.
    ///
    /// # Errors
    ///
    /// The error of the output or of memory.
    pub fn take_file<O: Write>(
        &mut self,
        output: &mut O,
        file: &str,
        text: &str,
    ) -> io::Result<()> {
        let name = String::from_str(self.alloc, file)?;
        put(&mut self.file, name);
        put(&mut self.lines, ScriptLines::new(self.alloc));
        for line in text.split('\n') {
            self.take(output, line)?;
        }
        if self.lines.is_begun() {
            self.end_row(output)?;
        }
        Ok(())
    }

    /// Writes how many trials there were, and what they came to.
    ///
    /// # Errors
    ///
    /// The error of the output.
    pub fn write_trials<O: Write>(&self, output: &mut O) -> io::Result<()> {
        self.trials.write(output)?;
        output.flush()
    }
}
