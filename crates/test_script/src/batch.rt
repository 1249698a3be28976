//! Batches of scripts.

use crate::cuts::write_cuts;
use crate::fault::Fault;
use crate::line_fault::{LineFault, NumberedFault};
use crate::lines::ScriptLines;
use crate::question::answers;
use crate::runs::run;
use crate::script::Script;
use std::alloc::{AllocError, Global};
use std::io::Write;

/// Scripts whose lines come one after the other.
#[derive(Drop)]
pub struct Batch {
    alloc: Global,
    lines: ScriptLines,
    /// Whether each script so far has its answer.
    is_right: bool,
}

/// The answer of a whole script.
///
/// # Errors
///
/// There is no memory for it.
pub fn answer(alloc: Global, script: &Script<'static>) -> Result<String, AllocError> {
    if !script.questions.is_empty() {
        return answers(alloc, script);
    }
    let mut answer = run(alloc, script, &script.calls, script.shows_calls)?;
    if script.compares_cuts {
        write_cuts(alloc, &mut answer, script)?;
    }
    Ok(answer)
}

fn write_out<O: Write>(output: &mut O, text: &str) -> Result<(), Fault> {
    match output.write_all(text.as_bytes()) {
        Ok(()) => Ok(()),
        Err(_) => Err(Fault::Write),
    }
}

/// Writes an answer and this last line.
fn write_answer<O: Write>(output: &mut O, answer: &str, last: &str) -> Result<(), Fault> {
    write_out(output, answer)?;
    write_out(output, last)
}

impl Batch {
    /// No line yet.
    pub fn new(alloc: Global) -> Batch {
        Batch {
            alloc,
            lines: ScriptLines::new(alloc),
            is_right: true,
        }
    }

    /// Writes a fault's line, in place of an answer. A line that can't be written changes nothing.
    fn refuse<F: Write>(&mut self, faults: &mut F, fault: NumberedFault<'_>) {
        let _ = writeln!(faults, "test_script: {fault}");
        self.is_right = false;
    }

    /// Writes that memory ran out for an answer.
    fn refuse_answer<F: Write>(&mut self, faults: &mut F) {
        let fault = NumberedFault {
            number: self.lines.line(),
            line: "",
            fault: LineFault::OutOfMemory,
        };
        self.refuse(faults, fault);
    }

    /// Writes the answer of a script and this last line.
    fn answer<O: Write, F: Write>(
        &mut self,
        script: &Script<'static>,
        last: &str,
        output: &mut O,
        faults: &mut F,
    ) -> Result<(), Fault> {
        match answer(self.alloc, script) {
            Ok(answer) => write_answer(output, answer.as_str(), last),
            Err(_) => {
                self.refuse_answer(faults);
                Ok(())
            }
        }
    }

    /// Ends a script: writes its answer and this last line, unless it had a fault.
    fn end_script<O: Write, F: Write>(
        &mut self,
        last: &str,
        output: &mut O,
        faults: &mut F,
    ) -> Result<(), Fault> {
        let ended = self.lines.end();
        let answered = match &ended {
            Ok(Some(script)) => self.answer(script, last, output, faults),
            Ok(None) => Ok(()),
            Err(fault) => {
                self.refuse(faults, *fault);
                Ok(())
            }
        };
        drop(ended);
        answered
    }

    /// Takes the next line.
    fn take<O: Write, F: Write>(
        &mut self,
        line: &str,
        output: &mut O,
        faults: &mut F,
    ) -> Result<(), Fault> {
        if line == "%" {
            self.lines.pass();
            return self.end_script("%\n", output, faults);
        }
        if let Err(fault) = self.lines.take(line) {
            self.refuse(faults, fault);
        }
        Ok(())
    }

    /// Takes the end of the input, where the last script needn't have a line `%`.
    fn end<O: Write, F: Write>(&mut self, output: &mut O, faults: &mut F) -> Result<(), Fault> {
        if self.lines.is_begun() {
            self.end_script("", output, faults)?;
        }
        match output.flush() {
            Ok(()) => Ok(()),
            Err(_) => Err(Fault::Write),
        }
    }

    /// Answers each script of a text in turn. `output` gets the answers, and `faults` a line for each script that
    /// can't be read or for whose answer memory runs out; the other ones are still answered. Returns whether each
    /// has its answer.
    ///
    /// # Errors
    ///
    /// `Write` where the output can't be written.
    pub fn take_all<O: Write, F: Write>(
        &mut self,
        text: &str,
        output: &mut O,
        faults: &mut F,
    ) -> Result<bool, Fault> {
        for line in text.split('\n') {
            self.take(line, output, faults)?;
        }
        self.end(output, faults)?;
        Ok(self.is_right)
    }
}
