//! The lines of scripts, one after the other.

use crate::gathering::Gathering;
use crate::line_fault::NumberedFault;
use crate::script::{Script, put};
use std::alloc::Global;

/// Scripts whose lines are taken one after the other.
#[derive(Drop)]
pub struct ScriptLines {
    alloc: Global,
    /// The script whose lines come.
    gathering: Gathering<'static>,
    /// Whether one of its lines had a fault.
    is_faulty: bool,
    /// The number of the last line, counted from 1.
    line: usize,
}

impl ScriptLines {
    /// No line yet.
    pub fn new(alloc: Global) -> ScriptLines {
        ScriptLines {
            alloc,
            gathering: Gathering::new(alloc),
            is_faulty: false,
            line: 0,
        }
    }

    /// The number of the last line, counted from 1.
    pub fn line(&self) -> usize {
        self.line
    }

    /// Whether a line of the script said something, and none had a fault.
    pub fn is_begun(&self) -> bool {
        !self.is_faulty && !self.gathering.is_empty()
    }

    /// Passes over a line that is none of the script's.
    pub fn pass(&mut self) {
        self.line = self.line.saturating_add(1);
    }

    /// Takes the next line of the script. After one with a fault the lines up to its end are passed over.
    pub fn take<'l>(&mut self, line: &'l str) -> Result<(), NumberedFault<'l>> {
        self.pass();
        if self.is_faulty {
            return Ok(());
        }
        match self.gathering.take(self.line, line) {
            Ok(()) => Ok(()),
            Err(fault) => {
                self.is_faulty = true;
                Err(NumberedFault {
                    number: self.line,
                    line,
                    fault,
                })
            }
        }
    }

    /// The script whose lines were taken, or nothing where one of them had a fault. After the last of them something
    /// can be missing.
    fn whole(&mut self) -> Result<Option<Script<'static>>, NumberedFault<'static>> {
        if self.is_faulty {
            return Ok(None);
        }
        match self.gathering.end() {
            Ok(script) => Ok(Some(script)),
            Err(fault) => Err(NumberedFault {
                number: self.gathering.unclosed().unwrap_or(self.line),
                line: "",
                fault,
            }),
        }
    }

    /// The script whose lines were taken, or nothing where one of them had a fault. The next line begins another
    /// script.
    pub fn end(&mut self) -> Result<Option<Script<'static>>, NumberedFault<'static>> {
        let whole = self.whole();
        put(&mut self.gathering, Gathering::new(self.alloc));
        self.is_faulty = false;
        whole
    }
}
