//! A file in memory, which has the texts that its steps say.

ghost use Rattle.std.specs.Prelude.{◌≡◌, [], ◌∷◌, IfOk};
ghost use Rattle.tocmark_replace.specs.Texts.{text_after, draft_text};

use crate::file::ReplaceableFile;
use crate::record::{FOUND, FOUND_OTHER, MADE, REMOVED, RENAMED, Record, SYNCED, TORE, WROTE};
use std::alloc::{AllocError, Global};
use std::mem;

/// A file in memory, and the new one beside it.
#[derive(Drop)]
pub struct MemoryFile {
    alloc: Global,
    /// What it had at first.
    first: Vec<u8>,
    text: Vec<u8>,
    draft: Vec<u8>,
    log: Record,
    ghost text_is: { text.items ≡ text_after first.items log.steps },
    ghost draft_is: { draft.items ≡ draft_text log.steps },
}

impl MemoryFile {
    ghost use Rattle.tocmark_replace.specs.Memory.{memory_text};

    /// A file with this text.
    pub fn new(alloc: Global, text: &[u8]) -> Result<MemoryFile, AllocError>
        ensures { IfOk result (λ file. memory_text file ≡ text.now) }
    {
        Ok(MemoryFile {
            alloc,
            first: text.to_vec(alloc)?,
            text: text.to_vec(alloc)?,
            draft: Vec::new(alloc),
            log: Record::new(),
        })
    }

    /// Its text, which is the last that its steps gave it.
    pub fn text(&self) -> &[u8]
        ensures { result.now ≡ memory_text self.now }
    {
        &self.text
    }
}

impl ReplaceableFile for MemoryFile {
    type Error = AllocError;

    ghost steps = { λ file. file.log.steps };

    fn create(&mut self, _rt: &HostRuntime) -> Result<(), AllocError> {
        self.draft = Vec::new(self.alloc);
        self.log.note(&[MADE], &[]);
        Ok(())
    }

    fn write(&mut self, _rt: &HostRuntime, text: &str) -> Result<(), AllocError> {
        match text.as_bytes().to_vec(self.alloc) {
            Ok(draft) => {
                self.draft = draft;
                self.log.note(&[WROTE], text.as_bytes());
                Ok(())
            }
            Err(error) => {
                self.draft = Vec::new(self.alloc);
                self.log.note(&[TORE], &[]);
                Err(error)
            }
        }
    }

    fn sync(&mut self, _rt: &HostRuntime) -> Result<(), AllocError> {
        self.log.note(&[SYNCED], &[]);
        Ok(())
    }

    fn still_has(&mut self, _rt: &HostRuntime, text: &str) -> Result<bool, AllocError> {
        if self.text.as_slice() == text.as_bytes() {
            self.log.note(&[FOUND], text.as_bytes());
            Ok(true)
        } else {
            self.log.note(&[FOUND_OTHER], &[]);
            Ok(false)
        }
    }

    fn rename(&mut self, _rt: &HostRuntime) -> Result<(), AllocError> {
        self.text = mem::replace(&mut self.draft, Vec::new(self.alloc));
        self.log.note(&[RENAMED], &[]);
        Ok(())
    }

    fn remove(&mut self, _rt: &HostRuntime) {
        self.draft = Vec::new(self.alloc);
        self.log.note(&[REMOVED], &[]);
    }
}
