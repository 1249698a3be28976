//! Replaces the text of a file: all of it or nothing.
//!
//! Enter at `replace` (`replace`). It takes the steps of a `ReplaceableFile` (`file`) in an order in which the file always has
//! its old text or the new one whole. `memory` is such a file in memory. `record` keeps the steps for clauses, and takes no room.
#![tactic(auto)]

pub mod file;
pub mod memory;
pub mod record;
pub mod replace;

pub use file::ReplaceableFile;

#[cfg(test)]
mod tests {
    use crate::memory::MemoryFile;
    use crate::replace::replace;
    use std::test::Fail;

    #[test]
    fn a_file_with_another_text_stays(rt: HostRuntime) -> Result<(), Fail> {
        let mut file = MemoryFile::new(rt.alloc(), "old".as_bytes())?;
        assert!(rt; replace(&rt, &mut file, "old", "new", true)?);
        assert_eq!(rt; file.text(), "new".as_bytes());
        assert!(rt; !replace(&rt, &mut file, "old", "other", true)?);
        assert_eq!(rt; file.text(), "new".as_bytes());
        Ok(())
    }
}
