//! Gives definitions of links other destinations and titles, used or not. Links by their labels follow.
//!
//! Start at `with_definitions` (`defining`), which finds what a caller's list changes. `redefining` replaces the bytes of these
//! definitions and checks the new text: the reader finds the given definitions in it, and the old events, but for the links
//! that follow. `following` changes the events of these links.
#![tactic(auto)]

pub mod defining;
pub mod following;
pub mod redefining;

pub use defining::{GivenDefinition, with_definitions};
pub use following::follow;
pub use redefining::{DefinitionFault, Redefined};

#[cfg(test)]
mod tests {
    use crate::{DefinitionFault, GivenDefinition, with_definitions};
    use std::alloc::{AllocError, Global};
    use std::test::Fail;
    use tocmark_event::event::ParserOptions;

    fn given(
        alloc: Global,
        label: &str,
        range: (usize, usize),
        says: (&str, &str),
    ) -> Result<GivenDefinition, AllocError> {
        Ok(GivenDefinition {
            label: String::from_str(alloc, label)?,
            range,
            destination: String::from_str(alloc, says.0)?,
            title: String::from_str(alloc, says.1)?,
        })
    }

    #[test]
    fn definitions_get_what_is_given(rt: HostRuntime) -> Result<(), Fail> {
        let alloc = rt.alloc();
        let source = "[a]\n\n[a]: /b\n[c]: /d 'e'\n";
        let used = given(alloc, "a", (5, 12), ("/x y", "t"))?;
        let unused = given(alloc, "c", (13, 24), ("/d", ""))?;
        let all = vec![in alloc; used, unused]?;
        let new = with_definitions(alloc, source, ParserOptions::empty(), &all)?;
        assert_eq!(rt; new.text.as_str(), "[a]\n\n[a]: </x y> \"t\"\n[c]: /d\n");
        Ok(())
    }

    #[test]
    fn a_definition_that_is_not_there_is_named(rt: HostRuntime) -> Result<(), Fail> {
        let alloc = rt.alloc();
        let all = vec![in alloc; given(alloc, "b", (0, 7), ("/c", ""))?]?;
        let new = with_definitions(alloc, "[a]: /b\n", ParserOptions::empty(), &all);
        assert_eq!(rt; new.err(), Some(DefinitionFault::NoDefinition(0)));
        Ok(())
    }
}
