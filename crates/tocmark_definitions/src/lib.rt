//! Gives definitions of links the destinations and titles that a JSON text says.
//!
//! Start at `redefine` (`redefining`). `given` reads the definitions of a JSON text, and `fault` has the errors.
#![tactic(auto)]

pub mod fault;
mod given;
pub mod redefining;

pub use fault::Fault;
pub use redefining::redefine;

#[cfg(test)]
mod tests {
    use crate::{Fault, redefine};
    use std::alloc::{AllocError, Global};
    use std::test::Fail;
    use tocmark_event::event::ParserOptions;

    /// The JSON of a definition.
    fn json_of(
        alloc: Global,
        label: &str,
        says: (&str, &str),
        range: (usize, usize),
    ) -> Result<String, AllocError> {
        let (destination, title) = says;
        let (start, end) = range;
        let said = format!(in alloc; "\"destination\": \"{destination}\", \"title\": \"{title}\"")?;
        let place = format!(in alloc; "\"range\": {{\"start\": {start}, \"end\": {end}}}")?;
        format!(in alloc; "{{\"label\": \"{label}\", {said}, {place}, \"used\": true}}")
    }

    #[test]
    fn used_and_unused_ones_get_what_is_given(rt: HostRuntime) -> Result<(), Fail> {
        let alloc = rt.alloc();
        let source = "[a]\n\n[a]: /b\n[c]: /d 'e'\n[f]: /g\n";
        let used = json_of(alloc, "a", ("/x y", "t"), (5, 12))?;
        let unused = json_of(alloc, "c", ("/d", ""), (13, 24))?;
        let json = format!(in alloc; "[{used},\n{unused}]")?;
        let new = redefine(alloc, source, ParserOptions::empty(), json.as_str());
        let wanted = "[a]\n\n[a]: </x y> \"t\"\n[c]: /d\n[f]: /g\n";
        assert_eq!(rt; new.ok().as_deref(), Some(wanted));
        Ok(())
    }

    #[test]
    fn the_mark_stays_and_counts(rt: HostRuntime) -> Result<(), Fail> {
        let alloc = rt.alloc();
        let source = "\u{feff}[a]: /b\n";
        let one = json_of(alloc, "a", ("/c", ""), (3, 10))?;
        let json = format!(in alloc; "[{one}]")?;
        let new = redefine(alloc, source, ParserOptions::empty(), json.as_str());
        assert_eq!(rt; new.ok().as_deref(), Some("\u{feff}[a]: /c\n"));
        Ok(())
    }

    #[test]
    fn faults_name_what_is_wrong(rt: HostRuntime) -> Result<(), Fail> {
        let alloc = rt.alloc();
        let one = json_of(alloc, "a", ("/c", ""), (0, 7))?;
        let wrong = "\"label\": \"a\", \"destination\": \"\", \"title\": \"\"";
        let missing = "definition 0: the text has none with this label and range";
        let number = "expected a whole number from 0 to 18446744073709551615";
        for (source, second, message) in [
            ("[b]: /b\n", "{}", "definition 1: label: expected a string"),
            ("[b]: /b\n", "", missing),
            ("\u{feff}[a]: /b\n", "", missing),
            (
                "[a]: /b\n",
                "{WRONG}",
                "definition 1: range: expected an object with the keys start and end",
            ),
            (
                "[a]: /b\n",
                "{WRONG, \"range\": {\"start\": 0}}",
                "definition 1: end: NUMBER",
            ),
        ] {
            let comma = if second.is_empty() { "" } else { "," };
            let second = second.replace(alloc, "WRONG", wrong)?;
            let message = message.replace(alloc, "NUMBER", number)?;
            let json = format!(in alloc; "[{one}{comma}{second}]")?;
            let line = match redefine(alloc, source, ParserOptions::empty(), json.as_str()) {
                Ok(text) => text,
                Err(fault) => format!(in alloc; "{fault}")?,
            };
            assert_eq!(rt; line.as_str(), message.as_str());
        }
        Ok(())
    }

    #[test]
    fn no_list_of_definitions_is_refused(rt: HostRuntime) -> Result<(), Fail> {
        let alloc = rt.alloc();
        let no_json = redefine(alloc, "", ParserOptions::empty(), "[");
        assert!(rt; matches!(&no_json, Err(Fault::NotJson(_))));
        let no_list = redefine(alloc, "", ParserOptions::empty(), "{}");
        assert!(rt; matches!(&no_list, Err(Fault::NotAList)));
        Ok(())
    }
}
