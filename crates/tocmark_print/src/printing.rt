//! Prints a document whose events come part by part: all events at once would take more memory than all else.

ghost use Rattle.tocmark_print.specs.Fills.{fills};

use crate::look::Look;
use crate::part::Part;
use crate::printer::Printer;
use crate::source::Source;
use crate::style::Style;
use std::alloc::{AllocError, Global};
use tocmark_printing::{Blocks, EventTaker, Events, Ladder, Page, Placed, Print};

/// Prints the trees of a source as they come.
#[derive(Drop)]
pub(crate) struct Printing<'d> {
    printer: Printer<'d>,
    /// The tree that isn't whole yet.
    tree: Part,
}

impl<'d> Printing<'d> {
    /// Nothing is printed yet.
    fn new(
        alloc: Global,
        source: &'d Source<'d>,
        style: Style,
        ladder: &'d Ladder,
    ) -> Printing<'d> {
        Printing {
            printer: Printer::new(alloc, source, Look::of(style), ladder),
            tree: Part::new(alloc),
        }
    }

    /// Prints the tree, which is whole. Its room stays.
    fn print_tree(&mut self) -> Result<(), AllocError> {
        self.tree.let_go_of_open();
        self.tree.find_signs(self.printer.source)?;
        self.printer.print(&self.tree)?;
        self.tree.clear();
        Ok(())
    }

    /// Takes further events of the source, with their bytes there, and prints each tree that is whole. It fails if memory runs
    /// out.
    fn add(&mut self, events: &[Placed]) -> Result<(), AllocError> {
        for pair in events {
            self.tree.add(self.printer.source, pair)?;
            if self.tree.is_whole() {
                self.print_tree()?;
            }
        }
        Ok(())
    }

    /// Prints what is left after the last event: the text, and its blocks. It fails if memory runs out.
    fn end(self) -> Result<(String, Blocks), AllocError> {
        let Printing {
            mut printer,
            mut tree,
        } = self;
        tree.find_signs(printer.source)?;
        printer.print(&tree)?;
        tree.let_go();
        printer.end()?;
        Ok(printer.into_text())
    }
}

impl EventTaker for Printing<'_> {
    fn take_events(&mut self, events: &[Placed]) -> Result<(), AllocError> {
        self.add(events)
    }
}

/// Prints documents in this style. It fails if memory runs out, or if a line begins after 4 GiB. No clause says what is printed.
impl Print for Style {
    ghost fills = { λ style. fills style.wrap };

    ghost prints = { λ _ _ _ _. Unit };

    fn fills(&self) -> bool {
        self.wrap.fills()
    }

    fn print<E: Events>(
        &self,
        alloc: Global,
        text: &str,
        ladder: &Ladder,
        events: &E,
    ) -> Result<(Page, E::Found), AllocError> {
        let source = Source::new(alloc, text)?;
        let mut printing = Printing::new(alloc, &source, *self, ladder);
        let found = events.hand_to(alloc, &mut printing)?;
        let (text, blocks) = printing.end()?;
        Ok((Page { text, blocks }, found))
    }
}
