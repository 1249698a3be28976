//! How near to the source the blocks at the top of a document are printed.

ghost use Rattle.std.specs.Prelude.{◌≡◌};
ghost use Rattle.std.specs.List.{list_any};
ghost use Rattle.tocmark_printing.specs.Kept.{keeps_lines, keeps_some};

use std::alloc::{AllocError, Global};

/// The byte order mark.
const MARK: &str = "\u{feff}";

/// How near to the source a tree at the top is printed.
#[derive(Clone, Copy, PartialEq, Eq)]
pub enum Step {
    /// In the style.
    Styled,
    /// In the source's own spelling.
    Spelled,
    /// By its lines of the source.
    Lines,
    /// By its lines of the source, directly below the block before it if they are neighbours there.
    Attached,
}

impl Step {
    /// Whether the tree keeps its lines.
    pub fn keeps_lines(self) -> bool
        ensures { result ≡ keeps_lines self }
    {
        match self {
            Step::Styled | Step::Spelled => false,
            Step::Lines | Step::Attached => true,
        }
    }
}

/// How near to the source each tree at the top is printed.
#[derive(Drop)]
pub struct Ladder {
    /// For each tree. Those after the last one are styled.
    pub steps: Vec<Step>,
    /// Whether definitions stay as they are spelled.
    pub keeps_definitions: bool,
}

/// Whether some of these trees keep their lines.
fn has_kept(steps: &[Step]) -> bool
    ensures { result ≡ list_any keeps_lines steps.now }
{
    for step in steps {
        if step.keeps_lines() {
            return true;
        }
    }
    false
}

impl Ladder {
    /// All trees in the style. If the text of the first one begins with a byte order mark, it keeps its lines, so that the
    /// mark stays in front. It fails if memory runs out.
    pub fn new(alloc: Global, text: &str) -> Result<Ladder, AllocError> {
        let mut steps = Vec::new(alloc);
        if text.starts_with(MARK) {
            steps.push(Step::Lines)?;
        }
        Ok(Ladder {
            steps,
            keeps_definitions: false,
        })
    }

    /// How near to the source a tree is printed.
    pub fn step(&self, tree: usize) -> Step {
        self.steps.get(tree).copied().unwrap_or(Step::Styled)
    }

    /// Whether some tree keeps its lines.
    pub fn keeps_some(&self) -> bool
        ensures { result ≡ keeps_some self.now }
    {
        has_kept(&self.steps)
    }

    /// Takes a tree one step nearer to the source; false if there is none. One that is apart can also be attached.
    pub fn fall(&mut self, tree: usize, is_apart: bool) -> bool {
        match self.steps.get_mut(tree) {
            Some(step) if *step == Step::Styled => {
                *step = Step::Spelled;
                true
            }
            Some(step) if *step == Step::Spelled => {
                *step = Step::Lines;
                true
            }
            Some(step) if *step == Step::Lines && is_apart => {
                *step = Step::Attached;
                true
            }
            _ => false,
        }
    }
}
