//! What is kept of an open container.

ghost use Rattle.std.specs.Prelude.{◌≡◌, IfOk, OnErr, OnOk};
ghost use Rattle.tocmark_write_containers.specs.FrameOf.{content_view};
ghost use Rattle.tocmark_write_containers.specs.Outside.{begins_double};
ghost use Rattle.tocmark_spelling.specs.Opening.{bullet_of};
ghost use Rattle.tocmark_spelling.specs.Page.{Delimited, Listed};
ghost use Rattle.tocmark_spelling.specs.Places.{wider, with_width};
ghost use Rattle.tocmark_spelling.specs.Stretch.{is_bullet_hyphen};

use std::alloc::{AllocError, Global};
use tocmark_spelling::list_choice::ListChoice;

/// What the opening of a container chose, and what its children changed since.
#[derive(Drop)]
pub enum OpeningChoice {
    Plain,
    /// A heading: whether it is underlined.
    Underlined(bool),
    /// A fenced code block: its fence.
    Fence(String),
    HtmlEnds {
        /// Whether a blank line ends the block.
        blank: bool,
        /// Whether its end is in it.
        closed: bool,
    },
    Listed(ListChoice),
    /// A definition: whether a paragraph is among its children.
    Defined(bool),
    /// A table: the widths of its cells that ended, in characters.
    Headers(Vec<usize>),
    /// A cell: its width so far, in characters.
    Width(usize),
    /// Emphasis and its like: what is before and after the body.
    Delimited {
        before: String,
        after: String,
    },
    /// A link or image: whether its id is in place of its body.
    Named(bool),
}

fn copied_widths(alloc: Global, widths: &[usize]) -> Result<Vec<usize>, AllocError>
    ensures { IfOk result (λ copy. copy.items ≡ widths.now) }
{
    let mut copy = Vec::new(alloc);
    copy.extend_from_slice(widths)?;
    Ok(copy)
}

fn copied_delimiters(alloc: Global, before: &str, after: &str) -> Result<OpeningChoice, AllocError>
    ensures { IfOk result (λ copy. content_view copy ≡ Delimited before.now after.now) }
{
    let first = String::from_str(alloc, before)?;
    let last = String::from_str(alloc, after)?;
    Ok(OpeningChoice::Delimited {
        before: first,
        after: last,
    })
}

/// The token of a list without numbers.
fn bullet_in(choice: ListChoice) -> Option<char>
    ensures { result ≡ bullet_of (Listed choice) }
{
    if choice.number.is_none() {
        Some(choice.token)
    } else {
        None
    }
}

impl OpeningChoice {
    /// An equal content.
    pub fn copied(&self, alloc: Global) -> Result<OpeningChoice, AllocError>
        ensures { IfOk result (λ copy. content_view copy ≡ content_view self.now) }
    {
        match self {
            OpeningChoice::Plain => Ok(OpeningChoice::Plain),
            OpeningChoice::Underlined(underlined) => Ok(OpeningChoice::Underlined(*underlined)),
            OpeningChoice::Fence(fence) => Ok(OpeningChoice::Fence(String::from_str(
                alloc,
                fence.as_str(),
            )?)),
            OpeningChoice::HtmlEnds { blank, closed } => Ok(OpeningChoice::HtmlEnds {
                blank: *blank,
                closed: *closed,
            }),
            OpeningChoice::Listed(choice) => Ok(OpeningChoice::Listed(*choice)),
            OpeningChoice::Defined(has_paragraph) => Ok(OpeningChoice::Defined(*has_paragraph)),
            OpeningChoice::Headers(widths) => Ok(OpeningChoice::Headers(copied_widths(
                alloc, widths,
            )?)),
            OpeningChoice::Width(width) => Ok(OpeningChoice::Width(*width)),
            OpeningChoice::Delimited { before, after } => {
                copied_delimiters(alloc, before.as_str(), after.as_str())
            }
            OpeningChoice::Named(by_id) => Ok(OpeningChoice::Named(*by_id)),
        }
    }

    /// The token of a bullet list.
    pub fn bullet(&self) -> Option<char>
        ensures { result ≡ bullet_of (content_view self.now) }
    {
        match self {
            OpeningChoice::Listed(choice) => bullet_in(*choice),
            _ => None,
        }
    }

    /// Whether it is a bullet list with hyphens as markers.
    pub fn is_hyphen_list(&self) -> bool
        ensures { result ≡ is_bullet_hyphen (content_view self.now) }
    {
        self.bullet() == Some('-')
    }

    /// Whether `~~` is before the body.
    pub fn is_double(&self) -> bool
        ensures { result ≡ begins_double (content_view self.now) }
    {
        match self {
            OpeningChoice::Delimited { before, .. } => before.as_str() == "~~",
            _ => false,
        }
    }

    /// Makes a cell wider by so many characters. An `Err` says that the count would be too large.
    pub fn widen(&mut self, characters: usize) -> Result<(), AllocError>
        ensures wider { OnOk result
            (content_view self.new ≡ wider characters (content_view self.old)) }
        ensures stays { OnErr result (content_view self.new ≡ content_view self.old) }
    {
        if let OpeningChoice::Width(width) = self {
            *width = width.checked_add(characters).ok_or(AllocError)?;
        }
        Ok(())
    }

    /// Adds to a table a cell of this width, in characters.
    pub fn add_header(&mut self, width: usize) -> Result<(), AllocError>
        ensures longer { OnOk result
            (content_view self.new ≡ with_width width (content_view self.old)) }
        ensures stays { OnErr result (content_view self.new ≡ content_view self.old) }
    {
        if let OpeningChoice::Headers(widths) = self {
            widths.push(width)?;
        }
        Ok(())
    }
}
