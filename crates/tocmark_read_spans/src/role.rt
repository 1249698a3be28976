//! What the bytes of a leaf's text are.

ghost use Rattle.std.specs.Prelude.{◌≡◌, ◌≤◌, IfOk, IfSome, OnOk, length, map, replicate, slice_set};
ghost use Rattle.tocmark_read_spans.specs.Role.{IsSlot, role_at, roles_of, with_mark};
ghost use Rattle.std.specs.List.{fold};
ghost use Rattle.tocmark_read_spans.specs.declared.role.Role.TheVariants.{Plain, Hidden};

use std::alloc::{AllocError, Global};
use tocmark_event::event::LinkType;
use tocmark_read_scan::basic::set;

/// A stretch of the texts that a document's inlines have beside its source.
#[derive(Clone, Copy)]
pub struct Stretch {
    /// The place of its first byte in these texts.
    pub start: usize,
    /// The place after its last byte.
    pub end: usize,
}

/// What a link or an image leads to: its destination and title without escapes, and the label by
/// which it was looked up, as it is written.
#[derive(Clone, Copy)]
pub struct Target {
    /// How the link or image is written.
    pub link_type: LinkType,
    /// The destination, without escapes.
    pub destination: Stretch,
    /// The title, without escapes; empty where there is none.
    pub title: Stretch,
    /// The label; empty where none was looked up.
    pub id: Stretch,
}

/// A container among inlines. A link or an image has a number: the place of its target.
#[derive(Clone, Copy)]
pub enum Span {
    /// Emphasis.
    Emphasis,
    /// Strong emphasis.
    Strong,
    /// Strikethrough.
    Strikethrough,
    /// A link with its number.
    Link(usize),
    /// An image with its number.
    Image(usize),
    /// A subscript.
    Subscript,
    /// A superscript.
    Superscript,
}

/// An inline without children, other than a text.
#[derive(Clone, Copy)]
pub enum Leaf {
    /// The character of a reference.
    Character(char),
    /// A code span with its text.
    Code(Stretch),
    /// Raw HTML with its text.
    Html(Stretch),
    /// A line ending.
    SoftBreak,
    /// A line ending after a backslash or spaces.
    HardBreak,
    /// A text that isn't as the source has it.
    Text(Stretch),
    /// A reference to a footnote with its name.
    Footnote(Stretch),
    /// Mathematics within a line, with its text.
    InlineMath(Stretch),
    /// Mathematics that is set on lines of its own, with its text.
    DisplayMath(Stretch),
}

/// What a byte of a leaf's text is.
#[derive(Clone, Copy)]
pub enum Role {
    /// A byte of a text.
    Plain,
    /// The first byte of a text, even after another.
    Fresh,
    /// A byte that isn't shown: an escaping backslash, a delimiter, a space at the end of a line.
    Hidden,
    /// The first byte of a container, which ends before a place.
    Open(Span, usize),
    /// The end of a container; reading goes on at a place.
    Close(usize),
    /// The first byte of a leaf, which ends before a place.
    Single(Leaf, usize),
}

/// A byte of a leaf's text that isn't plain, or no longer what it was before.
#[derive(Clone, Copy)]
pub struct MarkedByte {
    /// The byte's place in the text.
    pub place: usize,
    /// What the byte is.
    pub role: Role,
}

/// The roles of the bytes of a leaf's text: each is plain but for its last mark.
#[derive(Drop)]
pub struct Roles {
    /// The number of the text's bytes.
    pub length: usize,
    /// The marks, those of one byte in the order in which they were made.
    pub marks: Vec<MarkedByte>,
    /// Whether some mark is after many at later places: further ones aren't put in order, either.
    pub scattered: bool,
}

/// In front of so many marks at most another one is put.
const FEW: usize = 8;

/// The number of marks after which one more goes: all but the last ones that are at later places, if
/// these are few.
#[tactic(auto, using(crate::proofs::Marks::slot_last, crate::proofs::Marks::slot_down))]
fn slot(marks: &[MarkedByte], place: usize) -> Option<usize>
    ensures within { IfSome result (λ k. k ≤ length marks.now) }
    ensures goes { IfSome result (IsSlot marks.now place) }
{
    let first = marks.len().saturating_sub(FEW);
    for k in (first..marks.len()).rev() {
        if marks[k].place <= place {
            return Some(k + 1);
        }
    }
    if first == 0 { Some(0) } else { None }
}

fn zeros(alloc: Global, count: usize) -> Result<Vec<usize>, AllocError>
    ensures { IfOk result (λ v. v.items ≡ replicate count 0) }
{
    vec![in alloc; 0; count]
}

/// Writes for each byte that has marks the number of its last one.
fn number_marks(numbers: &mut Vec<usize>, marks: &[MarkedByte])
    ensures { map (role_at marks.now) numbers.new.items
        ≡ fold with_mark (map (role_at marks.now) numbers.old.items) marks.now }
{
    for (at, mark) in marks.iter().enumerate() {
        set(numbers, mark.place, at + 1);
    }
}

impl Roles {
    /// So many plain bytes. The list is emptied, and kept for its room.
    pub fn new(length: usize, mut marks: Vec<MarkedByte>) -> Roles
        ensures { roles_of result ≡ replicate length Plain }
    {
        marks.clear();
        Roles {
            length,
            marks,
            scattered: false,
        }
    }

    /// Whether a mark at a place goes after all: it is at no earlier place than the last one, or
    /// marks are in no order.
    fn goes_last(&self, place: usize) -> bool {
        self.scattered || self.marks.last().is_none_or(|mark| mark.place <= place)
    }

    /// Gives the byte at a place a role, by a mark in front of those at later places if these are few.
    #[cold]
    #[inline(never)]
    fn put_between(&mut self, place: usize, role: Role) -> Result<(), AllocError>
        ensures { OnOk result (roles_of self.new ≡ slice_set (roles_of self.old) place role) }
    {
        match slot(&self.marks, place) {
            Some(at) => self.marks.insert(at, MarkedByte { place, role })?,
            None => {
                self.scattered = true;
                self.marks.push(MarkedByte { place, role })?;
            }
        }
        Ok(())
    }

    /// Gives the byte at a place a role; nothing where the text is shorter.
    #[inline(always)]
    pub fn put(&mut self, place: usize, role: Role) -> Result<(), AllocError>
        ensures { OnOk result (roles_of self.new ≡ slice_set (roles_of self.old) place role) }
    {
        if self.goes_last(place) {
            self.marks.push(MarkedByte { place, role })?;
            Ok(())
        } else {
            self.put_between(place, role)
        }
    }

    /// Hides the byte at a place, and gives one a role, in the order of their places.
    #[tactic(auto, using(crate::proofs::Marks::set_again, crate::proofs::Marks::set_apart))]
    #[inline(always)]
    pub fn put_behind(&mut self, hidden: usize, place: usize, role: Role) -> Result<(), AllocError>
        ensures { OnOk result (roles_of self.new
            ≡ slice_set (slice_set (roles_of self.old) hidden Hidden) place role) }
    {
        if hidden < place {
            self.put(hidden, Role::Hidden)?;
            self.put(place, role)
        } else if place < hidden {
            self.put(place, role)?;
            self.put(hidden, Role::Hidden)
        } else {
            self.put(place, role)
        }
    }

    /// For each byte the number of its last mark, from 1 on; 0 where it has none.
    pub fn numbers(&self, alloc: Global) -> Result<Vec<usize>, AllocError>
        ensures { IfOk result (λ v.
            map (role_at self.now.marks.items) v.items ≡ roles_of self.now) }
    {
        let mut numbers = zeros(alloc, self.length)?;
        number_marks(&mut numbers, &self.marks);
        Ok(numbers)
    }

    /// The role of a mark, by its number.
    pub fn role_at(&self, number: usize) -> Role
        ensures { result ≡ role_at self.now.marks.items number }
    {
        if number == 0 {
            return Role::Plain;
        }
        self.marks
            .get(number - 1)
            .map_or(Role::Plain, |mark| mark.role)
    }
}
