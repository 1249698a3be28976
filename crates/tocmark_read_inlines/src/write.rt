//! The second pass over a leaf's text: from what each byte is to nodes.

ghost use Rattle.std.specs.Prelude.{◌≡◌, ◌+◌, ◌^◌, ◌<◌, ◌≤◌, ◌++◌, IfOk, OnOk, map};
ghost use Rattle.std.specs.List.{fold};
ghost use Rattle.tocmark_read_scan.specs.Content.{content_view};
ghost use Rattle.tocmark_read_spans.specs.Role.{role_at, roles_of};
ghost use Rattle.tocmark_read_inlines.specs.Write.{writing, pushed, flushed, opened, closed, single, gone_on, shown, role_step, passed, mark_step, is_between, ascend, written, moved};

use std::alloc::{AllocError, Global};
use tocmark_read_scan::content::Content;
use tocmark_read_spans::role::{Leaf, MarkedByte, Role, Roles, Span};

/// What is at a node.
#[derive(Clone, Copy)]
pub enum InlineKind {
    /// The bytes of the node's range.
    Text,
    /// A container; what lies in it are the nodes after it that are deeper.
    Span(Span),
    /// An inline without children, other than a text.
    Leaf(Leaf),
}

/// An inline, from its first byte to before its end.
#[derive(Clone, Copy)]
pub struct Node {
    /// Its depth: a node lies in the nearest container before it whose depth is less.
    pub depth: usize,
    /// What it is.
    pub item: InlineKind,
    /// The place of its first byte.
    pub start: usize,
    /// The place after its last byte.
    pub end: usize,
}

/// The nodes so far, the depth, and where the open text began.
#[derive(Drop)]
pub struct Writer {
    /// The nodes so far.
    pub nodes: Vec<Node>,
    /// The depth of the next node.
    pub depth: usize,
    /// The place of the open text's first byte, if a text is open.
    pub text: Option<usize>,
    /// The place of the next byte.
    pub place: usize,
    /// The place from which roles are read again: bytes before it are part of a leaf or an ending.
    pub resume: usize,
}

impl Writer {
    #[tactic(auto, unfolding(crate::specs::Write::pushed))]
    fn push(&mut self, item: InlineKind, start: usize, end: usize) -> Result<(), AllocError>
        ensures { OnOk result (writing self.new ≡ pushed item start end (writing self.old)) }
    {
        self.nodes.push(Node {
            depth: self.depth,
            item,
            start,
            end,
        })?;
        Ok(())
    }

    /// Ends the open text.
    #[tactic(auto, unfolding(crate::specs::Write::flushed))]
    fn flush(&mut self) -> Result<(), AllocError>
        ensures { OnOk result (writing self.new ≡ flushed (writing self.old)) }
    {
        match self.text {
            Some(start) => {
                self.push(InlineKind::Text, start, self.place)?;
                self.text = None;
                Ok(())
            }
            None => Ok(()),
        }
    }

    #[tactic(auto, unfolding(crate::specs::Write::opened))]
    fn open(&mut self, span: Span, end: usize) -> Result<(), AllocError>
        ensures { OnOk result (writing self.new ≡ opened span end (writing self.old)) }
    {
        self.flush()?;
        self.push(InlineKind::Span(span), self.place, end)?;
        self.depth = self.depth.saturating_add(1);
        Ok(())
    }

    #[tactic(auto, unfolding(crate::specs::Write::closed))]
    fn close(&mut self, end: usize) -> Result<(), AllocError>
        ensures { OnOk result (writing self.new ≡ closed end (writing self.old)) }
    {
        self.flush()?;
        self.depth = self.depth.saturating_sub(1);
        self.resume = end;
        Ok(())
    }

    #[tactic(auto, unfolding(crate::specs::Write::single))]
    fn put(&mut self, leaf: Leaf, end: usize) -> Result<(), AllocError>
        ensures { OnOk result (writing self.new ≡ single leaf end (writing self.old)) }
    {
        self.flush()?;
        self.push(InlineKind::Leaf(leaf), self.place, end)?;
        self.resume = end;
        Ok(())
    }

    /// Goes on with the open text, or begins one.
    fn go_on(&mut self)
        ensures { writing self.new ≡ gone_on (writing self.old) }
    {
        if self.text.is_none() {
            self.text = Some(self.place);
        }
    }

    #[tactic(auto, unfolding(crate::specs::Write::shown))]
    #[inline(always)]
    fn show(&mut self, role: Role) -> Result<(), AllocError>
        ensures { OnOk result (writing self.new ≡ shown role (writing self.old)) }
    {
        match role {
            Role::Plain => {
                self.go_on();
                Ok(())
            }
            Role::Fresh => {
                self.flush()?;
                self.text = Some(self.place);
                Ok(())
            }
            Role::Hidden => self.flush(),
            Role::Open(span, end) => self.open(span, end),
            Role::Close(end) => self.close(end),
            Role::Single(leaf, end) => self.put(leaf, end),
        }
    }

    #[tactic(auto, unfolding(crate::specs::Write::role_step))]
    #[inline(always)]
    fn step(&mut self, role: Role) -> Result<(), AllocError>
        ensures { OnOk result (writing self.new ≡ role_step (writing self.old) role) }
    {
        if self.resume <= self.place {
            self.show(role)?;
        }
        self.place = self.place.saturating_add(1);
        Ok(())
    }

    /// Passes plain bytes up to a place.
    #[tactic(auto, unfolding(crate::specs::Write::passed))]
    fn pass(&mut self, end: usize)
        ensures { writing self.new ≡ passed end (writing self.old) }
    {
        let from = self.resume.max(self.place);
        if from < end && self.text.is_none() {
            self.text = Some(from);
        }
        self.place = end;
    }

    /// Passes plain bytes up to a mark, and takes the byte that has it.
    #[tactic(auto, unfolding(crate::specs::Write::mark_step))]
    #[inline(always)]
    fn step_to(&mut self, mark: MarkedByte) -> Result<(), AllocError>
        ensures { OnOk result (writing self.new ≡ mark_step (writing self.old) mark) }
    {
        self.pass(mark.place);
        self.step(mark.role)
    }

    /// Takes the bytes up to a place, where these marks are in order.
    fn take_marks(&mut self, marks: &[MarkedByte], end: usize) -> Result<(), AllocError>
        ensures { OnOk result (writing self.new
            ≡ passed end (fold mark_step (writing self.old) marks.now)) }
    {
        for mark in marks {
            self.step_to(*mark)?;
        }
        self.pass(end);
        Ok(())
    }

    /// Takes the byte at a place by the number of its mark. One without a mark is passed later on.
    #[tactic(auto, using(crate::proofs::Sparse::plain_next))]
    fn take_number(&mut self, roles: &Roles, place: usize, number: usize) -> Result<(), AllocError>
        requires { (self.old.place ≤ place) × (place + 1 < 2 ^ 64) }
        ensures role { OnOk result (passed (place + 1) (writing self.new)
            ≡ role_step (passed place (writing self.old)) (role_at roles.now.marks.items number)) }
        ensures place { OnOk result (self.new.place ≤ place + 1) }
    {
        if number == 0 {
            return Ok(());
        }
        self.step_to(MarkedByte {
            place,
            role: roles.role_at(number),
        })
    }

    /// Takes the bytes of a text from its front, by the numbers of their marks.
    fn take_numbers(&mut self, roles: &Roles, numbers: &[usize]) -> Result<(), AllocError>
        requires { self.old.place ≡ 0 }
        ensures { OnOk result (writing self.new
            ≡ fold role_step (writing self.old)
            (map (role_at roles.now.marks.items) numbers.now)) }
    {
        for (place, number) in numbers.iter().enumerate() {
            self.take_number(roles, place, *number)?;
        }
        self.pass(numbers.len());
        Ok(())
    }

    /// Takes the bytes of a text from its front, where its marks aren't in order.
    fn take_roles(&mut self, alloc: Global, roles: &Roles) -> Result<(), AllocError>
        requires { self.old.place ≡ 0 }
        ensures { OnOk result (writing self.new
            ≡ fold role_step (writing self.old) (roles_of roles.now)) }
    {
        let numbers = roles.numbers(alloc)?;
        self.take_numbers(roles, &numbers)
    }
}

/// Whether a mark is from a place on and before another.
#[tactic(auto, unfolding(crate::specs::Write::is_between))]
fn is_between(mark: MarkedByte, place: usize, end: usize) -> bool
    ensures { result ≡ is_between mark place end }
{
    place <= mark.place && mark.place < end
}

/// Whether each mark is after the one before it, and all of them before a place.
fn ascend(marks: &[MarkedByte], end: usize) -> bool
    ensures { result ≡ ascend 0 end marks.now }
{
    let mut place = 0usize;
    for mark in marks {
        if !is_between(*mark, place, end) {
            return false;
        }
        place = mark.place.saturating_add(1);
    }
    true
}

/// Writes the nodes of the roles of a text's bytes after others, at a depth. There is room for a text
/// and a node for each mark from the start.
#[tactic(auto, using(crate::proofs::Sparse::in_order, crate::proofs::Behind::written_behind))]
fn write(
    alloc: Global,
    roles: &Roles,
    depth: usize,
    mut nodes: Vec<Node>,
) -> Result<Vec<Node>, AllocError>
    ensures { IfOk result (λ v. v.items ≡ nodes.items ++ written (roles_of roles.now) depth) }
{
    nodes.reserve(roles.marks.len().saturating_mul(2).saturating_add(1))?;
    let mut writer = Writer {
        nodes,
        depth,
        text: None,
        place: 0,
        resume: 0,
    };
    if ascend(&roles.marks, roles.length) {
        writer.take_marks(&roles.marks, roles.length)?;
    } else {
        writer.take_roles(alloc, roles)?;
    }
    writer.flush()?;
    Ok(writer.nodes)
}

/// The node with its range in the source, where each byte of the text stands for a range.
#[tactic(auto, unfolding(crate::specs::Write::moved))]
fn moved(content: &Content, node: Node) -> Node
    ensures { result ≡ moved (content_view content.now).places node }
{
    let first = content.range(node.start);
    let last = content.range(node.end.saturating_sub(1));
    Node {
        start: first.0,
        end: last.1,
        ..node
    }
}

/// Gives nodes their ranges in the source.
fn move_all(content: &Content, nodes: &mut [Node])
    ensures { nodes.new ≡ map (moved (content_view content.now).places) nodes.old }
{
    for node in nodes.iter_mut() {
        *node = moved(content, *node);
    }
}

/// Writes the nodes of the roles of a text's bytes after others, at a depth and with their ranges in
/// the source.
pub fn write_behind(
    alloc: Global,
    roles: &Roles,
    depth: usize,
    content: &Content,
    nodes: Vec<Node>,
) -> Result<Vec<Node>, AllocError>
    ensures { IfOk result (λ v. v.items
        ≡ nodes.items
        ++ map (moved (content_view content.now).places) (written (roles_of roles.now) depth)) }
{
    let count = nodes.len();
    let mut nodes = write(alloc, roles, depth, nodes)?;
    move_all(content, &mut nodes[count..]);
    Ok(nodes)
}
