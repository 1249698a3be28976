//! The inlines of a document's paragraphs and headings, one after the other.

ghost use Rattle.std.specs.Prelude.{◌≡◌, ◌++◌, IfOk, [], OnOk, map};
ghost use Rattle.tocmark_read_scan.specs.Content.{content_view};
ghost use Rattle.tocmark_read_spans.specs.Definitions.{entry_of};
ghost use Rattle.tocmark_read_inlines.specs.Scan.{scan};
ghost use Rattle.tocmark_read_inlines.specs.Write.{moved, written};
ghost use Rattle.std.specs.List.{fold};
ghost use Rattle.tocmark_read_spans.specs.Role.{roles_of};
ghost use Rattle.tocmark_read_inlines.specs.Inlines.{inlines_view, scan_start, read_inlines_in, bar_step, bars_marked, read_cell_in};

use crate::scan::Scanner;
use crate::write::{Node, write_behind};
use std::alloc::{AllocError, Global};
use tocmark_read_scan::content::Content;
use tocmark_read_scan::syntax::Syntax;
use tocmark_read_spans::definitions::Definitions;
use tocmark_read_spans::link::Bracket;
use tocmark_read_spans::role::{MarkedByte, Role, Roles, Stretch, Target};
use tocmark_read_spans::run::Run;

/// Lists of which nothing but their room counts: each leaf is read in those of the one before it.
#[derive(Drop)]
pub struct SpareLists {
    /// A list for marks.
    pub marks: Vec<MarkedByte>,
    /// A list for runs.
    pub runs: Vec<Run>,
    /// A list for brackets.
    pub brackets: Vec<Bracket>,
}

impl SpareLists {
    /// Lists without room.
    pub fn new(alloc: Global) -> Self
        ensures { (result.marks.items ≡ [])
            × (result.runs.items ≡ []) × (result.brackets.items ≡ []) }
    {
        SpareLists {
            marks: Vec::new(alloc),
            runs: Vec::new(alloc),
            brackets: Vec::new(alloc),
        }
    }
}

/// The nodes of leaves in the order of the document, with ranges in bytes of its source; the targets of
/// their links and images; the texts that are nowhere in the source; and the labels that were looked
/// up in vain, in order and with repetitions.
#[derive(Drop)]
pub struct Inlines {
    /// The nodes.
    pub nodes: Vec<Node>,
    /// The targets, by the numbers of links and images.
    pub targets: Vec<Target>,
    /// The bytes of the texts. A stretch is a part of them.
    pub texts: Vec<u8>,
    /// The labels that were looked up in vain.
    pub missed: Vec<Stretch>,
    /// The lists in which the next leaf is read.
    pub spare: SpareLists,
}

/// A scanner at the front of a text of so many bytes, in lists that are emptied.
#[tactic(auto, unfolding(crate::specs::Inlines::scan_start))]
fn scanner(
    length: usize,
    mut spare: SpareLists,
    targets: Vec<Target>,
    texts: Vec<u8>,
    missed: Vec<Stretch>,
) -> Scanner
    ensures { scan result ≡ scan_start length targets.items texts.items missed.items }
{
    spare.runs.clear();
    spare.brackets.clear();
    Scanner {
        roles: Roles::new(length, spare.marks),
        runs: spare.runs,
        brackets: spare.brackets,
        inactive: 0,
        place: 0,
        resume: 0,
        targets,
        texts,
        missed,
    }
}

/// The inlines with one more leaf, over which the pass has gone: its nodes are at a depth after
/// those of the leaves before it.
fn inlines_behind(
    alloc: Global,
    machine: Scanner,
    content: &Content,
    depth: usize,
    nodes: Vec<Node>,
) -> Result<Inlines, AllocError>
    ensures { IfOk result (λ v.
        inlines_view v
        ≡ record {
          nodes = nodes.items
              ++ map (moved (content_view content.now).places) (written (scan machine).roles depth);
          targets = machine.targets.items;
          texts = machine.texts.items;
          missed = machine.missed.items;
        }) }
{
    let nodes = write_behind(alloc, &machine.roles, depth, content, nodes)?;
    Ok(Inlines {
        nodes,
        targets: machine.targets,
        texts: machine.texts,
        missed: machine.missed,
        spare: SpareLists {
            marks: machine.roles.marks,
            runs: machine.runs,
            brackets: machine.brackets,
        },
    })
}

/// A text of so many bytes is likely to have a mark.
const SHORT: usize = 64;

/// For so many marks room is made at once.
const MARKS: usize = 16;

/// Reads the inlines of one more leaf, at a depth.
#[tactic(auto, unfolding(crate::specs::Inlines::read_inlines_in))]
pub fn read_inlines(
    alloc: Global,
    syntax: Syntax,
    before: Inlines,
    content: &Content,
    depth: usize,
    definitions: &Definitions,
) -> Result<Inlines, AllocError>
    ensures { IfOk result (λ v.
        inlines_view v
        ≡ read_inlines_in syntax (content_view content.now) depth (entry_of definitions.now)
        (inlines_view before)) }
{
    let bytes = content.bytes();
    let nodes = before.nodes;
    let mut machine = scanner(
        bytes.len(),
        before.spare,
        before.targets,
        before.texts,
        before.missed,
    );
    if SHORT <= bytes.len() {
        machine.roles.marks.reserve(MARKS)?;
    }
    machine.read(alloc, syntax, bytes, definitions)?;
    inlines_behind(alloc, machine, content, depth, nodes)
}

/// Lets a text begin with the byte at a place, if it is a bar, and gives the next place.
#[tactic(auto, unfolding(crate::specs::Inlines::bar_step))]
fn mark_bar(roles: &mut Roles, place: usize, byte: u8) -> Result<usize, AllocError>
    ensures { IfOk result (λ next.
        (next, roles_of roles.new) ≡ bar_step (place, roles_of roles.old) byte) }
{
    if byte == b'|' {
        roles.put(place, Role::Fresh)?;
    }
    Ok(place.saturating_add(1))
}

/// Lets a text begin with each bar.
fn mark_bars(roles: &mut Roles, bytes: &[u8]) -> Result<(), AllocError>
    ensures { OnOk result (roles_of roles.new ≡ bars_marked bytes.now (roles_of roles.old)) }
{
    let mut place = 0;
    for byte in bytes {
        place = mark_bar(roles, place, *byte)?;
    }
    Ok(())
}

/// Reads the inlines of one more cell of a table, at a depth: in its content each bar begins a text.
#[tactic(auto, unfolding(crate::specs::Inlines::read_cell_in))]
pub fn read_cell(
    alloc: Global,
    syntax: Syntax,
    before: Inlines,
    content: &Content,
    depth: usize,
    definitions: &Definitions,
) -> Result<Inlines, AllocError>
    ensures { IfOk result (λ v.
        inlines_view v
        ≡ read_cell_in syntax (content_view content.now) depth (entry_of definitions.now)
        (inlines_view before)) }
{
    let bytes = content.bytes();
    let nodes = before.nodes;
    let mut machine = scanner(
        bytes.len(),
        before.spare,
        before.targets,
        before.texts,
        before.missed,
    );
    mark_bars(&mut machine.roles, bytes)?;
    machine.read(alloc, syntax, bytes, definitions)?;
    inlines_behind(alloc, machine, content, depth, nodes)
}
