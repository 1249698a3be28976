//! Where the ends of HTML blocks are in a text, told by how many bytes are left from there on.

ghost use Rattle.std.specs.Prelude.{◌≡◌, ◌≤◌, [], length, slice_get, unwrap_or};
ghost use Rattle.std.specs.Str.{str_to_ascii_lowercase};
ghost use Rattle.tocmark_spelling.specs.Words.{begins_with};
ghost use Rattle.tocmark_write_blocks.specs.BlockEnds.{last_of, ends_in, left_with, ends_with, begins_end, may_begin};
ghost use Rattle.tocmark_write_blocks.specs.BlockEnds.{stands_before, tag_stands, closed_by};

/// How many bytes of a text are left from the first place of each end on; 0 where there is none.
#[derive(Clone, Copy)]
pub struct BlockEnds {
    /// From `-->` on.
    pub comment: usize,
    /// From `?>` on.
    pub instruction: usize,
    /// From `]]>` on.
    pub character_data: usize,
    /// From `>` on.
    pub declaration: usize,
    /// From `</pre>` on, in capitals or not, and so below.
    pub pre: usize,
    /// From `</script>` on.
    pub script: usize,
    /// From `</style>` on.
    pub style: usize,
    /// From `</textarea>` on.
    pub textarea: usize,
}

/// Those of the empty text.
pub fn no_ends() -> BlockEnds
    ensures { result ≡ ends_in [] }
{
    BlockEnds {
        comment: 0,
        instruction: 0,
        character_data: 0,
        declaration: 0,
        pre: 0,
        script: 0,
        style: 0,
        textarea: 0,
    }
}

/// Whether a text begins with a piece.
pub(crate) fn begins_with(text: &[u8], piece: &[u8]) -> bool
    ensures { result ≡ begins_with text.now piece.now }
{
    text.starts_with(piece)
}

fn left_with(text: &[u8], piece: &[u8], behind: usize) -> usize
    ensures { result ≡ left_with piece.now text.now behind }
{
    if begins_with(text, piece) {
        text.len()
    } else {
        behind
    }
}

/// Whether the end of a comment, an instruction, character data or a declaration begins with a byte.
fn begins_end(byte: u8) -> bool
    ensures { result ≡ begins_end byte }
{
    byte == b'>' || byte == b'-' || byte == b'?' || byte == b']'
}

fn first_byte(text: &[u8]) -> u8
    ensures { result ≡ unwrap_or (slice_get text.now 0) 0 }
{
    text.first().copied().unwrap_or(0)
}

/// Whether some end may be at the front of a text, by its first byte.
fn may_begin(text: &[u8], lower: &[u8]) -> bool
    ensures { result ≡ may_begin text.now lower.now }
{
    begins_end(first_byte(text)) || first_byte(lower) == b'<'
}

/// One byte more in front, each end compared.
fn compared_ends(text: &[u8], lower: &[u8], behind: BlockEnds) -> BlockEnds
    ensures { result ≡ ends_with text.now lower.now behind }
{
    BlockEnds {
        comment: left_with(text, b"-->", behind.comment),
        instruction: left_with(text, b"?>", behind.instruction),
        character_data: left_with(text, b"]]>", behind.character_data),
        declaration: left_with(text, b">", behind.declaration),
        pre: left_with(lower, b"</pre>", behind.pre),
        script: left_with(lower, b"</script>", behind.script),
        style: left_with(lower, b"</style>", behind.style),
        textarea: left_with(lower, b"</textarea>", behind.textarea),
    }
}

/// One byte more in front. The text is given twice, as it is and in lower case.
#[tactic(auto, using(crate::proofs::PlaceLemmas::no_end))]
fn ends_with(text: &[u8], lower: &[u8], behind: BlockEnds) -> BlockEnds
    ensures { result ≡ ends_with text.now lower.now behind }
{
    if may_begin(text, lower) {
        compared_ends(text, lower, behind)
    } else {
        behind
    }
}

/// The last bytes of a text, as many as that; all of it where it has fewer.
pub fn last_of(text: &[u8], left: usize) -> &[u8]
    ensures { result.now ≡ last_of left text.now }
{
    &text[text.len().saturating_sub(left)..]
}

/// The ends in the last `to` bytes of a text, by those in the last `from` bytes.
pub fn ends_between(text: &[u8], lower: &[u8], from: usize, to: usize, ends: BlockEnds) -> BlockEnds
    requires lower { lower.now ≡ str_to_ascii_lowercase text.now }
    requires order { from ≤ to }
    requires within { to ≤ length text.now }
    requires ends { ends ≡ ends_in (last_of from text.now) }
    ensures { result ≡ ends_in (last_of to text.now) }
{
    let mut ends = ends;
    let mut left = from;
    while left < to {
        left += 1;
        ends = ends_with(last_of(text, left), last_of(lower, left), ends);
    }
    ends
}

fn stands_before(after: usize, size: usize, left: usize) -> bool
    ensures { result ≡ stands_before after size left }
{
    size <= left && after <= left - size
}

fn tag_stands(after: usize, ends: BlockEnds) -> bool
    ensures { result ≡ tag_stands after ends }
{
    stands_before(after, 6, ends.pre)
        || stands_before(after, 9, ends.script)
        || stands_before(after, 8, ends.style)
        || stands_before(after, 11, ends.textarea)
}

/// Whether the end of the HTML block that begins so is before the last `after` bytes of a text:
/// that of the comment, instruction, character data or declaration, and else the end tag of some
/// raw text.
pub fn closed_by(opening: &[u8], after: usize, ends: BlockEnds) -> bool
    ensures { result ≡ closed_by opening.now after ends }
{
    if begins_with(opening, b"<!--") {
        stands_before(after, 3, ends.comment)
    } else if begins_with(opening, b"<?") {
        stands_before(after, 2, ends.instruction)
    } else if begins_with(opening, b"<![CDATA[") {
        stands_before(after, 3, ends.character_data)
    } else if begins_with(opening, b"<!") {
        stands_before(after, 1, ends.declaration)
    } else {
        tag_stands(after, ends)
    }
}
