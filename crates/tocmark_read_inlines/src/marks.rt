//! Which bytes can be more than a byte of a text.

ghost use Rattle.std.specs.Prelude.{◌≡◌, drop};
ghost use Rattle.std.specs.List.{prefix_len};
ghost use Rattle.tocmark_read_scan.specs.Basic.{plus};
ghost use Rattle.tocmark_read_inlines.specs.Scan.{is_note_end_in, is_mark, is_tilde_in, is_caret_in, is_dollar_in, is_any_mark, is_quiet, is_mark_in, knows_all, extends_inlines};

use tocmark_read_scan::basic::rest;
use tocmark_read_scan::syntax::{Names, Syntax};

/// Whether a byte can be more than one of a text.
#[tactic(auto, unfolding(crate::specs::Scan::is_mark))]
pub(crate) fn is_mark(byte: u8) -> bool
    ensures { result ≡ is_mark byte }
{
    let bracket = byte == b'[' || byte == b'!' || byte == b']' || byte == b'<';
    let delimiter = byte == b'`' || byte == b'*' || byte == b'_';
    bracket || delimiter || byte == b'\\' || byte == b'&' || byte == b'\n'
}

// Each mark of some reading is at its own place, and a comma at every other place.
static MARKS: [u8; 256] = *b"\
    ,,,,,,,,,,\n,,,,,,,,,,,,,,,,,,,,,\
    ,!,,$,&,,,*,,,,,,,,,,,,,,,,,<,,,\
    ,,,,,,,,,,,,,,,,,,,,,,,,,,,[\\]^_\
    `,,,,,,,,,,,,,,,,,,,,,,,,,,,,,~,\
    ,,,,,,,,,,,,,,,,,,,,,,,,,,,,,,,,\
    ,,,,,,,,,,,,,,,,,,,,,,,,,,,,,,,,\
    ,,,,,,,,,,,,,,,,,,,,,,,,,,,,,,,,\
    ,,,,,,,,,,,,,,,,,,,,,,,,,,,,,,,,";

/// Whether a byte can be more than one of a text in some reading.
fn is_any_mark(byte: u8) -> bool
    ensures { result ≡ is_any_mark byte }
{
    MARKS[byte as usize] != b','
}

/// How many bytes at the front are one of a text in each reading.
fn quiet_length(bytes: &[u8]) -> usize
    ensures { result ≡ prefix_len is_quiet bytes.now }
{
    bytes.iter().take_while(|byte| !is_any_mark(**byte)).count()
}

/// The place after such bytes, the first of which is at a place, and the bytes from there on.
pub(crate) fn skip_quiet(bytes: &[u8], place: usize) -> (usize, &[u8])
    ensures place { result.0 ≡ plus place (prefix_len is_quiet bytes.now) }
    ensures bytes { result.1.now ≡ drop (prefix_len is_quiet bytes.now) bytes.now }
{
    let length = quiet_length(bytes);
    (place.saturating_add(length), rest(bytes, length))
}

/// Whether a byte is a tilde, where strikethrough or subscripts are read.
#[tactic(auto, unfolding(crate::specs::Scan::is_tilde_in))]
pub(crate) fn is_tilde_in(syntax: Syntax, byte: u8) -> bool
    ensures { result ≡ is_tilde_in syntax byte }
{
    (syntax.strikethrough || syntax.subscript) && byte == b'~'
}

/// Whether a byte is a caret, where superscripts are read.
#[tactic(auto, unfolding(crate::specs::Scan::is_caret_in))]
pub(crate) fn is_caret_in(syntax: Syntax, byte: u8) -> bool
    ensures { result ≡ is_caret_in syntax byte }
{
    syntax.superscript && byte == b'^'
}

/// Whether a byte is a dollar sign, where mathematics is read.
#[tactic(auto, unfolding(crate::specs::Scan::is_dollar_in))]
pub(crate) fn is_dollar_in(syntax: Syntax, byte: u8) -> bool
    ensures { result ≡ is_dollar_in syntax byte }
{
    syntax.math && byte == b'$'
}

/// Whether a byte can be more than one of a text, in an extension or in CommonMark.
#[tactic(auto, unfolding(crate::specs::Scan::is_mark_in))]
pub(crate) fn is_mark_in(syntax: Syntax, byte: u8) -> bool
    ensures { result ≡ is_mark_in syntax byte }
{
    is_tilde_in(syntax, byte)
        || is_caret_in(syntax, byte)
        || is_dollar_in(syntax, byte)
        || is_mark(byte)
}

/// Whether a byte is a closing bracket, where footnotes are read.
#[tactic(auto, unfolding(crate::specs::Scan::is_note_end_in))]
pub(crate) fn is_note_end_in(syntax: Syntax, byte: u8) -> bool
    ensures { result ≡ is_note_end_in syntax byte }
{
    syntax.footnotes && byte == b']'
}

/// Whether all names of character references are known.
fn knows_all(names: Names) -> bool
    ensures { result ≡ knows_all names }
{
    match names {
        Names::Four => false,
        Names::All => true,
    }
}

/// Whether some extension has a say in the inlines of a leaf.
#[tactic(auto, unfolding(crate::specs::Scan::extends_inlines))]
pub(crate) fn extends_inlines(syntax: Syntax) -> bool
    ensures { result ≡ extends_inlines syntax }
{
    syntax.strikethrough
        || syntax.subscript
        || syntax.superscript
        || syntax.math
        || syntax.footnotes
        || syntax.tables
        || knows_all(syntax.names)
}
