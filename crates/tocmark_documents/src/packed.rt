//! Events with their ranges from their packed form.
//!
//! `specs/Packed.antt` defines the form: a byte for each kind of event, and the parts in their order. The texts of the
//! events are lent from the bytes.

ghost use Rattle.std.specs.Prelude.{◌≡◌, ◌≤◌, ◌++◌, ◌∷◌, [], Bool, ℕ, IfErr, IfNone, IfOk, IfSome, List, Option, map, string_bytes};
ghost use Rattle.std.specs.Option.{option_map};
ghost use Rattle.tocmark_event.specs.Text.{text_of};
ghost use Rattle.tocmark_event.specs.View.{attribute_view, code_view, event_view, tag_view};
ghost use Rattle.tocmark_json.specs.Json.{pair_view};
ghost use Rattle.tocmark_documents.specs.Packed.{alignment_byte, level_byte, link_byte, metadata_byte, packed_attribute, packed_byte, packed_code, packed_end, packed_event, packed_link, packed_list, packed_number, packed_option, packed_pair, packed_pairs, packed_range, packed_tag, packed_text, quote_byte, truth_byte};
ghost use Rattle.tocmark_documents.specs.Unpacked.{IsNotPacked, Refuses, own_attribute, own_code, own_event, own_link, own_pair, own_tag, own_text};
ghost use Rattle.tocmark_documents.specs.declared.packed.Fault.TheVariants.{OutOfMemory as no_memory};
ghost use Rattle.tocmark_documents.specs.declared.packed.PackedError.TheVariants.{OutOfMemory as out_of_memory};

use std::alloc::{AllocError, AllocFailed, Global};
use std::fmt;
use tocmark_event::event::{
    Alignment, BlockQuoteKind, CodeBlockKind, CowStr, Event, HeadingLevel, LinkType,
    MetadataBlockKind, Tag, TagEnd,
};

/// Why bytes aren't the packed form of events.
#[derive(Clone, Copy, Debug, PartialEq, Eq)]
pub enum PackedError {
    /// No event begins after so many events.
    Event(usize),
    /// Memory ran out.
    OutOfMemory,
}

/// Why no value begins at a place.
#[derive(Clone, Copy, Debug, PartialEq, Eq)]
enum Fault {
    /// The bytes there begin with no such value.
    NoneBegins,
    /// Memory ran out.
    OutOfMemory,
}

/// What is left of the bytes.
#[derive(Drop)]
struct Packed<'a> {
    rest: &'a [u8],
}

impl<'a> Packed<'a> {
    fn byte(&mut self) -> Result<u8, Fault>
        ensures read { IfOk result (λ byte. self.old.rest.now ≡ byte ∷ self.new.rest.now) }
        ensures refused { IfErr result (Refuses (packed_byte (λ (b : ℕ). b)) self.old.rest.now) }
    {
        match self.rest.split_first() {
            Some((byte, rest)) => {
                self.rest = rest;
                Ok(*byte)
            }
            None => Err(Fault::NoneBegins),
        }
    }

    fn number(&mut self) -> Result<u64, Fault>
        ensures read { IfOk result (λ n. self.old.rest.now ≡ packed_number n ++ self.new.rest.now) }
        ensures refused { IfErr result (Refuses packed_number self.old.rest.now) }
    {
        match self.rest.split_first_chunk::<8>() {
            Some((digits, rest)) => {
                self.rest = rest;
                Ok(number_of(*digits))
            }
            None => Err(Fault::NoneBegins),
        }
    }

    fn text(&mut self) -> Result<CowStr<'a>, Fault>
        ensures read { IfOk result (λ text.
            self.old.rest.now ≡ packed_text (text_of text) ++ self.new.rest.now) }
        ensures refused { IfErr result (Refuses own_text self.old.rest.now) }
    {
        let length = self.number()? as usize;
        match self.rest.split_at_checked(length) {
            Some((bytes, rest)) => match std::str::from_utf8(bytes) {
                Ok(text) => {
                    self.rest = rest;
                    Ok(CowStr::Borrowed(text))
                }
                Err(_) => Err(Fault::NoneBegins),
            },
            None => Err(Fault::NoneBegins),
        }
    }

    fn truth(&mut self) -> Result<bool, Fault>
        ensures read { IfOk result (λ truth.
            self.old.rest.now ≡ packed_byte truth_byte truth ++ self.new.rest.now) }
        ensures refused { IfErr result (Refuses (packed_byte truth_byte) self.old.rest.now) }
    {
        match self.byte()? {
            0 => Ok(false),
            1 => Ok(true),
            _ => Err(Fault::NoneBegins),
        }
    }

    fn level(&mut self) -> Result<HeadingLevel, Fault>
        ensures read { IfOk result (λ level.
            self.old.rest.now ≡ packed_byte level_byte level ++ self.new.rest.now) }
        ensures refused { IfErr result (Refuses (packed_byte level_byte) self.old.rest.now) }
    {
        match self.byte()? {
            1 => Ok(HeadingLevel::H1),
            2 => Ok(HeadingLevel::H2),
            3 => Ok(HeadingLevel::H3),
            4 => Ok(HeadingLevel::H4),
            5 => Ok(HeadingLevel::H5),
            6 => Ok(HeadingLevel::H6),
            _ => Err(Fault::NoneBegins),
        }
    }

    fn optional_text(&mut self) -> Result<Option<CowStr<'a>>, Fault>
        ensures read { IfOk result (λ text. self.old.rest.now
            ≡ packed_option packed_text (option_map text_of text) ++ self.new.rest.now) }
        ensures refused { IfErr result (Refuses (packed_option own_text) self.old.rest.now) }
    {
        if self.truth()? {
            Ok(Some(self.text()?))
        } else {
            Ok(None)
        }
    }

    fn quote(&mut self) -> Result<BlockQuoteKind, Fault>
        ensures read { IfOk result (λ kind.
            self.old.rest.now ≡ packed_byte quote_byte kind ++ self.new.rest.now) }
        ensures refused { IfErr result (Refuses (packed_byte quote_byte) self.old.rest.now) }
    {
        match self.byte()? {
            0 => Ok(BlockQuoteKind::Note),
            1 => Ok(BlockQuoteKind::Tip),
            2 => Ok(BlockQuoteKind::Important),
            3 => Ok(BlockQuoteKind::Warning),
            4 => Ok(BlockQuoteKind::Caution),
            _ => Err(Fault::NoneBegins),
        }
    }

    fn optional_quote(&mut self) -> Result<Option<BlockQuoteKind>, Fault>
        ensures read { IfOk result (λ kind. self.old.rest.now
            ≡ packed_option (packed_byte quote_byte) kind ++ self.new.rest.now) }
        ensures refused { IfErr result
            (Refuses (packed_option (packed_byte quote_byte)) self.old.rest.now) }
    {
        if self.truth()? {
            Ok(Some(self.quote()?))
        } else {
            Ok(None)
        }
    }

    fn optional_number(&mut self) -> Result<Option<u64>, Fault>
        ensures read { IfOk result (λ number. self.old.rest.now
            ≡ packed_option packed_number number ++ self.new.rest.now) }
        ensures refused { IfErr result (Refuses (packed_option packed_number) self.old.rest.now) }
    {
        if self.truth()? {
            Ok(Some(self.number()?))
        } else {
            Ok(None)
        }
    }

    fn alignment(&mut self) -> Result<Alignment, Fault>
        ensures read { IfOk result (λ alignment. self.old.rest.now
            ≡ packed_byte alignment_byte alignment ++ self.new.rest.now) }
        ensures refused { IfErr result (Refuses (packed_byte alignment_byte) self.old.rest.now) }
    {
        match self.byte()? {
            0 => Ok(Alignment::None),
            1 => Ok(Alignment::Left),
            2 => Ok(Alignment::Center),
            3 => Ok(Alignment::Right),
            _ => Err(Fault::NoneBegins),
        }
    }

    fn metadata(&mut self) -> Result<MetadataBlockKind, Fault>
        ensures read { IfOk result (λ kind. self.old.rest.now
            ≡ packed_byte metadata_byte kind ++ self.new.rest.now) }
        ensures refused { IfErr result (Refuses (packed_byte metadata_byte) self.old.rest.now) }
    {
        match self.byte()? {
            0 => Ok(MetadataBlockKind::YamlStyle),
            1 => Ok(MetadataBlockKind::PlusesStyle),
            _ => Err(Fault::NoneBegins),
        }
    }

    fn link_type(&mut self) -> Result<LinkType, Fault>
        ensures read { IfOk result (λ link_type. self.old.rest.now
            ≡ packed_byte link_byte link_type ++ self.new.rest.now) }
        ensures refused { IfErr result (Refuses (packed_byte link_byte) self.old.rest.now) }
    {
        match self.byte()? {
            0 => Ok(LinkType::Inline),
            1 => Ok(LinkType::Reference),
            2 => Ok(LinkType::ReferenceUnknown),
            3 => Ok(LinkType::Collapsed),
            4 => Ok(LinkType::CollapsedUnknown),
            5 => Ok(LinkType::Shortcut),
            6 => Ok(LinkType::ShortcutUnknown),
            7 => Ok(LinkType::Autolink),
            8 => Ok(LinkType::Email),
            9 => Ok(LinkType::WikiLink { has_pothole: false }),
            10 => Ok(LinkType::WikiLink { has_pothole: true }),
            _ => Err(Fault::NoneBegins),
        }
    }

    fn code(&mut self) -> Result<CodeBlockKind<'a>, Fault>
        ensures read { IfOk result (λ kind. self.old.rest.now
            ≡ packed_code (code_view text_of kind) ++ self.new.rest.now) }
        ensures refused { IfErr result (Refuses own_code self.old.rest.now) }
    {
        if self.truth()? {
            Ok(CodeBlockKind::Fenced(self.text()?))
        } else {
            Ok(CodeBlockKind::Indented)
        }
    }

    fn texts(&mut self, alloc: Global) -> Result<Vec<CowStr<'a>>, Fault>
        ensures read { IfOk result (λ texts. self.old.rest.now
            ≡ packed_list packed_text (map text_of texts.items) ++ self.new.rest.now) }
        ensures refused { IfErr result (Refuses (packed_list own_text) self.old.rest.now) }
    {
        let count = self.number()? as usize;
        let mut texts = Vec::new(alloc);
        while texts.len() < count {
            texts.push(self.text()?)?;
        }
        Ok(texts)
    }

    fn attribute(&mut self) -> Result<(CowStr<'a>, Option<CowStr<'a>>), Fault>
        ensures read { IfOk result (λ attribute. self.old.rest.now
            ≡ packed_attribute (attribute_view text_of attribute) ++ self.new.rest.now) }
        ensures refused { IfErr result (Refuses own_attribute self.old.rest.now) }
    {
        let key = self.text()?;
        Ok((key, self.optional_text()?))
    }

    fn attributes(&mut self, alloc: Global) -> Result<Vec<(CowStr<'a>, Option<CowStr<'a>>)>, Fault>
        ensures read { IfOk result (λ attributes. self.old.rest.now
            ≡ packed_list packed_attribute (map (attribute_view text_of) attributes.items)
            ++ self.new.rest.now) }
        ensures refused { IfErr result (Refuses (packed_list own_attribute) self.old.rest.now) }
    {
        let count = self.number()? as usize;
        let mut attributes = Vec::new(alloc);
        while attributes.len() < count {
            attributes.push(self.attribute()?)?;
        }
        Ok(attributes)
    }

    fn alignments(&mut self, alloc: Global) -> Result<Vec<Alignment>, Fault>
        ensures read { IfOk result (λ alignments. self.old.rest.now
            ≡ packed_list (packed_byte alignment_byte) alignments.items ++ self.new.rest.now) }
        ensures refused { IfErr result
            (Refuses (packed_list (packed_byte alignment_byte)) self.old.rest.now) }
    {
        let count = self.number()? as usize;
        let mut alignments = Vec::new(alloc);
        while alignments.len() < count {
            alignments.push(self.alignment()?)?;
        }
        Ok(alignments)
    }

    fn heading(&mut self, alloc: Global) -> Result<Tag<'a>, Fault>
        ensures read { IfOk result (λ tag.
            19 ∷ self.old.rest.now ≡ packed_tag (tag_view text_of tag) ++ self.new.rest.now) }
        ensures refused { IfErr result (Refuses own_tag (19 ∷ self.old.rest.now)) }
    {
        let level = self.level()?;
        let id = self.optional_text()?;
        let classes = self.texts(alloc)?;
        Ok(Tag::Heading {
            level,
            id,
            classes,
            attrs: self.attributes(alloc)?,
        })
    }

    fn target(&mut self) -> Result<Target<'a>, Fault>
        ensures read { IfOk result (λ target. self.old.rest.now
            ≡ packed_link target.link_type (text_of target.dest_url) (text_of target.title)
            (text_of target.id) ++ self.new.rest.now) }
        ensures refused { IfErr result (Refuses own_link self.old.rest.now) }
    {
        let link_type = self.link_type()?;
        let dest_url = self.text()?;
        let title = self.text()?;
        Ok(Target {
            link_type,
            dest_url,
            title,
            id: self.text()?,
        })
    }

    fn link(&mut self) -> Result<Tag<'a>, Fault>
        ensures read { IfOk result (λ tag.
            17 ∷ self.old.rest.now ≡ packed_tag (tag_view text_of tag) ++ self.new.rest.now) }
        ensures refused { IfErr result (Refuses own_tag (17 ∷ self.old.rest.now)) }
    {
        let Target {
            link_type,
            dest_url,
            title,
            id,
        } = self.target()?;
        Ok(Tag::Link {
            link_type,
            dest_url,
            title,
            id,
        })
    }

    fn image(&mut self) -> Result<Tag<'a>, Fault>
        ensures read { IfOk result (λ tag.
            18 ∷ self.old.rest.now ≡ packed_tag (tag_view text_of tag) ++ self.new.rest.now) }
        ensures refused { IfErr result (Refuses own_tag (18 ∷ self.old.rest.now)) }
    {
        let Target {
            link_type,
            dest_url,
            title,
            id,
        } = self.target()?;
        Ok(Tag::Image {
            link_type,
            dest_url,
            title,
            id,
        })
    }

    fn tag_with(&mut self, alloc: Global, kind: u8) -> Result<Tag<'a>, Fault>
        requires { 14 ≤ kind }
        ensures read { IfOk result (λ tag.
            kind ∷ self.old.rest.now ≡ packed_tag (tag_view text_of tag) ++ self.new.rest.now) }
        ensures refused { IfErr result (Refuses own_tag (kind ∷ self.old.rest.now)) }
    {
        match kind {
            14 => self.code().map(Tag::CodeBlock),
            15 => self.text().map(Tag::FootnoteDefinition),
            16 => Ok(Tag::Table(self.alignments(alloc)?)),
            17 => self.link(),
            18 => self.image(),
            19 => self.heading(alloc),
            20 => Ok(Tag::BlockQuote(self.optional_quote()?)),
            21 => Ok(Tag::List(self.optional_number()?)),
            22 => Ok(Tag::MetadataBlock(self.metadata()?)),
            _ => Err(Fault::NoneBegins),
        }
    }

    fn tag(&mut self, alloc: Global) -> Result<Tag<'a>, Fault>
        ensures read { IfOk result (λ tag.
            self.old.rest.now ≡ packed_tag (tag_view text_of tag) ++ self.new.rest.now) }
        ensures refused { IfErr result (Refuses own_tag self.old.rest.now) }
    {
        let kind = self.byte()?;
        match plain_tag(kind) {
            Some(tag) => Ok(tag),
            None => self.tag_with(alloc, kind),
        }
    }

    fn end_with(&mut self, kind: u8) -> Result<TagEnd, Fault>
        requires { 19 ≤ kind }
        ensures read { IfOk result (λ end.
            kind ∷ self.old.rest.now ≡ packed_end end ++ self.new.rest.now) }
        ensures refused { IfErr result (Refuses packed_end (kind ∷ self.old.rest.now)) }
    {
        match kind {
            19 => self.level().map(TagEnd::Heading),
            20 => self.optional_quote().map(TagEnd::BlockQuote),
            21 => self.truth().map(TagEnd::List),
            22 => self.metadata().map(TagEnd::MetadataBlock),
            _ => Err(Fault::NoneBegins),
        }
    }

    fn end(&mut self) -> Result<TagEnd, Fault>
        ensures read { IfOk result (λ end.
            self.old.rest.now ≡ packed_end end ++ self.new.rest.now) }
        ensures refused { IfErr result (Refuses packed_end self.old.rest.now) }
    {
        let kind = self.byte()?;
        match plain_end(kind) {
            Some(end) => Ok(end),
            None => self.end_with(kind),
        }
    }

    fn text_event(&mut self, kind: u8) -> Result<Event<'a>, Fault>
        requires { 6 ≤ kind }
        ensures read { IfOk result (λ event.
            kind ∷ self.old.rest.now
            ≡ packed_event (event_view text_of event) ++ self.new.rest.now) }
        ensures refused { IfErr result (Refuses own_event (kind ∷ self.old.rest.now)) }
    {
        let text = self.text()?;
        match kind {
            6 => Ok(Event::Text(text)),
            7 => Ok(Event::Code(text)),
            8 => Ok(Event::InlineMath(text)),
            9 => Ok(Event::DisplayMath(text)),
            10 => Ok(Event::Html(text)),
            11 => Ok(Event::InlineHtml(text)),
            12 => Ok(Event::FootnoteReference(text)),
            _ => Err(Fault::NoneBegins),
        }
    }

    fn event(&mut self, alloc: Global) -> Result<Event<'a>, Fault>
        ensures read { IfOk result (λ event. self.old.rest.now
            ≡ packed_event (event_view text_of event) ++ self.new.rest.now) }
        ensures refused { IfErr result (Refuses own_event self.old.rest.now) }
    {
        match self.byte()? {
            0 => self.tag(alloc).map(Event::Start),
            1 => Ok(Event::End(self.end()?)),
            2 => Ok(Event::SoftBreak),
            3 => Ok(Event::HardBreak),
            4 => Ok(Event::Rule),
            5 => Ok(Event::TaskListMarker(self.truth()?)),
            kind => self.text_event(kind),
        }
    }

    fn range(&mut self) -> Result<(usize, usize), Fault>
        ensures read { IfOk result (λ range.
            self.old.rest.now ≡ packed_range range ++ self.new.rest.now) }
        ensures refused { IfErr result (Refuses packed_range self.old.rest.now) }
    {
        let start = self.number()? as usize;
        Ok((start, self.number()? as usize))
    }

    fn optional_range(&mut self) -> Result<Option<(usize, usize)>, Fault>
        ensures read { IfOk result (λ range. self.old.rest.now
            ≡ packed_option packed_range range ++ self.new.rest.now) }
        ensures refused { IfErr result (Refuses (packed_option packed_range) self.old.rest.now) }
    {
        if self.truth()? {
            Ok(Some(self.range()?))
        } else {
            Ok(None)
        }
    }

    fn pair(&mut self, alloc: Global) -> Result<(Event<'a>, Option<(usize, usize)>), Fault>
        ensures read { IfOk result (λ pair. self.old.rest.now
            ≡ packed_pair (pair_view text_of pair) ++ self.new.rest.now) }
        ensures refused { IfErr result (Refuses own_pair self.old.rest.now) }
    {
        let range = self.optional_range()?;
        match self.event(alloc) {
            Ok(event) => Ok((event, range)),
            Err(fault) => Err(fault),
        }
    }
}

/// What a link and an image say of where they lead.
#[derive(Drop)]
struct Target<'a> {
    link_type: LinkType,
    dest_url: CowStr<'a>,
    title: CowStr<'a>,
    id: CowStr<'a>,
}

/// The number of these digits to the base 256, the lowest first.
fn number_of(digits: [u8; 8]) -> u64
    ensures { digits ≡ packed_number result }
{
    u64::from_le_bytes(digits)
}

fn plain_tag<'a>(kind: u8) -> Option<Tag<'a>>
    ensures named { IfSome result (λ tag. packed_tag (tag_view text_of tag) ≡ kind ∷ []) }
    ensures unnamed { IfNone result (14 ≤ kind) }
{
    match kind {
        0 => Some(Tag::Paragraph),
        1 => Some(Tag::HtmlBlock),
        2 => Some(Tag::Item),
        3 => Some(Tag::DefinitionList),
        4 => Some(Tag::DefinitionListTitle),
        5 => Some(Tag::DefinitionListDefinition),
        6 => Some(Tag::TableHead),
        7 => Some(Tag::TableRow),
        8 => Some(Tag::TableCell),
        9 => Some(Tag::Emphasis),
        10 => Some(Tag::Strong),
        11 => Some(Tag::Strikethrough),
        12 => Some(Tag::Superscript),
        13 => Some(Tag::Subscript),
        _ => None,
    }
}

fn plain_end(kind: u8) -> Option<TagEnd>
    ensures named { IfSome result (λ end. packed_end end ≡ kind ∷ []) }
    ensures unnamed { IfNone result (19 ≤ kind) }
{
    match kind {
        0 => Some(TagEnd::Paragraph),
        1 => Some(TagEnd::HtmlBlock),
        2 => Some(TagEnd::Item),
        3 => Some(TagEnd::DefinitionList),
        4 => Some(TagEnd::DefinitionListTitle),
        5 => Some(TagEnd::DefinitionListDefinition),
        6 => Some(TagEnd::TableHead),
        7 => Some(TagEnd::TableRow),
        8 => Some(TagEnd::TableCell),
        9 => Some(TagEnd::Emphasis),
        10 => Some(TagEnd::Strong),
        11 => Some(TagEnd::Strikethrough),
        12 => Some(TagEnd::Superscript),
        13 => Some(TagEnd::Subscript),
        14 => Some(TagEnd::CodeBlock),
        15 => Some(TagEnd::FootnoteDefinition),
        16 => Some(TagEnd::Table),
        17 => Some(TagEnd::Link),
        18 => Some(TagEnd::Image),
        _ => None,
    }
}

/// Reads events with their ranges, if they have one, from the packed form of just these. Their texts are lent from the
/// bytes.
///
/// It fails if no event begins after the last one (`Event`, with the number of those before), or if memory runs out.
///
/// ```
/// let rule = [0, 4];
/// let pairs = pairs_from_packed(alloc, &rule)?;
/// assert_eq!(rt; pairs.len(), 1);
/// ```
pub fn pairs_from_packed<'a>(
    alloc: Global,
    bytes: &'a [u8],
) -> Result<Vec<(Event<'a>, Option<(usize, usize)>)>, PackedError>
    ensures pairs { IfOk result (λ pairs.
        bytes.now ≡ packed_pairs (map (pair_view text_of) pairs.items)) }
    ensures place { IfErr result (IsNotPacked bytes.now) }
{
    let mut packed = Packed { rest: bytes };
    let mut pairs = Vec::new(alloc);
    while !packed.rest.is_empty() {
        match packed.pair(alloc) {
            Ok(pair) => pairs.push(pair)?,
            Err(Fault::NoneBegins) => return Err(PackedError::Event(pairs.len())),
            Err(Fault::OutOfMemory) => return Err(PackedError::OutOfMemory),
        }
    }
    Ok(pairs)
}

impl From<AllocError> for Fault {
    ghost from_gives = { λ _ e. e ≡ no_memory };

    fn from(_fault: AllocError) -> Fault {
        Fault::OutOfMemory
    }
}

impl<T: Drop> From<AllocFailed<T>> for Fault {
    ghost from_gives = { λ _ e. e ≡ no_memory };

    fn from(_fault: AllocFailed<T>) -> Fault {
        Fault::OutOfMemory
    }
}

impl<T: Drop> From<AllocFailed<T>> for PackedError {
    ghost from_gives = { λ _ e. e ≡ out_of_memory };

    fn from(_fault: AllocFailed<T>) -> PackedError {
        PackedError::OutOfMemory
    }
}

impl fmt::Display for PackedError {
    fn fmt<W: fmt::Write>(&self, f: &mut fmt::Formatter<W>) -> fmt::Result {
        match self {
            PackedError::Event(number) => write!(
                f,
                "event {number}: the bytes are those of no event"
            ),
            PackedError::OutOfMemory => write!(f, "out of memory"),
        }
    }
}

impl std::error::Error for PackedError {}
