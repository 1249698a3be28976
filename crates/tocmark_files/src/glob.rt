//! Globs as shells and `.gitignore` have them: `*` and `?` within a name, `**` over folders, `[..]` and `{a,b}`.
//!
//! Globs of Git have no braces and count bytes: a byte is then the character of its number.
//!
//! A match goes over the text once and keeps the places of the glob that it can have reached, so it takes at most the length
//! of the glob times that of the text.

use std::alloc::{AllocError, Global};

/// A part of a glob. What leads to another place leads forward.
#[derive(Clone, Copy, Drop)]
enum Token {
    Literal(char),
    /// `?`: a character that isn't `/`.
    Any,
    /// `[..]`: a character that isn't `/`, in one of these ranges of the glob or in none of them.
    Class {
        from: usize,
        to: usize,
        is_negated: bool,
    },
    /// `*`: characters that aren't `/`.
    Star,
    /// `**` at the end: any characters.
    Rest,
    /// `**/`, after a fork that passes it by: folders, each with its `/`.
    Folders,
    /// Either the next place or this one.
    Fork(usize),
    /// This place.
    Jump(usize),
}

/// How a glob is matched.
#[derive(Clone, Copy)]
enum Shape {
    /// It is the text.
    Literal,
    /// It is `*` and the text's end.
    Suffix,
    /// Its tokens are followed.
    Tokens,
}

/// A glob that is ready to be matched.
#[derive(Drop)]
pub struct Glob {
    shape: Shape,
    is_git: bool,
    /// The bytes of the characters that stand for themselves.
    literal: Vec<u8>,
    tokens: Vec<Token>,
    ranges: Vec<(char, char)>,
}

/// The braces that are open.
#[derive(Drop)]
struct Group {
    /// The place of the last alternative's fork.
    fork: usize,
    /// How many jumps the groups around it have.
    jumps: usize,
}

/// A glob while it is parsed.
#[derive(Drop)]
struct Parser {
    chars: Vec<char>,
    at: usize,
    is_git: bool,
    /// Whether all characters up to here stand for themselves.
    is_plain: bool,
    /// The place of a bracket that closes, before which there is none from some place on.
    close: usize,
    groups: Vec<Group>,
    /// The places of jumps to the ends of open groups.
    jumps: Vec<usize>,
    glob: Glob,
}

/// The classes that have names, each with the first and the last character of its ranges, as Git has them.
static CLASSES: [(&str, &str); 12] = [
    ("alnum", "09AZaz"),
    ("alpha", "AZaz"),
    ("blank", "\t\t  "),
    ("cntrl", "\x01\x1f\x7f\x7f"),
    ("digit", "09"),
    ("graph", "!~"),
    ("lower", "az"),
    ("print", " ~"),
    ("punct", "!/:@[`{~"),
    ("space", "\t\n\r\r  "),
    ("upper", "AZ"),
    ("xdigit", "09AFaf"),
];

/// Whether characters are this text.
fn are_text(chars: &[char], text: &str) -> bool {
    let mut rest = text.chars();
    for c in chars {
        if rest.next() != Some(*c) {
            return false;
        }
    }
    rest.next().is_none()
}

/// The number of the class with this name.
fn class_named(name: &[char]) -> Option<usize> {
    for (number, (known, _)) in CLASSES.iter().enumerate() {
        if are_text(name, known) {
            return Some(number);
        }
    }
    None
}

/// Adds the bytes of a character, which in a glob of Git is a byte itself.
fn push_bytes(bytes: &mut Vec<u8>, c: char, is_git: bool) -> Result<(), AllocError> {
    if is_git && let Ok(byte) = u8::try_from(u32::from(c)) {
        bytes.push(byte)?;
        return Ok(());
    }
    let mut buffer = [0u8; 4];
    Ok(bytes.extend_from_slice(c.encode_utf8(&mut buffer).as_bytes())?)
}

fn mark(places: &mut [bool], at: usize) {
    if let Some(place) = places.get_mut(at) {
        *place = true;
    }
}

/// Unmarks a place, and says whether it was marked.
fn take(places: &mut [bool], at: usize) -> bool {
    match places.get_mut(at) {
        Some(place) => {
            let was_marked = *place;
            *place = false;
            was_marked
        }
        None => false,
    }
}

fn is_marked(places: &[bool], at: usize) -> bool {
    places.get(at).copied().unwrap_or(false)
}

impl Glob {
    /// Parses a glob, of Git or of this program. `Ok(None)`: a bracket or brace isn't closed, a class has no known name, or a
    /// backslash is at the end.
    pub fn new(alloc: Global, text: &str, is_git: bool) -> Result<Option<Glob>, AllocError> {
        let mut parser = Parser::new(alloc, text, is_git)?;
        if !parser.parse()? || !parser.groups.is_empty() {
            return Ok(None);
        }
        let Parser { mut glob, .. } = parser;
        glob.find_shape()?;
        Ok(Some(glob))
    }

    /// Whether the whole text matches.
    pub fn matches(&self, alloc: Global, text: &str) -> Result<bool, AllocError> {
        let literal = self.literal.as_slice();
        match self.shape {
            Shape::Literal => Ok(text.as_bytes() == literal),
            Shape::Suffix => match text.as_bytes().strip_suffix(literal) {
                Some(front) => Ok(!front.contains(&b'/')),
                None => Ok(false),
            },
            Shape::Tokens => self.follow(alloc, text),
        }
    }

    /// Notes whether tokens have to be followed.
    fn find_shape(&mut self) -> Result<(), AllocError> {
        let mut is_plain = true;
        let mut begins_with_star = false;
        for (at, token) in self.tokens.iter().enumerate() {
            match token {
                Token::Literal(c) => push_bytes(&mut self.literal, *c, self.is_git)?,
                Token::Star if at == 0 => begins_with_star = true,
                _ => is_plain = false,
            }
        }
        self.shape = match (is_plain, begins_with_star) {
            (true, false) => Shape::Literal,
            (true, true) => Shape::Suffix,
            _ => Shape::Tokens,
        };
        Ok(())
    }

    fn follow(&self, alloc: Global, text: &str) -> Result<bool, AllocError> {
        let count = self.tokens.len();
        let mut places = Vec::new(alloc);
        places.resize(count.saturating_add(1), false)?;
        mark(&mut places, 0);
        self.spread(&mut places);
        if self.is_git {
            for byte in text.bytes() {
                self.pass(&mut places, char::from(byte));
            }
        } else {
            for c in text.chars() {
                self.pass(&mut places, c);
            }
        }
        Ok(is_marked(&places, count))
    }

    /// Goes from the marked places over a character, and marks what is reached without one from there.
    fn pass(&self, places: &mut [bool], c: char) {
        self.step(places, c);
        self.spread(places);
    }

    /// Marks the places that are reached from marked ones without a character.
    fn spread(&self, places: &mut [bool]) {
        for (at, token) in self.tokens.iter().enumerate() {
            if is_marked(places, at) {
                match token {
                    Token::Star | Token::Rest => mark(places, at.saturating_add(1)),
                    Token::Fork(to) => {
                        mark(places, at.saturating_add(1));
                        mark(places, *to);
                    }
                    Token::Jump(to) => mark(places, *to),
                    _ => {}
                }
            }
        }
    }

    /// Goes from the marked places over a character.
    fn step(&self, places: &mut [bool], c: char) {
        take(places, self.tokens.len());
        for at in (0..self.tokens.len()).rev() {
            let was_marked = take(places, at);
            if let Some(token) = self.tokens.get(at)
                && was_marked
            {
                if stays(*token, c) {
                    mark(places, at);
                }
                if self.passes(*token, c) {
                    mark(places, at.saturating_add(1));
                }
            }
        }
    }

    /// Whether a character leads to the place after a token.
    fn passes(&self, token: Token, c: char) -> bool {
        match token {
            Token::Literal(literal) => literal == c,
            Token::Any => c != '/',
            Token::Class {
                from,
                to,
                is_negated,
            } => c != '/' && self.has(from, to, c) != is_negated,
            Token::Folders => c == '/',
            _ => false,
        }
    }

    /// Whether one of these ranges has a character.
    fn has(&self, from: usize, to: usize, c: char) -> bool {
        let ranges = self.ranges.get(from..to).unwrap_or(&[]);
        for (first, last) in ranges {
            if *first <= c && c <= *last {
                return true;
            }
        }
        false
    }
}

/// Whether a character can belong to a token that goes on after it.
fn stays(token: Token, c: char) -> bool {
    match token {
        Token::Star => c != '/',
        Token::Rest | Token::Folders => true,
        _ => false,
    }
}

impl Parser {
    fn new(alloc: Global, text: &str, is_git: bool) -> Result<Parser, AllocError> {
        let mut chars = Vec::new(alloc);
        if is_git {
            for byte in text.bytes() {
                chars.push(char::from(byte))?;
            }
        } else {
            for c in text.chars() {
                chars.push(c)?;
            }
        }
        let glob = Glob {
            shape: Shape::Tokens,
            is_git,
            literal: Vec::new(alloc),
            tokens: Vec::new(alloc),
            ranges: Vec::new(alloc),
        };
        Ok(Parser {
            chars,
            at: 0,
            is_git,
            is_plain: true,
            close: 0,
            groups: Vec::new(alloc),
            jumps: Vec::new(alloc),
            glob,
        })
    }

    /// The character so many places further on.
    fn peek(&self, further: usize) -> Option<char> {
        self.chars.get(self.at.saturating_add(further)).copied()
    }

    fn next(&mut self) -> Option<char> {
        let next = self.peek(0);
        self.at = self.at.saturating_add(1);
        next
    }

    /// Passes a character, if it comes next.
    fn skip(&mut self, c: char) -> bool {
        let is_next = self.peek(0) == Some(c);
        if is_next {
            self.at = self.at.saturating_add(1);
        }
        is_next
    }

    fn push(&mut self, token: Token) -> Result<(), AllocError> {
        Ok(self.glob.tokens.push(token)?)
    }

    /// Parses all characters. `Ok(false)`: they are no glob.
    fn parse(&mut self) -> Result<bool, AllocError> {
        for _ in 0..self.chars.len() {
            let Some(c) = self.next() else {
                break;
            };
            if !self.token(c)? {
                return Ok(false);
            }
        }
        Ok(true)
    }

    /// Parses the token that begins with a character.
    fn token(&mut self, c: char) -> Result<bool, AllocError> {
        let is_grouped = !self.groups.is_empty();
        if c == '*' {
            self.stars()?;
        }
        self.is_plain = self.is_plain && !matches!(c, '\\' | '?' | '*' | '[');
        match c {
            '\\' => match self.next() {
                Some(c) => self.push(Token::Literal(c))?,
                None => return Ok(false),
            },
            '?' => self.push(Token::Any)?,
            '*' => {}
            '[' => return self.class(),
            '{' if !self.is_git => self.begin_group()?,
            ',' if is_grouped => self.begin_alternative()?,
            '}' if is_grouped => self.end_group(),
            c => self.push(Token::Literal(c))?,
        }
        Ok(true)
    }

    /// Whether a part of a path ends here. To Git, it also does before an escaped slash.
    fn is_end(&self) -> bool {
        match self.peek(0) {
            None => true,
            Some(',' | '}') => !self.groups.is_empty(),
            Some('\\') => self.is_git && self.peek(1) == Some('/'),
            Some(_) => false,
        }
    }

    /// Whether a part of a path begins after the character before this place. To Git, it also begins after characters that all
    /// stand for themselves, because it compares these first, and then matches the rest.
    fn is_start(&self, at: usize) -> bool {
        if self.is_git && self.is_plain {
            return true;
        }
        let Some(before) = at.checked_sub(1) else {
            return true;
        };
        match self.chars.get(before).copied() {
            Some('/') => true,
            Some(',' | '{') => !self.groups.is_empty(),
            _ => false,
        }
    }

    /// Parses asterisks from the second on.
    fn stars(&mut self) -> Result<(), AllocError> {
        let is_start = self.is_start(self.at.saturating_sub(1));
        let mut is_double = false;
        for _ in self.at..self.chars.len() {
            if !self.skip('*') {
                break;
            }
            is_double = true;
        }
        if !is_start || !is_double {
            return self.push(Token::Star);
        }
        if self.is_end() {
            return self.push(Token::Rest);
        }
        if !self.skip('/') {
            return self.push(Token::Star);
        }
        let behind = self.glob.tokens.len().saturating_add(2);
        self.push(Token::Fork(behind))?;
        self.push(Token::Folders)
    }

    /// Parses a class from after its bracket on.
    fn class(&mut self) -> Result<bool, AllocError> {
        let is_negated = self.skip('!') || self.skip('^');
        let from = self.glob.ranges.len();
        for turn in 0..=self.chars.len() {
            let Some(c) = self.next() else {
                return Ok(false);
            };
            if c == ']' && turn > 0 {
                let to = self.glob.ranges.len();
                self.push(Token::Class {
                    from,
                    to,
                    is_negated,
                })?;
                return Ok(true);
            }
            if !self.element(c)? {
                return Ok(false);
            }
        }
        Ok(false)
    }

    /// Adds what begins with this character in a class: a class with a name, as `[:alpha:]`, a range or a character.
    fn element(&mut self, c: char) -> Result<bool, AllocError> {
        if c == '[' && self.peek(0) == Some(':') {
            let from = self.at.saturating_add(1);
            let Some(end) = self.next_close(from) else {
                return Ok(false);
            };
            if let Some(end) = end.checked_sub(1)
                && end >= from
                && self.chars.get(end).copied() == Some(':')
            {
                self.at = end.saturating_add(2);
                return self.named(from, end);
            }
        }
        match self.range(c) {
            Some(range) => {
                self.glob.ranges.push(range)?;
                Ok(true)
            }
            None => Ok(false),
        }
    }

    /// The place of the first bracket that closes from this place on. All brackets together, that goes over the glob once.
    fn next_close(&mut self, from: usize) -> Option<usize> {
        if self.close < from {
            self.close = from;
            for c in self.chars.get(from..).unwrap_or(&[]) {
                if *c == ']' {
                    break;
                }
                self.close = self.close.saturating_add(1);
            }
        }
        if self.close < self.chars.len() {
            Some(self.close)
        } else {
            None
        }
    }

    /// Adds the ranges of the class whose name is between these places.
    fn named(&mut self, from: usize, to: usize) -> Result<bool, AllocError> {
        let Some(name) = self.chars.get(from..to) else {
            return Ok(false);
        };
        let Some(number) = class_named(name) else {
            return Ok(false);
        };
        let Some((_, ranges)) = CLASSES.get(number) else {
            return Ok(false);
        };
        let mut bounds = ranges.chars();
        for _ in 0..ranges.len() {
            let (Some(first), Some(last)) = (bounds.next(), bounds.next()) else {
                break;
            };
            self.glob.ranges.push((first, last))?;
        }
        Ok(true)
    }

    /// Parses the range of a class that begins with a character.
    fn range(&mut self, c: char) -> Option<(char, char)> {
        let first = self.unescaped(c)?;
        let has_last = match self.peek(1) {
            Some(c) => c != ']',
            None => false,
        };
        if !has_last || !self.skip('-') {
            return Some((first, first));
        }
        let c = self.next()?;
        let last = self.unescaped(c)?;
        Some((first, if last < first { first } else { last }))
    }

    fn unescaped(&mut self, c: char) -> Option<char> {
        if c == '\\' { self.next() } else { Some(c) }
    }

    fn begin_group(&mut self) -> Result<(), AllocError> {
        let group = Group {
            fork: self.glob.tokens.len(),
            jumps: self.jumps.len(),
        };
        self.groups.push(group)?;
        self.push(Token::Fork(0))
    }

    /// Lets the last fork of the innermost group lead here, and gives the group another one.
    fn begin_alternative(&mut self) -> Result<(), AllocError> {
        let Some(Group { fork, jumps }) = self.groups.pop() else {
            return Ok(());
        };
        self.jumps.push(self.glob.tokens.len())?;
        self.push(Token::Jump(0))?;
        let here = self.glob.tokens.len();
        self.set(fork, Token::Fork(here));
        self.groups.push(Group { fork: here, jumps })?;
        self.push(Token::Fork(0))
    }

    /// Lets the jumps of the innermost group lead here.
    fn end_group(&mut self) {
        let Some(Group { fork, jumps }) = self.groups.pop() else {
            return;
        };
        let here = self.glob.tokens.len();
        self.set(fork, Token::Fork(fork.saturating_add(1)));
        for _ in jumps..self.jumps.len() {
            if let Some(jump) = self.jumps.pop() {
                self.set(jump, Token::Jump(here));
            }
        }
    }

    fn set(&mut self, at: usize, token: Token) {
        if let Some(place) = self.glob.tokens.get_mut(at) {
            *place = token;
        }
    }
}
