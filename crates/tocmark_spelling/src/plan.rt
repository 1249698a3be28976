//! What a spelling is asked for.

ghost use Rattle.std.specs.Prelude.{◌≡◌};
ghost use Rattle.tocmark_spelling.specs.Stretch.{is_literal, has_entities};

/// How the markers of emphasis are chosen.
#[derive(Clone, Copy, PartialEq, Eq)]
pub enum Layout {
    Preferred,
    Runs,
    Uniform,
    Shared {
        ends: bool,
        adjacent: bool,
        split: bool,
    },
    RuleThree,
}

/// How texts are written.
#[derive(Clone, Copy, PartialEq, Eq)]
pub enum TextSpelling {
    Escaped,
    /// With markers as they are.
    Literal,
    /// With the characters beside markers as references.
    Entities,
    LiteralEntities,
}

/// How delimiters are chosen, and which markers are asked for.
#[derive(Clone, Copy)]
pub struct Delimiters<'a> {
    pub layout: Layout,
    pub text: TextSpelling,
    /// The marker of emphasis.
    pub emphasis: char,
    /// The marker of strong emphasis.
    pub strong: &'a str,
}

impl TextSpelling {
    /// Whether markers in texts stay as they are.
    pub fn is_literal(self) -> bool
        ensures { result ≡ is_literal self }
    {
        match self {
            TextSpelling::Literal => true,
            TextSpelling::LiteralEntities => true,
            _ => false,
        }
    }

    /// Whether the characters beside markers are written as references.
    pub fn has_entities(self) -> bool
        ensures { result ≡ has_entities self }
    {
        match self {
            TextSpelling::Entities => true,
            TextSpelling::LiteralEntities => true,
            _ => false,
        }
    }
}
