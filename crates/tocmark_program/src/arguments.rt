//! What a call asks for.

ghost use Rattle.std.specs.Prelude.{◌≡◌};
ghost use Rattle.tocmark_program.specs.Program.{asked};

/// Where the spellings of texts come from.
#[derive(Clone, Copy, Drop)]
pub enum Spelling {
    /// From the writer, which escapes.
    Escaped,
    /// From the input, where that reads back.
    FromSource,
}

/// What the arguments ask for: no argument or `--source` alone. Others are wrong.
pub fn asked(words: &[String]) -> Option<Spelling>
    ensures { result ≡ asked words.now }
{
    match words {
        [] => Some(Spelling::Escaped),
        [word] if word.as_str() == "--source" => Some(Spelling::FromSource),
        _ => None,
    }
}
