//! Laws of the line feeds that end a sheet.

ghost use Rattle.std.specs.Prelude.{◌≡◌, ◌++◌, [], List, ℕ, flat_map};
ghost use Rattle.tocmark_spelling.specs.Page.{Sheet, laid};
ghost use Rattle.tocmark_laws.specs.LineFeeds.{Part, ending_feeds, laid_in_turn};

/// What a sheet counts as its line feeds are those at the end of all that was laid on it, where the prefixes of lines
/// are left out: of one text more, laid with any prefix (`more`), and of all texts that are laid one after another on
/// a sheet with nothing before them (`all`).
#[tactic(auto, using(crate::proofs::LineFeeds::feeds_more, crate::proofs::LineFeeds::feeds_all))]
pub fn feeds_are_the_line_feeds_at_the_end()
    ensures more { (prefix text before : List ℕ) (s : Sheet) → s.feeds ≡ ending_feeds before
        → (laid prefix text s).feeds ≡ ending_feeds (before ++ text) }
    ensures all { (parts : List Part)
        → (laid_in_turn parts (record { text = []; feeds = 0 })).feeds
        ≡ ending_feeds (flat_map (λ p. p.text) parts) }
{}
