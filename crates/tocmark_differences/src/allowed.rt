//! What may differ between two texts that count as the same.

/// The kinds of things that may differ, each with a few words about it.
pub const KINDS: [(&str, &str); 13] = [
    ("wrap", "white space in texts, and where lines break"),
    ("text", "the words of texts"),
    ("destinations", "where links and images lead"),
    ("titles", "titles of links and images"),
    ("labels", "labels, and how links are spelled"),
    (
        "fences",
        "whether code is fenced, and has its last line feed",
    ),
    ("levels", "levels of headings"),
    ("numbers", "first numbers of lists"),
    ("code", "code and math"),
    ("info", "info strings of fenced code"),
    ("html", "HTML"),
    ("front-matter", "what front matter says"),
    ("definitions", "link definitions"),
];

/// What may differ between two texts.
#[derive(Clone, Copy, Debug, PartialEq, Eq)]
pub struct Allowed {
    /// White space in texts and labels, and where lines break.
    pub wrap: bool,
    /// The texts of paragraphs, headings and cells, with their breaks.
    pub text: bool,
    /// Where links and images lead.
    pub destinations: bool,
    /// The titles of links and images.
    pub titles: bool,
    /// The labels of links, and how links are spelled.
    pub labels: bool,
    /// Whether code is fenced or indented, and whether code or HTML lacks its last line feed at the end of a text.
    pub fences: bool,
    /// The levels of headings.
    pub levels: bool,
    /// The first numbers of lists.
    pub numbers: bool,
    /// Code and math.
    pub code: bool,
    /// The info strings of fenced code.
    pub info: bool,
    /// HTML.
    pub html: bool,
    /// What front matter says.
    pub front_matter: bool,
    /// Which links are defined, and how.
    pub definitions: bool,
}

impl Allowed {
    /// Nothing may differ.
    pub fn nothing() -> Allowed {
        Allowed {
            wrap: false,
            text: false,
            destinations: false,
            titles: false,
            labels: false,
            fences: false,
            levels: false,
            numbers: false,
            code: false,
            info: false,
            html: false,
            front_matter: false,
            definitions: false,
        }
    }

    /// What no page shows may differ: how links are spelled and defined, whether code is fenced, and whether it lacks its last
    /// line feed.
    pub fn unrendered() -> Allowed {
        Allowed {
            labels: true,
            fences: true,
            definitions: true,
            ..Allowed::nothing()
        }
    }

    /// Allows one more kind of thing to differ. The answer is `None` if `KINDS` has no kind of this name.
    pub fn with(self, kind: &str) -> Option<Allowed> {
        let mut allowed = self;
        match kind {
            "wrap" => allowed.wrap = true,
            "text" => allowed.text = true,
            "destinations" => allowed.destinations = true,
            "titles" => allowed.titles = true,
            "labels" => allowed.labels = true,
            "fences" => allowed.fences = true,
            "levels" => allowed.levels = true,
            "numbers" => allowed.numbers = true,
            "code" => allowed.code = true,
            "info" => allowed.info = true,
            "html" => allowed.html = true,
            "front-matter" => allowed.front_matter = true,
            "definitions" => allowed.definitions = true,
            _ => return None,
        }
        Some(allowed)
    }
}
