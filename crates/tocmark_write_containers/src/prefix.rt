//! What is before the lines of one container.

ghost use Rattle.std.specs.Prelude.{◌≡◌, ◌≤◌, ◌+◌, ◌++◌, ℕ, List, length, string_bytes, string_capacity, OnErr, OnOk, replicate};
ghost use Rattle.tocmark_write_containers.specs.PrefixOf.{prefix_bytes};

use std::alloc::AllocError;

/// What is before each line of a container, after what is there for those around it.
#[derive(Clone, Copy)]
pub enum Prefix {
    Empty,
    /// A space, `>` and a space.
    Quote,
    /// So many spaces.
    Spaces(usize),
}

const QUOTE: &str = " > ";

/// As many spaces as the markers of most items have bytes, and more.
const SPACES: &str = "                ";

impl Prefix {
    /// How long it is, in bytes.
    pub fn len(self) -> usize
        ensures { result ≡ length (prefix_bytes self) }
    {
        match self {
            Prefix::Empty => 0,
            Prefix::Quote => QUOTE.len(),
            Prefix::Spaces(count) => count,
        }
    }

    /// Adds it to a text in which there is room for it.
    pub fn put(self, text: &mut String)
        requires { length (string_bytes text.old) + length (prefix_bytes self)
            ≤ string_capacity text.old }
        ensures bytes { string_bytes text.new ≡ string_bytes text.old ++ prefix_bytes self }
        ensures capacity { string_capacity text.old ≤ string_capacity text.new }
    {
        match self {
            Prefix::Empty => (),
            Prefix::Quote => put(text, QUOTE),
            Prefix::Spaces(count) => put_spaces(text, count),
        }
    }

    /// Adds it to a text. If memory runs out, nothing is added.
    pub fn add(self, text: &mut String) -> Result<(), AllocError>
        ensures bytes { OnOk result
            (string_bytes text.new ≡ string_bytes text.old ++ prefix_bytes self) }
        ensures stays { OnErr result (string_bytes text.new ≡ string_bytes text.old) }
        ensures capacity { string_capacity text.old ≤ string_capacity text.new }
    {
        text.reserve(self.len())?;
        self.put(text);
        Ok(())
    }

    /// Cuts it off the end of a text.
    pub fn cut(self, text: &mut String)
        requires { (rest : List ℕ) × (string_bytes text.old ≡ rest ++ prefix_bytes self) }
        ensures cut { (rest : List ℕ) → string_bytes text.old ≡ rest ++ prefix_bytes self
            → string_bytes text.new ≡ rest }
        ensures capacity { string_capacity text.new ≡ string_capacity text.old }
    {
        text.truncate(text.len() - self.len());
    }
}

/// Adds so many spaces to a text in which there is room for them.
fn put_spaces(text: &mut String, count: usize)
    requires { length (string_bytes text.old) + count ≤ string_capacity text.old }
    ensures bytes { string_bytes text.new ≡ string_bytes text.old ++ replicate count 32 }
    ensures capacity { string_capacity text.old ≤ string_capacity text.new }
{
    if count <= SPACES.len() {
        put(text, &SPACES[..count]);
    } else {
        put_each(text, count);
    }
}

/// Writes so many spaces, one by one.
fn put_each(text: &mut String, count: usize)
    requires { length (string_bytes text.old) + count ≤ string_capacity text.old }
    ensures bytes { string_bytes text.new ≡ string_bytes text.old ++ replicate count 32 }
    ensures capacity { string_capacity text.old ≤ string_capacity text.new }
{
    for _place in 0..count {
        put(text, " ");
    }
}

/// Adds to a text in which there is room for it.
fn put(text: &mut String, more: &str)
    requires { length (string_bytes text.old) + length more.now ≤ string_capacity text.old }
    ensures bytes { string_bytes text.new ≡ string_bytes text.old ++ more.now }
    ensures capacity { string_capacity text.old ≤ string_capacity text.new }
{
    let _room = text.push_str(more);
}
