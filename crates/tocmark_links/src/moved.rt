//! Which destination a link needs after a file or a folder has moved.

ghost use Rattle.std.specs.Prelude.{◌≡◌, ℕ, Bool, List, IfOk, IfSome, IsTrue, None, Some, string_bytes};
ghost use Rattle.std.specs.Option.{option_map};
ghost use Rattle.tocmark_links.specs.Destinations.{IsFollowed, IsRest};
ghost use Rattle.tocmark_links.specs.Leading.{Follows, LeadsAfter, NamesItself, after, led_to, new_or};
ghost use Rattle.tocmark_links.specs.Naming.{kind_at, kind_in};
ghost use Rattle.tocmark_links.specs.declared.tree.Kind.{Kind};

use crate::destination::{decoded, encoded, is_local, parts};
use crate::moves::Moves;
use crate::paths::{folder_and_name, push_part, relative, resolved};
use crate::tree::{Form, Tree};
use std::alloc::{AllocError, Global};

/// The name of a folder's page that mdBook makes `index.html` of.
const README: &str = "README.md";

/// Whether a page is that of its folder, by its name.
fn is_index(name: &str) -> bool {
    name == README || name == "index.md"
}

/// The path of a file in a folder.
fn path_in(alloc: Global, folder: &str, name: &str) -> Result<String, AllocError> {
    let mut path = String::from_str(alloc, folder)?;
    push_part(&mut path, name)?;
    Ok(path)
}

/// The form in which a link that had this form names a page after a move. mdBook makes no page of the path `x/README.md` and none
/// of `x/README.html`. So in a book, a page that becomes the README.md of a folder is named by the folder, with a slash, or by
/// `x/index.html`; and one that was it isn't named by `x/index.html` any more.
fn form_after(tree: &Tree, form: Form, old: &str, new: &str) -> Form {
    let was = folder_and_name(old).1 == README;
    let is = folder_and_name(new).1 == README;
    match form {
        _ if !tree.is_book => form,
        Form::Exact if is && !was => Form::Slash,
        Form::Html if is => Form::Index,
        Form::Index if !is_index(folder_and_name(new).1) => Form::Html,
        _ => form,
    }
}

/// A path of the form that another path had: the page that it names, as `.html`, without its ending, or as its folder. A page
/// that isn't that of its folder any more is named itself.
fn in_form(alloc: Global, path: &str, form: Form) -> Result<String, AllocError> {
    let (folder, name) = folder_and_name(path);
    let stem = path.strip_suffix(".md");
    match (form, stem) {
        (Form::Html, Some(stem)) => format!(in alloc; "{stem}.html"),
        (Form::Index, _) if is_index(name) => path_in(alloc, folder, "index.html"),
        (Form::Index, Some(stem)) => format!(in alloc; "{stem}/index.html"),
        (Form::Book, _) if name == README => path_in(alloc, folder, "index.md"),
        (Form::Slash, _) => format!(in alloc; "{folder}/"),
        (Form::Folder, _) if is_index(name) => String::from_str(alloc, folder),
        (Form::Bare, _) if is_index(name) => String::from_str(alloc, folder),
        (Form::Bare, Some(stem)) => String::from_str(alloc, stem),
        _ => String::from_str(alloc, path),
    }
}

/// Whether a byte of a path has to be written with a percent sign, because Markdown or an address would misread it. The place of
/// a path with blanks takes them and parentheses as they are.
fn is_misread(byte: u8, takes_blanks: bool) -> bool {
    match byte {
        b' ' | b'(' | b')' => !takes_blanks,
        b'<' | b'>' | b'#' | b'?' | b'%' | b'\\' => true,
        _ => byte < b' ',
    }
}

/// Whether a path has to be written with percent signs: the old one was, or it has what Markdown or an address would misread.
fn needs_percent_signs(old: &str, new: &str) -> bool {
    if old.contains('%') {
        return true;
    }
    let takes_blanks = old.contains(' ');
    for byte in new.as_bytes() {
        if is_misread(*byte, takes_blanks) {
            return true;
        }
    }
    false
}

/// The path from a folder to a target, spelled as the old path was: `/` or `./` in front, blanks, percent signs. At its end is `/`, if the
/// target has one, or the old path had one and the target is no page.
fn spelled(alloc: Global, old: &str, folder: &str, target: &str) -> Result<String, AllocError> {
    let has_slash = target.ends_with('/') || old.ends_with('/') && !target.ends_with(".md");
    let target = target.strip_suffix('/').unwrap_or(target);
    let mut path = if old.starts_with('/') {
        format!(in alloc; "/{target}")?
    } else {
        relative(alloc, folder, target)?
    };
    let ends_with_slash = path.as_str().ends_with('/');
    if has_slash && !ends_with_slash {
        path.push('/')?;
    }
    let begins_with_dot = path.as_str().starts_with('.');
    let has_dot = old.starts_with("./") && !begins_with_dot && !path.as_str().starts_with('/');
    if has_dot || !is_local(path.as_str()) {
        path = format!(in alloc; "./{path}")?;
    }
    if needs_percent_signs(old, path.as_str()) {
        return encoded(alloc, path.as_str());
    }
    Ok(path)
}

/// What is after the path of a destination: its query and anchor.
fn rest_of(destination: &str) -> &str
    ensures { IsRest result.now }
{
    match destination.get(parts(destination).path.len()..) {
        None => "",
        Some(rest) => rest,
    }
}

/// A destination with another path, and its own query and anchor.
fn with_path(alloc: Global, destination: &str, path: &str) -> Result<String, AllocError>
    ensures { IfOk result (λ new. IsFollowed path.now (string_bytes new)) }
{
    let mut new = String::from_str(alloc, path)?;
    new.push_str(rest_of(destination))?;
    Ok(new)
}

/// A destination that leads to a place from every page: the path from the root, with percent signs, and the query and anchor of
/// another destination.
fn from_root(alloc: Global, destination: &str, place: &str) -> Result<String, AllocError>
    ensures { IfOk result (λ new. (is_book : Bool) (kinds : List ℕ → Kind) (from : List ℕ)
        → NamesItself is_book kinds place.now
        → led_to is_book kinds from (string_bytes new) ≡ Some place.now) }
{
    let text = encoded(alloc, place)?;
    let path = format!(in alloc; "/{text}")?;
    with_path(alloc, destination, path.as_str())
}

/// The file or folder that a destination leads to from a page, whatever its anchor, and how it names that; `None` if there is
/// none. It is looked for in the tree, or in the tree after a move.
pub(crate) fn target_of(
    alloc: Global,
    tree: &Tree,
    moves: Option<&Moves>,
    from: &str,
    destination: &str,
) -> Result<Option<(String, Form)>, AllocError>
    ensures { IfOk result (λ found. option_map (λ f. string_bytes f.0) found
        ≡ led_to tree.now.is_book (kind_in tree.now moves.entry) from.now destination.now) }
{
    if !is_local(destination) {
        return Ok(None);
    }
    let path = parts(destination).path;
    if path.is_empty() {
        return Ok(Some((String::from_str(alloc, from)?, Form::Exact)));
    }
    let written = decoded(alloc, path)?;
    match resolved(alloc, folder_and_name(from).0, written.as_str())? {
        None => Ok(None),
        Some(place) => tree.named(moves, place.as_str()),
    }
}

/// A move of a page's link: the tree before the move, the page's new path, and the new place of what the link led to.
#[derive(Clone, Copy)]
struct Trip<'t> {
    alloc: Global,
    tree: &'t Tree,
    moves: &'t Moves,
    home: &'t str,
    place: &'t str,
}

impl Trip<'_> {
    /// Whether a destination leads to the place after the move.
    fn leads(&self, destination: &str) -> Result<bool, AllocError>
        ensures only { IfOk result (λ leads. IsTrue leads
            → LeadsAfter self.now.tree.now self.now.moves.now
            self.now.home.now destination.now self.now.place.now) }
        ensures always { IfOk result (λ leads.
            LeadsAfter self.now.tree.now self.now.moves.now
            self.now.home.now destination.now self.now.place.now → IsTrue leads) }
    {
        match target_of(
            self.alloc,
            self.tree,
            Some(self.moves),
            self.home,
            destination,
        )? {
            None => Ok(false),
            Some((found, _form)) => Ok(found.as_str() == self.place),
        }
    }

    /// The destination by a path to a target, spelled as the old one, if it leads to the place.
    fn by(&self, old: &str, target: &str) -> Result<Option<String>, AllocError>
        ensures { IfOk result (λ new. IfSome new (λ new.
            LeadsAfter self.now.tree.now self.now.moves.now
            self.now.home.now (string_bytes new) self.now.place.now)) }
    {
        let folder = folder_and_name(self.home).0;
        let path = spelled(self.alloc, parts(old).path, folder, target)?;
        let new = with_path(self.alloc, old, path.as_str())?;
        if self.leads(new.as_str())? {
            Ok(Some(new))
        } else {
            Ok(None)
        }
    }

    /// The destination by which the link leads to the place, in place of its old one; `None` if that leads there.
    ///
    /// It is spelled as the old one, and names the place in this form or by its path. If neither leads there, it is the path from
    /// the root with percent signs; `None` if not even that does.
    fn destination(&self, old: &str, form: Form) -> Result<Option<String>, AllocError>
        ensures { IfOk result (λ new.
            NamesItself self.now.tree.now.is_book (after self.now.tree.now self.now.moves.now)
            self.now.place.now
            → LeadsAfter self.now.tree.now self.now.moves.now
            self.now.home.now (new_or new old.now) self.now.place.now) }
    {
        if self.leads(old)? {
            return Ok(None);
        }
        let target = in_form(self.alloc, self.place, form)?;
        if let Some(new) = self.by(old, target.as_str())? {
            return Ok(Some(new));
        }
        if let Some(new) = self.by(old, self.place)? {
            return Ok(Some(new));
        }
        let new = from_root(self.alloc, old, self.place)?;
        if self.leads(new.as_str())? {
            Ok(Some(new))
        } else {
            Ok(None)
        }
    }
}

/// The destination that a link of a page needs after a move; `None` if it stays as it is.
///
/// `tree` is the tree before the move, and `from` the page's path before it. A link that led to a file or folder leads to its
/// new place, if the path of that names it after the move. It stays as it is if it leads there from the page's new place, if it
/// led nowhere or out of the root, or if it is not local.
///
/// The new path is relative or begins at the root as the old one did, names the page in the same form, and keeps `./`, a slash
/// at the end, blanks, percent signs, query and anchor. If a path of that form leads elsewhere, it is the path of the file itself.
pub fn relocated(
    alloc: Global,
    tree: &Tree,
    moves: &Moves,
    from: &str,
    destination: &str,
) -> Result<Option<String>, AllocError>
    ensures leads { IfOk result (λ new. Follows tree.now moves.now from.now destination.now new) }
    ensures stays { IfOk result (λ new.
        led_to tree.now.is_book (kind_at tree.now) from.now destination.now ≡ None
        → new ≡ None) }
{
    let Some((path, form)) = target_of(alloc, tree, None, from, destination)? else {
        return Ok(None);
    };
    let home = moves.place_of(alloc, from)?;
    let place = moves.place_of(alloc, path.as_str())?;
    let trip = Trip {
        alloc,
        tree,
        moves,
        home: home.as_str(),
        place: place.as_str(),
    };
    let form = form_after(tree, form, path.as_str(), place.as_str());
    trip.destination(destination, form)
}
