//! What is kept of each event up to the last delimiter: units without delimiters keep nothing.

ghost use Rattle.std.specs.Prelude.{◌≡◌, ◌∷◌, ◌++◌, ◌+◌, ◌-◌, ◌<◌, ◌≤◌, ℕ, length, replicate, set, slice_index_or, take, vec_capacity, None, OnOk, Some};
ghost use Rattle.tocmark_write_pending.specs.DelimiterColumn.{noted, numbers_of, widths_of};

/// What is kept of an event.
#[derive(Clone, Copy)]
pub struct Delimiter {
    /// How many runs begin up to it: for a delimiter, the number of the run in which it is.
    pub run: usize,
    /// How many markers the container opens with that it starts, if that has ended; 0 for others.
    pub width: usize,
}

/// The number of the run in which the delimiter at a place is.
pub(crate) fn number_at(delimiters: &[Delimiter], place: usize) -> usize
    ensures { result ≡ slice_index_or (numbers_of delimiters.now) place 0 }
{
    if place < delimiters.len() {
        delimiters[place].run
    } else {
        0
    }
}

/// How many markers the container opens with that starts at a place, if it has ended; 0 for another event.
pub(crate) fn width_at(delimiters: &[Delimiter], place: usize) -> usize
    ensures { result ≡ slice_index_or (widths_of delimiters.now) place 0 }
{
    if place < delimiters.len() {
        delimiters[place].width
    } else {
        0
    }
}

/// Notes that so many runs begin up to the delimiter at a place, the last event. There is room for it.
pub(crate) fn note_run(delimiters: &mut Vec<Delimiter>, place: usize, run: usize)
    requires inside { length delimiters.old.items ≤ place }
    requires room { place < vec_capacity delimiters.old }
    ensures { delimiters.new.items ≡ noted place run delimiters.old.items }
{
    let delimiter = Delimiter { run, width: 0 };
    let _room = delimiters.resize(place + 1, delimiter);
}

/// Notes how many markers a container opens with whose start is at a place, if one ends. After the last
/// delimiter nothing is noted.
#[inline(always)]
pub(crate) fn note_width(delimiters: &mut Vec<Delimiter>, ended: Option<usize>, width: usize)
    ensures numbers { numbers_of delimiters.new.items ≡ numbers_of delimiters.old.items }
    ensures same { ended ≡ None → delimiters.new.items ≡ delimiters.old.items }
    ensures widths { (p : ℕ) → ended ≡ Some p
        → widths_of delimiters.new.items ≡ set (widths_of delimiters.old.items) p width }
{
    if let Some(start) = ended {
        if start < delimiters.len() {
            let run = delimiters[start].run;
            delimiters[start] = Delimiter { run, width };
        }
    }
}
