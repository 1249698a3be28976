//! Where an error is, in the form that C gets.

ghost use Rattle.tocmark_c.specs.Place.{IsFilled};

use tocmark_rewrite::Place;

/// The size of `TocmarkPlace` in bytes. A later header can have a larger one.
const SIZE: u32 = 32;

/// Where an error is: an event, and lines of the source.
#[repr(C)]
#[derive(Clone, Copy)]
pub struct TocmarkPlace {
    /// The size of this struct in bytes, as C knows it.
    pub size: u32,
    /// The number of the event, counted from 0; the largest number if it isn't known.
    pub event: usize,
    /// The first line of the source that is concerned, counted from 1; 0 if it isn't known.
    pub first_line: usize,
    /// The last line of the source that is concerned; 0 if it isn't known.
    pub last_line: usize,
}

impl TocmarkPlace {
    /// Stores where an error is, or that it isn't known. A smaller struct stays as it is. Of a larger one, only these fields
    /// change.
    pub fn fill(&mut self, place: Option<Place>)
        ensures { IsFilled self.old self.new }
    {
        if self.size < SIZE {
            return;
        }
        let (event, lines) = match place {
            Some(place) => (place.event, place.lines),
            None => (usize::MAX, None),
        };
        let (first, last) = lines.unwrap_or((0, 0));
        self.event = event;
        self.first_line = first;
        self.last_line = last;
    }
}
