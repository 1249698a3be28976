//! Ranges past a byte order mark.

ghost use Rattle.std.specs.Prelude.{◌≡◌, ◌-◌, map};
ghost use Rattle.tocmark_event.specs.Reading.{reading_view};
ghost use Rattle.tocmark_reader.specs.Definitions.{said_view};
ghost use Rattle.tocmark_marked.specs.Marked.{later, later_definition, later_place, later_reading, with_later_range};

use tocmark_event::event::Event;
use tocmark_event::reader::Reading;
use tocmark_reader::{DefinitionPlace, ReferenceDefinition};

/// How many bytes the mark takes.
const MARK_LENGTH: usize = 3;

/// A range of the text after a mark, in the whole text.
pub(crate) fn later(range: (usize, usize)) -> (usize, usize)
    ensures { result ≡ later range }
{
    (
        range.0.saturating_add(MARK_LENGTH),
        range.1.saturating_add(MARK_LENGTH),
    )
}

/// A range of a text that begins with a mark, in the text after it.
pub fn earlier(range: (usize, usize)) -> (usize, usize)
    ensures { result ≡ (range.0 - 3, range.1 - 3) }
{
    (
        range.0.saturating_sub(MARK_LENGTH),
        range.1.saturating_sub(MARK_LENGTH),
    )
}

/// Gives events of the text after a mark their ranges in the whole text.
fn move_events(events: &mut [(Event<'static>, (usize, usize))])
    ensures { events.new ≡ map with_later_range events.old }
{
    for pair in events.iter_mut() {
        pair.1 = later(pair.1);
    }
}

/// Gives a reading of the text after a mark its ranges in the whole text.
pub(crate) fn moved(reading: Reading) -> Reading
    ensures { reading_view result ≡ later_reading (reading_view reading) }
{
    let mut reading = reading;
    move_events(&mut reading.events);
    reading
}

fn later_place(place: DefinitionPlace) -> DefinitionPlace
    ensures { result ≡ later_place place }
{
    DefinitionPlace {
        whole: later(place.whole),
        destination: later(place.destination),
        title: later(place.title),
    }
}

/// Gives definitions of the text after a mark their ranges in the whole text.
pub(crate) fn move_definitions(definitions: &mut [ReferenceDefinition])
    ensures { map said_view definitions.new ≡ map later_definition (map said_view definitions.old) }
{
    for definition in definitions.iter_mut() {
        definition.place = later_place(definition.place);
    }
}
