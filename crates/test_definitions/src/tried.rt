//! Examples of all the spellings that are tried for a unit.

ghost use Rattle.test_definitions.specs.Tried.{AreTried};
ghost use Rattle.test_definitions.specs.Paragraphs.{first_units, second_units, third_units};

/// Single containers, and one in another.
pub fn first_units_are_tried()
    ensures { AreTried first_units }
{}

/// Containers at the ends of others, and beside them.
pub fn second_units_are_tried()
    ensures { AreTried second_units }
{}

/// Longer runs, literal markers, and what is beside them.
pub fn third_units_are_tried()
    ensures { AreTried third_units }
{}
