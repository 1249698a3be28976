//! Laws of the contents of leaves, and of the labels that their inlines look up.

ghost use Rattle.tocmark_standard_laws.specs.Contents.{ContentsAreDeclared};
ghost use Rattle.tocmark_standard_laws.specs.Labels.{DefinedLabelsAreDeclared, LabelsAreDeclared};
ghost use Rattle.tocmark_standard_laws.specs.Leaves.{LeavesAreReadAsDeclared};

/// The content that the reader makes of a leaf's lines is the text of these lines that CommonMark declares (4.8).
pub fn contents_are_declared()
    ensures { ContentsAreDeclared }
{}

/// The labels of a document lead to what CommonMark declares (4.7), in each text of leaf blocks and block quotes.
pub fn labels_are_declared()
    ensures { LabelsAreDeclared }
{}

/// The labels that a reading says are defined are those of the declared definitions, in such a text.
pub fn defined_labels_are_declared()
    ensures { DefinedLabelsAreDeclared }
{}

/// In such a text, the inlines of each leaf are those that CommonMark declares of its lines and of the document's definitions
/// (chapter 6).
pub fn leaves_are_read_as_declared()
    ensures { LeavesAreReadAsDeclared }
{}
