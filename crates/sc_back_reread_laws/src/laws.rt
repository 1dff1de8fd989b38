// The laws, each the contract of a function with nothing to do.

ghost use Rattle.sc_back_reread_laws.specs.Names.{NamesAreIdentifiers};
ghost use Rattle.sc_back_reread_laws.specs.Performing.{PerformingTextsAreRead};
ghost use Rattle.sc_back_reread_laws.specs.Replaced.{ReplacedTextsAreRead};

/// The text by which a compartment performs rows is read as the tree of its section, lines aside.
pub fn performing_texts_are_read()
    ensures { PerformingTextsAreRead }
{}

/// A text that is read stays so where sections are replaced by texts that perform: it is split into the same preamble
/// and the new sections, and those that are kept are read as the same trees at other lines.
pub fn replaced_texts_are_read()
    ensures { ReplacedTextsAreRead }
{}

/// In the trees that a text is read as, sections, directives and functions have names of the language.
pub fn names_are_identifiers()
    ensures { NamesAreIdentifiers }
{}
