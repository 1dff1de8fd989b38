// The law, the contract of a function with nothing to do.

ghost use Rattle.sc_types_section_laws.specs.Sections.{SectionsAreTypedAlone};

use sc_lex::one_cut;
use sc_parse::one_section;

/// Two accepted texts with the same interfaces have the same typed section of a number, where its bytes are the same in
/// both.
pub fn sections_are_typed_alone()
    ensures { SectionsAreTypedAlone }
{
    one_cut();
    one_section();
}
