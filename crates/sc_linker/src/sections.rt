//! What there is of a compartment in a program and its codes.

ghost use Rattle.sc_linker.specs.Prelude.{codes_in, exports_at, section_at, total};
ghost use Rattle.std.specs.Prelude.{◌≡◌, ◌<◌, length, map};
ghost use Rattle.sc_core.specs.declared.section.TypedSection.{TypedSection};

use sc_core::{ProgramTree, TypedSection};
use sc_event::{CompId, Proto};
use sc_tac::Code;

/// The section of a compartment.
pub fn section_at(program: &ProgramTree, comp: CompId) -> &TypedSection
    requires { comp < length program.now.sections }
    ensures { result.now ≡ section_at program.now comp }
{
    &program.sections.as_slice()[comp.number() as usize]
}

/// What a compartment exports.
pub fn exports_at(program: &ProgramTree, comp: CompId) -> &[Proto]
    ensures { result.now ≡ exports_at program.now comp }
{
    match program.interfaces.comp(comp) {
        None => &[],
        Some(interface) => interface.exports.as_slice(),
    }
}

/// The codes of a compartment's functions.
pub fn codes_in<'a>(comp: CompId, sections: &[TypedSection], codes: &'a [Code]) -> &'a [Code]
    requires { length codes.now ≡
        total (map {A = TypedSection} (λ section. length section.functions) sections.now) }
    ensures { result.now ≡ codes_in comp sections.now codes.now }
{
    let mut rest = codes;
    let mut before = comp.number();
    for section in sections {
        let (own, following) = rest.split_at(section.functions.len());
        if before == 0 {
            return own;
        }
        rest = following;
        before -= 1;
    }
    rest
}
