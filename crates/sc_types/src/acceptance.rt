ghost use Rattle.sc_types.specs.Prelude.{AreLow, FailsRules, IsTyped, counts_broken, names_broken};
ghost use Rattle.sc_types_interfaces.specs.Prelude.{interface_broken};
ghost use Rattle.sc_types_elab.specs.Prelude.{program_of, types_broken};
ghost use Rattle.std.specs.Prelude.{◌≡◌, [], None, Some, OnOk, IfOk, IsErrOf};
ghost use Rattle.sc_lex.specs.declared.refusal.Refusal.{Refusal};

use crate::counts::broken_count;
use sc_ast::SectionTree;
use sc_core::Program;
use sc_lex::{Phase, Refusal};
use sc_parse_read::{TextFault, Trees};
use sc_types_elab::{broken_type, build_program};
use sc_types_interfaces::{broken_interface, interfaces};
use sc_types_scope::broken_name;
use std::alloc::Global;

/// The program of a text's sections, or the first of the phases names, types, interface and count that they fail, and
/// the line: the least positive one at which a rule of that phase is broken, or 0 where only a `main` is missing.
pub fn type_program(alloc: Global, sections: &[SectionTree]) -> Result<Program, TextFault>
    requires { AreLow sections.now }
    ensures accepted { IfOk result (IsTyped sections.now) }
    ensures refused { (refusal : Refusal) → IsErrOf result (TextFault.Refused refusal) →
        FailsRules sections.now refusal.phase refusal.line }
{
    check_rules(alloc, sections)?;
    build(alloc, sections)
}

/// The same, where the trees of a section are given back once it is built.
pub(crate) fn into_program(alloc: Global, sections: Trees) -> Result<Program, TextFault>
    requires { AreLow sections }
    ensures accepted { IfOk result (IsTyped sections) }
    ensures refused { (refusal : Refusal) → IsErrOf result (TextFault.Refused refusal) →
        FailsRules sections refusal.phase refusal.line }
{
    check_rules(alloc, sections.as_slice())?;
    built_from(alloc, sections)
}

// Tries the rules of all four phases.
fn check_rules(alloc: Global, sections: &[SectionTree]) -> Result<(), TextFault>
    ensures names { OnOk result (names_broken sections.now ≡ []) }
    ensures types { OnOk result (types_broken sections.now ≡ []) }
    ensures interfaces { OnOk result (interface_broken sections.now ≡ []) }
    ensures counts { OnOk result (counts_broken sections.now ≡ []) }
    ensures refused { (refusal : Refusal) → IsErrOf result (TextFault.Refused refusal) →
        FailsRules sections.now refusal.phase refusal.line }
{
    check_names(alloc, sections)?;
    check_types(alloc, sections)?;
    check_interfaces(alloc, sections)?;
    check_counts(alloc, sections)
}

#[tactic(auto, using(crate::proofs::Phases::passes))]
fn check_names(alloc: Global, sections: &[SectionTree]) -> Result<(), TextFault>
    ensures ok { OnOk result (names_broken sections.now ≡ []) }
    ensures refused { (refusal : Refusal) → IsErrOf result (TextFault.Refused refusal) →
        FailsRules sections.now refusal.phase refusal.line }
{
    pass(
        Phase::Names,
        broken_name(alloc, sections).map_err(|_| TextFault::OutOfMemory)?,
    )
}

#[tactic(auto, using(crate::proofs::Phases::passes))]
fn check_types(alloc: Global, sections: &[SectionTree]) -> Result<(), TextFault>
    requires { names_broken sections.now ≡ [] }
    ensures ok { OnOk result (types_broken sections.now ≡ []) }
    ensures refused { (refusal : Refusal) → IsErrOf result (TextFault.Refused refusal) →
        FailsRules sections.now refusal.phase refusal.line }
{
    pass(
        Phase::Types,
        broken_type(alloc, sections).map_err(|_| TextFault::OutOfMemory)?,
    )
}

#[tactic(auto, using(crate::proofs::Phases::passes))]
fn check_interfaces(alloc: Global, sections: &[SectionTree]) -> Result<(), TextFault>
    requires names { names_broken sections.now ≡ [] }
    requires types { types_broken sections.now ≡ [] }
    ensures ok { OnOk result (interface_broken sections.now ≡ []) }
    ensures refused { (refusal : Refusal) → IsErrOf result (TextFault.Refused refusal) →
        FailsRules sections.now refusal.phase refusal.line }
{
    pass(
        Phase::Interface,
        broken_interface(alloc, sections).map_err(|_| TextFault::OutOfMemory)?,
    )
}

#[tactic(auto, using(crate::proofs::Phases::passes))]
fn check_counts(alloc: Global, sections: &[SectionTree]) -> Result<(), TextFault>
    requires names { names_broken sections.now ≡ [] }
    requires types { types_broken sections.now ≡ [] }
    requires interfaces { interface_broken sections.now ≡ [] }
    ensures ok { OnOk result (counts_broken sections.now ≡ []) }
    ensures refused { (refusal : Refusal) → IsErrOf result (TextFault.Refused refusal) →
        FailsRules sections.now refusal.phase refusal.line }
{
    pass(
        Phase::Count,
        broken_count(alloc, sections).map_err(|_| TextFault::OutOfMemory)?,
    )
}

// Sections that break no rule of a phase pass it, and others are refused at this line.
fn pass(phase: Phase, line: Option<u32>) -> Result<(), TextFault>
    ensures ok { OnOk result (line ≡ None) }
    ensures refused { (refusal : Refusal) → IsErrOf result (TextFault.Refused refusal) →
        (phase ≡ refusal.phase) × (line ≡ Some refusal.line) }
{
    match line {
        None => Ok(()),
        Some(line) => Err(TextFault::Refused(Refusal { phase, line })),
    }
}

#[tactic(auto, using(crate::proofs::Phases::within_counts, crate::proofs::Phases::built_well))]
fn build(alloc: Global, sections: &[SectionTree]) -> Result<Program, TextFault>
    requires low { AreLow sections.now }
    requires names { names_broken sections.now ≡ [] }
    requires types { types_broken sections.now ≡ [] }
    requires interfaces { interface_broken sections.now ≡ [] }
    requires counts { counts_broken sections.now ≡ [] }
    ensures built { IfOk result (λ program. program ≡ program_of sections.now) }
    ensures memory { (refusal : Refusal) → IsErrOf result (TextFault.Refused refusal) → ⊥ }
{
    let interfaces = interfaces(alloc, sections).map_err(|_| TextFault::OutOfMemory)?;
    let tree = build_program(alloc, sections, interfaces).map_err(|_| TextFault::OutOfMemory)?;
    Ok(Program::new(tree))
}

#[tactic(auto, using(crate::proofs::Phases::within_counts, crate::proofs::Phases::built_well))]
fn built_from(alloc: Global, sections: Trees) -> Result<Program, TextFault>
    requires low { AreLow sections }
    requires names { names_broken sections ≡ [] }
    requires types { types_broken sections ≡ [] }
    requires interfaces { interface_broken sections ≡ [] }
    requires counts { counts_broken sections ≡ [] }
    ensures built { IfOk result (λ program. program ≡ program_of sections) }
    ensures memory { (refusal : Refusal) → IsErrOf result (TextFault.Refused refusal) → ⊥ }
{
    let interfaces = interfaces(alloc, sections.as_slice()).map_err(|_| TextFault::OutOfMemory)?;
    let tree = sc_types_elab::into_program(alloc, sections, interfaces).map_err(
        |_| TextFault::OutOfMemory,
    )?;
    Ok(Program::new(tree))
}
