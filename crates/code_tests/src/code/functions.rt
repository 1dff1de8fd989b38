ghost use Rattle.std.specs.Prelude.{◌≡◌, [], ◌∷◌, Some, codes, true, IfOk};
ghost use Rattle.sc_event.specs.declared.row.Entry.TheVariants.{Main};
ghost use Rattle.sc_event.specs.declared.interface.Interfaces.{Interfaces};

use sc_base::{Name, OutOfMemory};
use sc_core::{TypedGlobals, TypedStructs};
use sc_event::{CompId, Entry, Imports, Interface, InterfaceList, Interfaces, Protos};
use sc_tac::{
    ObjectCells, Tac, TacFn, TacFnTree, TacFns, TacSection, TacSections, TacStmts, TacTree,
    reg_count,
};
use std::alloc::Global;
use std::test::Fail;

// `int main(void) { }`, whose closing brace gives 0.
#[tactic(auto, unfolding(sc_base::specs::Identifier::is_name))]
fn main_function(alloc: Global) -> TacFn
    ensures { result ≡ record {
      comp = 0;
      name = codes "main";
      entry = Some Main;
      params = 0;
      result = true;
      temps = 0;
      objects = [];
      nodes = 1;
      body = [];
    } }
{
    TacFn::new(TacFnTree {
        comp: CompId::first(),
        name: Name::new(b"main").unwrap(),
        entry: Some(Entry::Main),
        params: 0,
        result: true,
        temps: 0,
        objects: ObjectCells::new(alloc),
        nodes: 1,
        body: TacStmts::new(alloc),
    })
}

#[test]
fn a_function(rt: HostRuntime) {
    let main = main_function(rt.alloc());
    assert!(rt; main.tree().entry == Some(Entry::Main));
    assert_eq!(rt; main.tree().nodes, 1);
    assert_eq!(rt; main.weight(), 10);
    assert_eq!(rt; main.branches(), 0);
    assert_eq!(rt; reg_count(), 18);
}

// One compartment without imports.
#[tactic(auto, unfolding(sc_base::specs::Identifier::is_name))]
fn one_compartment(alloc: Global) -> Result<Interfaces, OutOfMemory>
    ensures { IfOk result (λ interfaces. interfaces ≡ record {
      comps = record { name = codes "Main"; exports = []; imports = [] } ∷ [];
      main = 0;
    }) }
{
    let mut comps = InterfaceList::new(alloc);
    comps.push(Interface {
        name: Name::new(b"Main").unwrap(),
        exports: Protos::new(alloc),
        imports: Imports::new(alloc),
    })?;
    Ok(Interfaces {
        comps,
        main: CompId::first(),
    })
}

fn main_section(alloc: Global) -> Result<TacSection, OutOfMemory>
    ensures { IfOk result (λ section. section ≡ record {
      structs = [];
      globals = [];
      functions = record {
        comp = 0;
        name = codes "main";
        entry = Some Main;
        params = 0;
        result = true;
        temps = 0;
        objects = [];
        nodes = 1;
        body = [];
      } ∷ [];
    }) }
{
    let mut functions = TacFns::new(alloc);
    functions.push(main_function(alloc))?;
    Ok(TacSection {
        structs: TypedStructs::new(alloc),
        globals: TypedGlobals::new(alloc),
        functions,
    })
}

#[test]
fn a_program(rt: HostRuntime) -> Result<(), Fail> {
    let alloc = rt.alloc();
    let mut sections = TacSections::new(alloc);
    sections.push(main_section(alloc)?)?;
    let program = Tac::new(TacTree {
        interfaces: one_compartment(alloc)?,
        sections,
    });
    assert_eq!(rt; program.tree().sections.as_slice().len(), 1);
    Ok(())
}
