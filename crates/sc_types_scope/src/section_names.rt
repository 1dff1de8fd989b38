ghost use Rattle.sc_types_scope.specs.Prelude.{declared, function_names, import_names, with_decl};
ghost use Rattle.std.specs.Prelude.{◌≡◌, ◌++◌, [], map, OnOk, IfOk};

use sc_ast::{Decl, SectionTree};
use sc_base::{NameList, OutOfMemory};
use std::alloc::Global;

/// The names that a section declares before one of its declarations, those that it imports, and those that may be
/// called in it.
#[derive(Drop)]
pub struct SectionNames {
    pub structs: NameList,
    pub globals: NameList,
    pub functions: NameList,
    pub protos: NameList,
    pub imports: NameList,
    /// The functions that the section defines, wherever, and those that it imports.
    pub callables: NameList,
}

impl SectionNames {
    /// The names before the first declaration.
    pub fn new(alloc: Global, section: &SectionTree) -> Result<SectionNames, OutOfMemory>
        ensures { IfOk result (λ names. names ≡ declared section.now []) }
    {
        let mut callables = NameList::new(alloc);
        push_functions(&mut callables, section)?;
        push_imports(&mut callables, section)?;
        let mut imports = NameList::new(alloc);
        push_imports(&mut imports, section)?;
        Ok(SectionNames {
            structs: NameList::new(alloc),
            globals: NameList::new(alloc),
            functions: NameList::new(alloc),
            protos: NameList::new(alloc),
            imports,
            callables,
        })
    }

    /// The names before the next declaration.
    pub fn push(&mut self, decl: &Decl) -> Result<(), OutOfMemory>
        ensures { OnOk result (self.new ≡ with_decl self.old decl.now) }
    {
        match decl {
            Decl::Struct(tree) => self.structs.push(tree.name.name()),
            Decl::Global(tree) => self.globals.push(tree.name.name()),
            Decl::Proto(head) => self.protos.push(head.name.name()),
            Decl::Function(tree) => self.functions.push(tree.head.name.name()),
        }
    }
}

// The functions that a section defines, in order.
fn push_functions(names: &mut NameList, section: &SectionTree) -> Result<(), OutOfMemory>
    ensures { OnOk result (names.new ≡ names.old ++ function_names section.now.decls) }
{
    for decl in section.decls.as_slice() {
        if let Decl::Function(tree) = decl {
            names.push(tree.head.name.name())?;
        }
    }
    Ok(())
}

fn push_imports(names: &mut NameList, section: &SectionTree) -> Result<(), OutOfMemory>
    ensures { OnOk result (names.new ≡ names.old ++ import_names section.now) }
{
    for line in section.imports.as_slice() {
        names.push(line.name)?;
    }
    Ok(())
}
