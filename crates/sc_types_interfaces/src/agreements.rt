ghost use Rattle.sc_types_interfaces.specs.Prelude.{added, agree, agrees_first, allowed, first_by_name, forbidden};
ghost use Rattle.sc_types_interfaces.specs.Prelude.{no_heads};
ghost use Rattle.std.specs.Prelude.{◌≡◌, OnOk};
ghost use Rattle.std.specs.Option.{option_copied, option_map};

use crate::heads::{agree, copied};
use sc_ast::HeadTree;
use sc_base::{FirstByName, Name, NameTable, OutOfMemory};
use std::alloc::Global;

/// The heads that names stand for, as far as a later head has to agree with all of its name. Where two heads of a name
/// disagree, no head agrees with both, so the first is enough.
#[derive(Drop)]
pub(crate) struct Agreements {
    pub(crate) firsts: FirstByName<HeadTree>,
    /// Names with which no head agrees.
    pub(crate) conflicts: NameTable,
}

impl Agreements {
    /// No heads yet.
    pub(crate) fn new(alloc: Global) -> Agreements
        ensures { result ≡ no_heads }
    {
        Agreements {
            firsts: FirstByName::new(alloc),
            conflicts: NameTable::new(alloc),
        }
    }

    /// The name stands for this head too.
    pub(crate) fn add(
        &mut self,
        alloc: Global,
        name: Name,
        head: &HeadTree,
    ) -> Result<(), OutOfMemory>
        ensures { OnOk result (self.new ≡ added self.old name head.now) }
    {
        match self.agrees(&name, head) {
            None => self.firsts.insert(name, copied(alloc, head)?),
            Some(true) => Ok(()),
            Some(false) => self.forbid(name),
        }
    }

    // Whether the head agrees with the first of the name, if there is one.
    fn agrees(&self, name: &Name, head: &HeadTree) -> Option<bool>
        ensures { result ≡ option_map (λ first. agree first head.now) (first_by_name self.now.firsts name.now) }
    {
        match self.firsts.get(name) {
            None => None,
            Some(first) => Some(agree(first, head)),
        }
    }

    /// No head agrees with what the name stands for.
    pub(crate) fn forbid(&mut self, name: Name) -> Result<(), OutOfMemory>
        ensures { OnOk result (self.new ≡ forbidden self.old name) }
    {
        self.conflicts.add(name)
    }

    /// Whether a head agrees with all that its name stands for.
    pub(crate) fn allows(&self, head: &HeadTree) -> bool
        ensures { result ≡ allowed self.now head.now }
    {
        let name = head.name.name();
        !self.conflicts.contains(&name) && agrees_first(self.firsts.get(&name), head)
    }
}

fn agrees_first(first: Option<&HeadTree>, head: &HeadTree) -> bool
    ensures { result ≡ agrees_first (option_copied first.entry) head.now }
{
    match first {
        None => true,
        Some(first) => agree(first, head),
    }
}
