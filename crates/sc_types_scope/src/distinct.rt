//! Names of which no two are the same.

ghost use Rattle.sc_types_scope.specs.Prelude.{FunctionParam, among, are_distinct, member_names};
ghost use Rattle.std.specs.Prelude.{◌≡◌, ◌++◌, [], ◌∷◌, not, map, OnOk, IfOk};

use sc_ast::{FunctionParam, MemberTree};
use sc_base::{Name, NameList, OutOfMemory};
use std::alloc::Global;

/// Adds a name, and answers whether it is new.
pub fn push_new(names: &mut NameList, name: Name) -> Result<bool, OutOfMemory>
    ensures new { IfOk result (λ is_new. is_new ≡ not (among names.old name)) }
    ensures pushed { OnOk result (names.new ≡ names.old ++ name ∷ []) }
{
    let is_new = !names.contains(&name);
    names.push(name)?;
    Ok(is_new)
}

// Adds a name to names of which it is known whether they are distinct, and answers whether they are so now.
#[tactic(auto, using(crate::proofs::OneMore::more))]
fn push_distinct(names: &mut NameList, name: Name, distinct: bool) -> Result<bool, OutOfMemory>
    requires { distinct ≡ are_distinct names.old }
    ensures distinct { IfOk result (λ distinct. distinct ≡ are_distinct names.new) }
    ensures pushed { OnOk result (names.new ≡ names.old ++ name ∷ []) }
{
    let is_new = push_new(names, name)?;
    Ok(distinct && is_new)
}

/// Adds the names of parameters to none, and answers whether they are distinct.
pub fn push_params(names: &mut NameList, params: &[FunctionParam]) -> Result<bool, OutOfMemory>
    requires { names.old ≡ [] }
    ensures distinct { IfOk result (λ distinct. distinct ≡
        are_distinct (map {A = FunctionParam} (λ param. param.name) params.now)) }
    ensures pushed { OnOk result (names.new ≡ map {A = FunctionParam} (λ param. param.name) params.now) }
{
    let mut distinct = true;
    for param in params {
        distinct = push_distinct(names, param.name.name(), distinct)?;
    }
    Ok(distinct)
}

/// Whether the members of a struct have distinct names.
pub fn members_distinct(alloc: Global, members: &[MemberTree]) -> Result<bool, OutOfMemory>
    ensures { IfOk result (λ distinct. distinct ≡ are_distinct (member_names members.now)) }
{
    let mut names = NameList::new(alloc);
    let mut distinct = true;
    for member in members {
        distinct = push_distinct(&mut names, member.name.name(), distinct)?;
    }
    Ok(distinct)
}
