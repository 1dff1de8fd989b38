ghost use Rattle.sc_ast.specs.Prelude.{has_nameless, head_of, param_of};
ghost use Rattle.std.specs.Prelude.{◌≡◌, IsTrue, IfOk, IfSome, IfNone, map};

use crate::section::{FunctionHead, FunctionParam, FunctionParams, HeadTree, ParamTree};
use sc_base::OutOfMemory;
use sqlite_items::Items;
use std::alloc::Global;

impl HeadTree {
    /// The head as that of a function, which it can be where each parameter has a name.
    pub fn named(&self, alloc: Global) -> Result<Option<FunctionHead>, OutOfMemory>
        ensures named { IfOk result (λ found. IfSome found (λ head. head_of head ≡ self.now)) }
        ensures nameless { IfOk result (λ found. IfNone found (IsTrue (has_nameless self.now.params))) }
    {
        match named_params(alloc, self.params.as_slice())? {
            None => Ok(None),
            Some(params) => Ok(Some(FunctionHead {
                result: self.result,
                name: self.name,
                params,
                line: self.line,
            })),
        }
    }
}

fn named_params(alloc: Global, params: &[ParamTree]) -> Result<Option<FunctionParams>, OutOfMemory>
    ensures named { IfOk result (λ found. IfSome found (λ list. map param_of list ≡ params.now)) }
    ensures nameless { IfOk result (λ found. IfNone found (IsTrue (has_nameless params.now))) }
{
    let mut list = Items::new(alloc);
    for param in params {
        match param.name {
            None => return Ok(None),
            Some(name) => list.push(FunctionParam { ty: param.ty, name })?,
        }
    }
    Ok(Some(list))
}
