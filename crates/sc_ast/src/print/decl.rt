//! Declarations other than functions, and the heads of functions.

ghost use Rattle.sc_ast.specs.Prelude.{base_words, blank, comma, const_words, declared_words, ended, global_words};
ghost use Rattle.sc_ast.specs.Prelude.{head_of, head_words, init_words, length_words, member_line, minus_words};
ghost use Rattle.sc_ast.specs.Prelude.{name_words, newline, param_of, param_words, params_words, result_words};
ghost use Rattle.sc_ast.specs.Prelude.{struct_words, text_of, word};
ghost use Rattle.std.specs.Prelude.{◌≡◌, ◌<◌, ◌++◌, ◌||◌, [], ◌∷◌, OnOk, codes, nat_lt, is_some, map};
ghost use Rattle.std.specs.List.{flat_map, join_by};

use crate::ident::Ident;
use crate::number::ArrayLength;
use crate::print::types::{append_base, append_blank, append_stars};
use crate::print::words::{append_indent, append_literal, append_number};
use crate::section::{
    ConstTree, Consts, FunctionHead, FunctionParam, FunctionParams, GlobalTree, HeadTree, InitTree,
    MemberTree, MemberTrees, ParamTree, ParamTrees, StructTree,
};
use crate::types::{BaseTree, TypeName, TypeTree};
use sc_base::{OutOfMemory, Text};

fn append_length(out: &mut Text, length: Option<ArrayLength>) -> Result<(), OutOfMemory>
    ensures { OnOk result (out.new ≡ out.old ++ text_of (length_words length)) }
{
    match length {
        None => Ok(()),
        Some(length) => {
            let elements = length.elements();
            out.append(b"[")?;
            append_number(out, elements, elements > 2_147_483_647)?;
            out.append(b"]")
        }
    }
}

// A base and the blank after it.
fn append_specifier(out: &mut Text, base: &BaseTree) -> Result<(), OutOfMemory>
    ensures { OnOk result (out.new ≡ out.old ++ text_of (base_words base.now ++ blank ∷ [])) }
{
    append_base(out, base)?;
    out.push(b' ')
}

/// Adds a type and the name of what is declared.
pub fn append_declared(out: &mut Text, ty: &TypeTree, name: &Ident) -> Result<(), OutOfMemory>
    ensures { OnOk result (out.new ≡ out.old ++ text_of (declared_words ty.now name.now)) }
{
    append_specifier(out, &ty.base)?;
    append_stars(out, ty.stars)?;
    out.append(name.as_bytes())?;
    append_length(out, ty.length)
}

fn append_member(out: &mut Text, member: &MemberTree) -> Result<(), OutOfMemory>
    ensures { OnOk result (out.new ≡ out.old ++ text_of (member_line member.now)) }
{
    append_indent(out, 1)?;
    append_declared(out, &member.ty, &member.name)?;
    out.append(b";\n")
}

fn append_members(out: &mut Text, members: &MemberTrees) -> Result<(), OutOfMemory>
    ensures { OnOk result (out.new ≡ out.old ++ text_of (flat_map member_line members.now)) }
{
    for member in members.as_slice() {
        append_member(out, member)?;
    }
    Ok(())
}

// `struct S {` and the end of its line
fn append_struct_head(out: &mut Text, name: &Ident) -> Result<(), OutOfMemory>
    ensures { OnOk result (out.new ≡ out.old ++ text_of
        (word (codes "struct") ∷ blank ∷ word name.now ∷ blank ∷ word (codes "{") ∷ newline ∷ [])) }
{
    out.append(b"struct ")?;
    out.append(name.as_bytes())?;
    out.append(b" {\n")
}

/// Adds a struct.
pub fn append_struct(out: &mut Text, tree: &StructTree) -> Result<(), OutOfMemory>
    ensures { OnOk result (out.new ≡ out.old ++ text_of (struct_words tree.now)) }
{
    append_struct_head(out, &tree.name)?;
    append_members(out, &tree.members)?;
    out.append(b"};\n")
}

fn append_minus(out: &mut Text, negative: bool) -> Result<(), OutOfMemory>
    ensures { OnOk result (out.new ≡ out.old ++ text_of (minus_words negative)) }
{
    if negative { out.append(b"-") } else { Ok(()) }
}

fn append_const(out: &mut Text, constant: &ConstTree) -> Result<(), OutOfMemory>
    ensures { OnOk result (out.new ≡ out.old ++ text_of (const_words constant.now)) }
{
    append_minus(out, constant.negative)?;
    append_literal(out, &constant.literal)
}

fn append_next_const(out: &mut Text, constant: &ConstTree) -> Result<(), OutOfMemory>
    ensures { OnOk result (out.new ≡ out.old ++ text_of (comma ++ const_words constant.now)) }
{
    out.append(b", ")?;
    append_const(out, constant)
}

fn append_consts(out: &mut Text, constants: &Consts) -> Result<(), OutOfMemory>
    ensures { OnOk result (out.new ≡ out.old ++ text_of (join_by const_words comma constants.now)) }
{
    let [first, rest @ ..] = constants.as_slice() else {
        return Ok(());
    };
    append_const(out, first)?;
    for constant in rest {
        append_next_const(out, constant)?;
    }
    Ok(())
}

fn append_init(out: &mut Text, init: &InitTree) -> Result<(), OutOfMemory>
    ensures { OnOk result (out.new ≡ out.old ++ text_of (init_words init.now)) }
{
    match init {
        InitTree::Absent => Ok(()),
        InitTree::One(constant) => {
            out.append(b" = ")?;
            append_const(out, constant)
        }
        InitTree::Many(constants) => {
            out.append(b" = {")?;
            append_consts(out, constants)?;
            out.append(b"}")
        }
    }
}

/// Adds a global.
pub fn append_global(out: &mut Text, tree: &GlobalTree) -> Result<(), OutOfMemory>
    ensures { OnOk result (out.new ≡ out.old ++ text_of (global_words tree.now)) }
{
    append_declared(out, &tree.ty, &tree.name)?;
    append_init(out, &tree.init)?;
    out.append(b";\n")
}

fn append_name(out: &mut Text, name: &Option<Ident>) -> Result<(), OutOfMemory>
    ensures { OnOk result (out.new ≡ out.old ++ text_of (name_words name.now)) }
{
    match name {
        None => Ok(()),
        Some(name) => out.append(name.as_bytes()),
    }
}

fn append_param(out: &mut Text, param: &ParamTree) -> Result<(), OutOfMemory>
    ensures { OnOk result (out.new ≡ out.old ++ text_of (param_words param.now)) }
{
    append_base(out, &param.ty.base)?;
    append_blank(out, param.ty.stars > 0 || param.name.is_some())?;
    append_stars(out, param.ty.stars)?;
    append_name(out, &param.name)
}

fn append_next_param(out: &mut Text, param: &ParamTree) -> Result<(), OutOfMemory>
    ensures { OnOk result (out.new ≡ out.old ++ text_of (comma ++ param_words param.now)) }
{
    out.append(b", ")?;
    append_param(out, param)
}

fn append_params(out: &mut Text, params: &ParamTrees) -> Result<(), OutOfMemory>
    ensures { OnOk result (out.new ≡ out.old ++ text_of (params_words params.now)) }
{
    let [first, rest @ ..] = params.as_slice() else {
        return out.append(b"void");
    };
    append_param(out, first)?;
    for param in rest {
        append_next_param(out, param)?;
    }
    Ok(())
}

fn param_of(param: &FunctionParam) -> ParamTree
    ensures { result ≡ param_of param.now }
{
    ParamTree {
        ty: param.ty,
        name: Some(param.name),
    }
}

fn append_named_params(out: &mut Text, params: &FunctionParams) -> Result<(), OutOfMemory>
    ensures { OnOk result (out.new ≡ out.old ++ text_of (params_words (map param_of params.now))) }
{
    let [first, rest @ ..] = params.as_slice() else {
        return out.append(b"void");
    };
    append_param(out, &param_of(first))?;
    for param in rest {
        append_next_param(out, &param_of(param))?;
    }
    Ok(())
}

fn append_result(out: &mut Text, result_type: &Option<TypeName>) -> Result<(), OutOfMemory>
    ensures { OnOk result (out.new ≡ out.old ++ text_of (result_words result_type.now)) }
{
    match result_type {
        None => out.append(b"void "),
        Some(ty) => {
            append_specifier(out, &ty.base)?;
            append_stars(out, ty.stars)
        }
    }
}

// A result, a name and `(`.
fn append_signature(
    out: &mut Text,
    result_type: &Option<TypeName>,
    name: &Ident,
) -> Result<(), OutOfMemory>
    ensures { OnOk result (out.new ≡ out.old ++ text_of
        (result_words result_type.now ++ word name.now ∷ word (codes "(") ∷ [])) }
{
    append_result(out, result_type)?;
    out.append(name.as_bytes())?;
    out.append(b"(")
}

/// Adds a prototype.
pub fn append_proto(out: &mut Text, tree: &HeadTree) -> Result<(), OutOfMemory>
    ensures { OnOk result (out.new ≡ out.old ++ text_of (ended (head_words tree.now) ++ newline ∷ [])) }
{
    append_signature(out, &tree.result, &tree.name)?;
    append_params(out, &tree.params)?;
    out.append(b");\n")
}

/// Adds the head of a function.
pub fn append_head(out: &mut Text, head: &FunctionHead) -> Result<(), OutOfMemory>
    ensures { OnOk result (out.new ≡ out.old ++ text_of (head_words (head_of head.now))) }
{
    append_signature(out, &head.result, &head.name)?;
    append_named_params(out, &head.params)?;
    out.append(b")")
}
