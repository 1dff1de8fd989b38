// The types of values, as the program that is read has them.
use sc_core::{BaseTy, Ty, TypedStmtKind};
use sc_types::SourceText;
use std::alloc::Global;
use std::test::Fail;

const BEFORE: &[u8] = b"#pragma compartment Main
struct S { int n; unsigned int m; int *q; struct S *next; unsigned int list[3]; };
int main(void) {
  int i, *p, a[2]; unsigned int u, *r, b[2]; struct S s, *t; int **z;
  if (";

const AFTER: &[u8] = b") { }
}
";

const POINTER: Ty = Ty::Pointer {
    stars: 1,
    base: BaseTy::Int,
};

const UNSIGNED_POINTER: Ty = Ty::Pointer {
    stars: 1,
    base: BaseTy::Unsigned,
};

const POINTER_TO_POINTER: Ty = Ty::Pointer {
    stars: 2,
    base: BaseTy::Int,
};

const STRUCT_POINTER: Ty = Ty::Pointer {
    stars: 1,
    base: BaseTy::Struct(0),
};

// Expressions, and their types.
const RESULTS: [(&[u8], Ty); 71] = [
    // Literals are unsigned by their suffix, and where they are octal or hexadecimal and fit no `int`.
    (b"1", Ty::Int),
    (b"2147483647", Ty::Int),
    (b"1u", Ty::Unsigned),
    (b"0U", Ty::Unsigned),
    (b"0x7fffffff", Ty::Int),
    (b"0x80000000", Ty::Unsigned),
    (b"017777777777", Ty::Int),
    (b"020000000000", Ty::Unsigned),
    // `* / %`, `+ -`, `& ^ |` are unsigned if one operand is.
    (b"i + i", Ty::Int),
    (b"i + u", Ty::Unsigned),
    (b"u - i", Ty::Unsigned),
    (b"i * 1u", Ty::Unsigned),
    (b"u / 2", Ty::Unsigned),
    (b"i % u", Ty::Unsigned),
    (b"i & u", Ty::Unsigned),
    (b"u ^ i", Ty::Unsigned),
    (b"i | u", Ty::Unsigned),
    (b"u * u", Ty::Unsigned),
    (b"i / 2 % 3 - i", Ty::Int),
    (b"i + i * u", Ty::Unsigned),
    // Shifts have the type of the left.
    (b"i << u", Ty::Int),
    (b"u << i", Ty::Unsigned),
    (b"i >> 1u", Ty::Int),
    (b"u >> 1", Ty::Unsigned),
    // Comparisons and logic give an `int`.
    (b"u < u", Ty::Int),
    (b"u == i", Ty::Int),
    (b"p != 0", Ty::Int),
    (b"p <= p", Ty::Int),
    (b"u && u", Ty::Int),
    (b"p || u", Ty::Int),
    (b"!u", Ty::Int),
    (b"!p", Ty::Int),
    (b"(u > u) + u", Ty::Unsigned),
    // `- + ~` keep the type.
    (b"-u", Ty::Unsigned),
    (b"+u", Ty::Unsigned),
    (b"~u", Ty::Unsigned),
    (b"-i", Ty::Int),
    (b"~(i + u)", Ty::Unsigned),
    // Pointers.
    (b"p + 1", POINTER),
    (b"u + p", POINTER),
    (b"p - u", POINTER),
    (b"a + 1", POINTER),
    (b"1 + b", UNSIGNED_POINTER),
    (b"r - i", UNSIGNED_POINTER),
    (b"t + u", STRUCT_POINTER),
    (b"p - p", Ty::Int),
    (b"r - b", Ty::Int),
    (b"t - t", Ty::Int),
    (b"r - r + u", Ty::Unsigned),
    (b"*p", Ty::Int),
    (b"*r", Ty::Unsigned),
    (b"b[0]", Ty::Unsigned),
    (b"a[u]", Ty::Int),
    (b"*z", POINTER),
    (b"z[1][2]", Ty::Int),
    (b"&i", POINTER),
    (b"&u", UNSIGNED_POINTER),
    (b"&p", POINTER_TO_POINTER),
    (b"&a[1]", POINTER),
    (b"&s", STRUCT_POINTER),
    (b"&*r", UNSIGNED_POINTER),
    // Members.
    (b"s.n", Ty::Int),
    (b"s.m", Ty::Unsigned),
    (b"t->m", Ty::Unsigned),
    (b"s.q", POINTER),
    (b"t->next", STRUCT_POINTER),
    (b"s.next->next->m", Ty::Unsigned),
    (b"(*t).list[1]", Ty::Unsigned),
    (b"s.list + 1", UNSIGNED_POINTER),
    (b"&t->m", UNSIGNED_POINTER),
    (b"&t->q", POINTER_TO_POINTER),
];

// The type of the condition that the first statement of the only function has.
fn type_of(alloc: Global, expression: &[u8]) -> Result<Ty, Fail> {
    let text = [BEFORE, expression, AFTER].concat(alloc)?;
    let source = SourceText::read(alloc, text.as_slice())?;
    let section = source.program().tree().sections.get(0).ok_or("no section")?;
    let main = section.functions.get(0).ok_or("no function")?;
    let stmt = main.body.get(0).ok_or("no statement")?;
    match &stmt.kind {
        TypedStmtKind::If { cond, .. } => Ok(cond.get().ty),
        _ => Err("no condition")?,
    }
}

#[test]
fn results(rt: HostRuntime) -> Result<(), Fail> {
    for (row, (expression, ty)) in RESULTS.iter().enumerate() {
        assert_eq!(rt; type_of(rt.alloc(), expression)?, *ty, "row {row}");
    }
    Ok(())
}
