// What the optimiser makes of whole programs, and what it leaves.
use code_texts::lowered;
use sc_opt::optimise;
use sc_tac::{Constant, Tac, TacOp, TacStmt};
use std::alloc::Global;
use std::test::Fail;

// `main` outputs the value of an expression.
fn with_output(alloc: Global, expr: &[u8]) -> Result<Vec<u8>, Fail> {
    let mut text = Vec::new(alloc);
    text.extend_from_slice(
        b"#pragma compartment Main\n#pragma import Env output\nvoid output(int v);\n",
    )?;
    text.extend_from_slice(b"int main(void) {\n  output(")?;
    text.extend_from_slice(expr)?;
    text.extend_from_slice(b");\n  return 0;\n}\n")?;
    Ok(text)
}

// The statements of the first function of the first compartment.
fn body(code: &Tac) -> &[TacStmt] {
    match code.tree().sections.as_slice() {
        [section, ..] => match section.functions.as_slice() {
            [main, ..] => main.tree().body.as_slice(),
            [] => &[],
        },
        [] => &[],
    }
}

fn is_constant(stmt: &TacStmt, word: u32) -> bool {
    match stmt {
        TacStmt::Const { value, .. } => *value == Constant::Word(word),
        _ => false,
    }
}

// Whether code outputs this word and returns 0, and computes nothing.
fn outputs(stmts: &[TacStmt], word: u32) -> bool {
    match stmts {
        [value, TacStmt::Output { .. }, zero, TacStmt::Return { .. }] => {
            is_constant(value, word) && is_constant(zero, 0)
        }
        _ => false,
    }
}

#[test]
fn constants_are_folded(rt: HostRuntime) -> Result<(), Fail> {
    let cases: [(&[u8], u32); 6] = [
        (b"2 + 3 * 4", 14),
        (b"-(5 - 7)", 2),
        (b"!0 + ~0", 0),
        (b"7 / -2", 4_294_967_293),
        (b"1 << 4 | 3 & 6", 18),
        (b"0u - 1u > 5u", 1),
    ];
    for (expr, word) in cases {
        let text = with_output(rt.alloc(), expr)?;
        let code = optimise(rt.alloc(), &lowered(rt.alloc(), text.as_slice())?)?;
        assert!(rt; outputs(body(&code), word));
    }
    Ok(())
}

#[test]
fn long_chains_are_folded(rt: HostRuntime) -> Result<(), Fail> {
    let mut expr = Vec::new(rt.alloc());
    expr.extend_from_slice(b"1")?;
    for _ in 0..250 {
        expr.extend_from_slice(b" + 1")?;
    }
    let text = with_output(rt.alloc(), expr.as_slice())?;
    let code = optimise(rt.alloc(), &lowered(rt.alloc(), text.as_slice())?)?;
    assert!(rt; outputs(body(&code), 251));
    Ok(())
}

#[test]
fn what_is_undefined_stays(rt: HostRuntime) -> Result<(), Fail> {
    let cases: [&[u8]; 5] = [
        b"1 / 0",
        b"2147483647 + 1",
        b"1 << 32",
        b"-2147483647 - 2",
        b"7 % 0",
    ];
    for expr in cases {
        let text = with_output(rt.alloc(), expr)?;
        let code = optimise(rt.alloc(), &lowered(rt.alloc(), text.as_slice())?)?;
        let operators = body(&code)
            .iter()
            .filter(|stmt| matches!(stmt, TacStmt::Op { .. }))
            .count();
        assert_eq!(rt; operators, 1);
    }
    Ok(())
}
