// The limits, by texts that are built.
use judged_texts::judge;
use sc_lex::{Phase, Refusal};
use std::alloc::Global;
use std::test::Fail;

// A statement that grows: how it begins, what is repeated in it, what is in the middle, what is repeated as often after
// that, and how it ends. The number is the greatest that is taken.
type Growing = (
    &'static [u8],
    &'static [u8],
    &'static [u8],
    &'static [u8],
    &'static [u8],
    usize,
);

// What stands before the statement, which is line 5.
const BEFORE: &[u8] = b"#pragma compartment Main
int f(int n) { return n; }
int main(void) {
  int i, a[2];
";

const AFTER: &[u8] = b"
  return 0;
}
";

// No tree is higher than 256, where a leaf is 1 high. Nowhere are more than 1024 brackets open.
const STATEMENTS: [Growing; 20] = [
    // `i = E` is one higher than `E`, and so are `return E`, and a branch and a loop by their condition.
    (b"i = ", b"- ", b"1", b"", b";", 254),
    (b"i = 1", b" + 1", b"", b"", b";", 254),
    (b"i = ", b"(1 + ", b"1", b")", b";", 254),
    (b"i = ", b"a[", b"0", b"]", b";", 254),
    (b"", b"a[", b"0", b"]", b" = 1;", 254),
    (b"return ", b"! ", b"i", b"", b";", 254),
    (b"if (", b"~ ", b"i", b"", b") { }", 254),
    (b"while (", b"+ ", b"i", b"", b") { }", 254),
    (b"for (; ", b"- ", b"i", b"", b"; ) { }", 254),
    // A call adds no level to its statement.
    (b"f(", b"- ", b"1", b"", b");", 254),
    (b"i = f(", b"- ", b"1", b"", b");", 254),
    (b"return f(", b"- ", b"1", b"", b");", 254),
    // `L op= E` is as high as `L = L op (E)`, and `L++` as `L = L + 1`.
    (b"i += ", b"- ", b"1", b"", b";", 253),
    (b"++", b"a[", b"0", b"]", b";", 253),
    // A part of a `for` is a statement of its own.
    (b"for (i = ", b"- ", b"1", b"", b"; ; ) { }", 253),
    // An initialiser may itself be 256 high.
    (b"int k = ", b"- ", b"1", b"", b";", 255),
    // A list of statements adds nothing by its length.
    (
        b"i = 1; i = 2; ",
        b"while (1) { ",
        b"i = 1; i = 2;",
        b"}",
        b" i = 3;",
        254,
    ),
    (b"if (1) { }", b" else if (1) { }", b"", b"", b"", 254),
    // Parentheses leave no mark, and are open together with the function's own bracket.
    (b"i = ", b"(", b"1", b")", b";", 1023),
    (b"for (i = ", b"(", b"1", b")", b"; ; ) { }", 1022),
];

fn repeat(text: &mut Vec<u8>, each: &[u8], count: usize) -> Result<(), Fail> {
    for _ in 0..count {
        text.extend_from_slice(each)?;
    }
    Ok(())
}

fn grown(alloc: Global, statement: &Growing, count: usize) -> Result<Vec<u8>, Fail> {
    let (before, each, middle, closing, following, _) = *statement;
    let mut text = BEFORE.to_vec(alloc)?;
    text.extend_from_slice(before)?;
    repeat(&mut text, each, count)?;
    text.extend_from_slice(middle)?;
    repeat(&mut text, closing, count)?;
    text.extend_from_slice(following)?;
    text.extend_from_slice(AFTER)?;
    Ok(text)
}

#[test]
fn statements(rt: HostRuntime) -> Result<(), Fail> {
    let alloc = rt.alloc();
    let higher = Some(Refusal {
        phase: Phase::Syntax,
        line: 5,
    });
    for (row, statement) in STATEMENTS.iter().enumerate() {
        let most = grown(alloc, statement, statement.5)?;
        assert_eq!(rt; judge(alloc, most.as_slice())?, None, "row {row}");
        let more = grown(alloc, statement, statement.5 + 1)?;
        assert_eq!(rt;
            judge(alloc, more.as_slice())?,
            higher,
            "row {row}, one more"
        );
    }
    Ok(())
}

// The bracket too many is on a line of its own.
#[test]
fn brackets(rt: HostRuntime) -> Result<(), Fail> {
    let brackets: Growing = (b"i =\n", b"(\n", b"1", b")", b";", 1023);
    let text = grown(rt.alloc(), &brackets, 1030)?;
    let want = Refusal {
        phase: Phase::Syntax,
        line: 6 + 1023,
    };
    assert_eq!(rt; judge(rt.alloc(), text.as_slice())?, Some(want));
    Ok(())
}

// The refusal of Count at a line.
fn counted(line: u32) -> Option<Refusal> {
    Some(Refusal {
        phase: Phase::Count,
        line,
    })
}

// A main compartment of two lines, and `others` more compartments, one a line.
fn with_sections(alloc: Global, others: usize) -> Result<Vec<u8>, Fail> {
    let mut text = b"#pragma compartment Main\nint main(void) { return 0; }\n".to_vec(alloc)?;
    for number in 0..others {
        let line = format!(in alloc; "#pragma compartment C{number}\n")?;
        text.extend_from_slice(line.as_bytes())?;
    }
    Ok(text)
}

#[test]
fn sections(rt: HostRuntime) -> Result<(), Fail> {
    let alloc = rt.alloc();
    for (others, want) in [(31, None), (32, counted(34)), (40, counted(34))] {
        let text = with_sections(alloc, others)?;
        assert_eq!(rt; judge(alloc, text.as_slice())?, want, "{others} others");
    }
    Ok(())
}

// A compartment `A` with `exports` exports, one directive a line.
fn exporting(alloc: Global, exports: usize) -> Result<Vec<u8>, Fail> {
    let mut text = b"#pragma compartment A\n".to_vec(alloc)?;
    for number in 0..exports {
        let line = format!(in alloc; "#pragma export f{number}\n")?;
        text.extend_from_slice(line.as_bytes())?;
    }
    for number in 0..exports {
        let line = format!(in alloc; "void f{number}(void) {{ }}\n")?;
        text.extend_from_slice(line.as_bytes())?;
    }
    Ok(text)
}

// A compartment `Main` that imports them, and one function of the environment after these.
fn importing(alloc: Global, imports: usize) -> Result<Vec<u8>, Fail> {
    let mut text = b"#pragma compartment Main\n".to_vec(alloc)?;
    for number in 0..imports {
        let line = format!(in alloc; "#pragma import A f{number}\n")?;
        text.extend_from_slice(line.as_bytes())?;
    }
    text.extend_from_slice(b"#pragma import Env input\nint input(void);\n")?;
    for number in 0..imports {
        let line = format!(in alloc; "void f{number}(void);\n")?;
        text.extend_from_slice(line.as_bytes())?;
    }
    text.extend_from_slice(b"int main(void) { return 0; }\n")?;
    Ok(text)
}

fn with_exports(alloc: Global, exports: usize) -> Result<Option<Refusal>, Fail> {
    let mut text = exporting(alloc, exports)?;
    text.extend_from_slice(b"#pragma compartment Main\nint main(void) { return 0; }\n")?;
    judge(alloc, text.as_slice())
}

#[test]
fn most_exports(rt: HostRuntime) -> Result<(), Fail> {
    assert_eq!(rt; with_exports(rt.alloc(), 4096)?, None);
    Ok(())
}

#[test]
fn one_export_more(rt: HostRuntime) -> Result<(), Fail> {
    assert_eq!(rt; with_exports(rt.alloc(), 4097)?, counted(4098));
    Ok(())
}

fn with_imports(alloc: Global, imports: usize) -> Result<Option<Refusal>, Fail> {
    let mut text = importing(alloc, imports)?;
    let exports = exporting(alloc, imports)?;
    text.extend_from_slice(exports.as_slice())?;
    judge(alloc, text.as_slice())
}

#[test]
fn most_imports(rt: HostRuntime) -> Result<(), Fail> {
    assert_eq!(rt; with_imports(rt.alloc(), 4095)?, None);
    Ok(())
}

#[test]
fn one_import_more(rt: HostRuntime) -> Result<(), Fail> {
    assert_eq!(rt; with_imports(rt.alloc(), 4096)?, counted(4098));
    Ok(())
}
