// Expressions and their trees.
ghost use Rattle.std.specs.Prelude.{◌≤◌};

use sc_ast::print_section;
use sc_base::Text;
use sc_lex::{slices_in_order, tokens};
use sc_parse_expr::{Lexemes, SyntaxFault, parse_expr, parse_unary};
use sc_parse_read::read_trees;
use std::alloc::Global;
use std::test::Fail;

// Expressions, each with its parts in parentheses as the grammar of C11 6.5 groups them, and each literal as a decimal
// one of its type.
const GROUPED: &str = "\
    a => a; 7 => 7; (a) => a; ((7)) => 7; 0x1F => 31; 017 => 15; 0 => 0; 7u => 7u; 2147483647 => 2147483647; \
    0x80000000 => 2147483648u; 037777777777 => 4294967295u; 4294967295U => 4294967295u; a+b => (a+b); \
    a-b-c => ((a-b)-c); a-(b-c) => (a-(b-c)); a/b*c => ((a/b)*c); a%b%c => ((a%b)%c); a+b*c => (a+(b*c)); \
    a*b+c => ((a*b)+c); (a+b)*c => ((a+b)*c); a<<b+c => (a<<(b+c)); a+b>>c => ((a+b)>>c); a<<b<<c => ((a<<b)<<c); \
    a<b<<c => (a<(b<<c)); a<b<c => ((a<b)<c); a>b>=c => ((a>b)>=c); a<=b==c => ((a<=b)==c); a==b<c => (a==(b<c)); \
    a!=b==c => ((a!=b)==c); a&b==c => (a&(b==c)); a==b&c => ((a==b)&c); a&b&c => ((a&b)&c); a^b&c => (a^(b&c)); \
    a&b^c => ((a&b)^c); a|b^c => (a|(b^c)); a^b|c => ((a^b)|c); a&&b|c => (a&&(b|c)); a|b&&c => ((a|b)&&c); \
    a||b&&c => (a||(b&&c)); a&&b||c => ((a&&b)||c); a||b||c => ((a||b)||c); a&&b&&c => ((a&&b)&&c); \
    a||b&&c|d^e&f==g<h<<i+j*k => (a||(b&&(c|(d^(e&(f==(g<(h<<(i+(j*k)))))))))); \
    a*b+c<<d<e==f&g^h|i&&j||k => ((((((((((a*b)+c)<<d)<e)==f)&g)^h)|i)&&j)||k); -a => (-a); - -a => (-(-a)); \
    !~+-a => (!(~(+(-a)))); -a+b => ((-a)+b); a- -b => (a-(-b)); -a*b => ((-a)*b); !a==b => ((!a)==b); \
    *p+1 => ((*p)+1); *p*q => ((*p)*q); &a&b => ((&a)&b); a&&&b => (a&&(&b)); a[i] => (a[i]); \
    a[i][j] => ((a[i])[j]); a[i+1] => (a[(i+1)]); -a[i] => (-(a[i])); *p[i] => (*(p[i])); (*p)[i] => ((*p)[i]); \
    s.m.n => ((s.m).n); p->q->r => ((p->q)->r); *p->q[i].m => (*(((p->q)[i]).m))";

// Texts, and the number of lexemes that are left after their first expression.
const PREFIXES: [(&[u8], usize); 10] = [
    (b"a;", 1),
    (b"a b", 1),
    (b"a+b)", 1),
    (b"a]", 1),
    (b"a = b", 2),
    (b"a += b", 2),
    (b"a++", 1),
    (b"a(b)", 3),
    (b"a, b", 2),
    (b"-a-=b", 2),
];

// Texts that begin with no expression, and the number of lexemes from the one that can't go on.
const REFUSED: [(&[u8], usize); 17] = [
    (b"", 0),
    (b";", 1),
    (b")", 1),
    (b"+", 0),
    (b"a+", 0),
    (b"a+;", 1),
    (b"a**", 0),
    (b"(a", 0),
    (b"(a;", 1),
    (b"()", 1),
    (b"a[", 0),
    (b"a[]", 1),
    (b"a[b;", 1),
    (b"a.1", 1),
    (b"a->int", 1),
    (b"if", 1),
    (b"1.5", 1),
];

// How many lexemes are left after the expression at the start of a text, after this many brackets.
fn left_after(alloc: Global, opened: u32, text: &[u8]) -> Result<Result<usize, SyntaxFault>, Fail>
    requires { opened ≤ 1024 }
{
    let cut = tokens(alloc, text, 1)?;
    slices_in_order();
    let mut rest = Lexemes::new(text, cut.as_slice());
    match parse_expr(alloc, opened, &mut rest) {
        Ok(built) => {
            drop(built);
            Ok(Ok(rest.len()))
        }
        Err(fault) => Ok(Err(fault)),
    }
}

// The text of a section in which the expression is assigned.
fn printed(alloc: Global, expression: &[u8]) -> Result<Text, Fail> {
    let mut text = Vec::from_slice(alloc, b"#pragma compartment Main\nvoid f(void) { x = ")?;
    text.extend_from_slice(expression)?;
    text.extend_from_slice(b"; }")?;
    let trees = read_trees(alloc, &text)?;
    let tree = trees.get(0).ok_or("no section")?;
    Ok(print_section(alloc, tree)?)
}

#[test]
fn groups_as_the_grammar_does(rt: HostRuntime) -> Result<(), Fail> {
    for row in GROUPED.split("; ") {
        let (expression, grouped) = row
            .split_once(" => ")
            .ok_or("an expression and its groups")?;
        let left = printed(rt.alloc(), expression.as_bytes())?;
        let right = printed(rt.alloc(), grouped.as_bytes())?;
        assert_eq!(rt; left.as_bytes(), right.as_bytes());
    }
    Ok(())
}

// Expressions that are printed as they stand here.
const PRINTED: &str = "\
    7; 4294967295u; a; a[7]; a.m; a->m; 2147483647; - -a; -+a; + +a; !!a; ~-a; **a; *&a; & &a; &*a; - -7; -a[7]; \
    (-a)[7]; (*a).m; (&a)->m; *a->m; -(a - a); (a + a)[a + a]; a - a - a; a - (a - a); a + a * a; (a + a) * a; \
    a * (a / a); a * a / a; a || a && a; (a || a) && a; a << a + a; (a << a) + a; a == a < a; (a & a) == a; \
    a | a ^ a; a >= a >> a; a != (a != a); a % -a; a || 7; a && 7; a | 7; a ^ 7; a & 7; a == 7; a != 7; a < 7; \
    a > 7; a <= 7; a >= 7; a << 7; a >> 7; a + 7; a - 7; a * 7; a / 7; a % 7";

#[test]
fn parentheses_and_blanks_are_those_that_the_tree_needs(rt: HostRuntime) -> Result<(), Fail> {
    for expression in PRINTED.split("; ") {
        let text = printed(rt.alloc(), expression.as_bytes())?;
        let want = format!(in rt.alloc();
            "#pragma compartment Main\n\nvoid f(void) {{\n  x = {expression};\n}}\n"
        )?;
        assert_eq!(rt; text.as_bytes(), want.as_bytes());
    }
    Ok(())
}

#[test]
fn other_groups_are_other_trees(rt: HostRuntime) -> Result<(), Fail> {
    let left = printed(rt.alloc(), b"a - b - c")?;
    let right = printed(rt.alloc(), b"a - (b - c)")?;
    assert!(rt; left.as_bytes() != right.as_bytes());
    Ok(())
}

#[test]
fn ends_where_nothing_goes_on(rt: HostRuntime) -> Result<(), Fail> {
    for (text, left) in PREFIXES {
        assert_eq!(rt; left_after(rt.alloc(), 0, text)?, Ok(left));
    }
    let text = b"-a[1]*b".as_slice();
    let cut = tokens(rt.alloc(), text, 1)?;
    slices_in_order();
    let mut rest = Lexemes::new(text, cut.as_slice());
    drop(parse_unary(rt.alloc(), 0, &mut rest)?);
    assert_eq!(rt; rest.len(), 2);
    Ok(())
}

#[test]
fn refuses_at_the_lexeme(rt: HostRuntime) -> Result<(), Fail> {
    for (text, left) in REFUSED {
        assert_eq!(rt;
            left_after(rt.alloc(), 0, text)?,
            Err(SyntaxFault::Refused { left })
        );
    }
    Ok(())
}

// So often the one text, then `a`, then so often the other.
fn around(alloc: Global, prefix: &[u8], count: usize, back: &[u8]) -> Result<Vec<u8>, Fail> {
    let mut text = Vec::new(alloc);
    for _ in 0..count {
        text.extend_from_slice(prefix)?;
    }
    text.push(b'a')?;
    for _ in 0..count {
        text.extend_from_slice(back)?;
    }
    Ok(text)
}

// Two texts round `a`, and how often they may stand there.
const LIMITS: [(&[u8], usize, &[u8]); 9] = [
    (b"(", 1024, b")"),
    (b"- ", 255, b""),
    (b"", 255, b"+a"),
    (b"", 254, b"-a*a"),
    (b"", 255, b"-(a)"),
    (b"", 255, b".m"),
    (b"", 255, b"->m"),
    (b"", 255, b"[a]"),
    (b"a[", 255, b"]"),
];

#[test]
fn stops_at_limits(rt: HostRuntime) -> Result<(), Fail> {
    for (prefix, count, back) in LIMITS {
        let text = around(rt.alloc(), prefix, count, back)?;
        assert!(rt; left_after(rt.alloc(), 0, &text)?.is_ok());
        let text = around(rt.alloc(), prefix, count + 1, back)?;
        assert!(rt; left_after(rt.alloc(), 0, &text)?.is_err());
    }
    let text = around(rt.alloc(), b"(", 1, b")")?;
    assert!(rt; left_after(rt.alloc(), 1023, &text)?.is_ok());
    assert!(rt; left_after(rt.alloc(), 1024, &text)?.is_err());
    Ok(())
}

#[test]
fn refuses_what_goes_on_for_long(rt: HostRuntime) -> Result<(), Fail> {
    for text in [b"a+".as_slice(), b"(", b"-", b"a["] {
        let mut long = Vec::new(rt.alloc());
        for _ in 0..100_000 {
            long.extend_from_slice(text)?;
            long.push(b' ')?;
        }
        assert!(rt; left_after(rt.alloc(), 0, &long)?.is_err());
    }
    Ok(())
}
