// The command `judge` on texts that follow a policy.
use chain_texts::programs::{SEVEN, STORE};
use memory_runs::{Ran, Run};
use sc_base::{OutOfMemory, Text};
use std::alloc::Global;
use std::test::Fail;

const STORE_REPORT: &[u8] = b"call Main Net put 4 9
ret Net Main 9
out Main 9
end Main 0
stop ended
chain 1
replace Net after 1 OutOfBounds line 6
";

// What is written of Store under the policy of this rule.
fn judged(alloc: Global, rule: &[u8]) -> Result<Ran, OutOfMemory> {
    let mut input = Text::new(alloc);
    input.append(b"policy Small\nstate s\n")?;
    input.append(rule)?;
    input.append(b"policy end\n")?;
    input.append(STORE)?;
    Run::new("judge", input.as_bytes()).run(alloc)
}

#[test]
fn a_verdict_follows_the_report(rt: HostRuntime) -> Result<(), Fail> {
    let cases: [(&[u8], &[u8]); 5] = [
        (
            b"on s out Main > 5 deny\n",
            b"verdict violated after 2 by Main rule 1 clean\n",
        ),
        (
            b"on s ret Net Main > 5 deny\n",
            b"verdict violated after 1 by Net rule 1 compromised\n",
        ),
        (b"on s in * deny\n", b"verdict holds s\n"),
        (
            b"on s out Main < 9 deny\non s call * Net put arg 1 >= 4 deny\n",
            b"verdict violated after 0 by Main rule 2 clean\n",
        ),
        (b"", b"verdict holds s\n"),
    ];
    for (rule, line) in cases {
        let mut want = Text::new(rt.alloc());
        want.append(STORE_REPORT)?;
        want.append(line)?;
        let ran = judged(rt.alloc(), rule)?;
        assert!(rt; ran.wrote(0, want.as_bytes(), b""));
    }
    Ok(())
}

#[test]
fn a_bad_policy_is_refused_at_its_line(rt: HostRuntime) -> Result<(), Fail> {
    let ran = judged(rt.alloc(), b"on u out Main deny\n")?;
    assert!(rt; ran.wrote(14, b"", b"secomp: bad policy line 3\n"));
    let cases: [(&[u8], &[u8]); 5] = [
        (b"", b"secomp: bad policy line 1\n"),
        (SEVEN, b"secomp: bad policy line 1\n"),
        (b"policy p\n", b"secomp: bad policy line 2\n"),
        (
            b"policy p\nstate s\npolicy end",
            b"secomp: bad policy line 3\n",
        ),
        (
            b"policy p\nstate s\nstate s\npolicy end\n",
            b"secomp: bad policy line 3\n",
        ),
    ];
    for (input, err) in cases {
        let ran = Run::new("judge", input).run(rt.alloc())?;
        assert!(rt; ran.wrote(14, b"", err));
    }
    Ok(())
}

#[test]
fn lines_of_the_text_count_from_its_own_first(rt: HostRuntime) -> Result<(), Fail> {
    let cases: [(&[u8], &[u8]); 3] = [
        (
            b"policy p\nstate s\npolicy end\n",
            b"secomp: refused interface line 0\n",
        ),
        (
            b"policy p\nstate s\npolicy end\n\n#pragma compartment Main\nint main(void) { return $; }\n",
            b"secomp: refused lex line 3\n",
        ),
        (
            b"policy p\nstate s\npolicy end\npolicy p\n",
            b"secomp: refused syntax line 1\n",
        ),
    ];
    for (input, err) in cases {
        let ran = Run::new("judge", input).run(rt.alloc())?;
        assert!(rt; ran.wrote(3, b"", err));
    }
    Ok(())
}
