use sc_top_words::{WordsFault, read_command, usage};
use std::alloc::{AllocError, Global};
use std::test::Fail;

// The words of a line, with single spaces between them: a line that ends with a space ends with an empty word.
fn split(alloc: Global, line: &str) -> Result<Vec<String>, AllocError> {
    let mut words = Vec::new(alloc);
    for word in line.split(' ') {
        words.push(String::from_str(alloc, word)?)?;
    }
    Ok(words)
}

// What the words of the line are read as.
fn read(alloc: Global, line: &str) -> Result<String, AllocError> {
    let words = split(alloc, line)?;
    format!(in alloc; "{:?}", read_command(alloc, words.as_slice()))
}

// What is no command: lines with `|` between them.
const NO_COMMANDS: &str = "\
    |-|--|--=|-5|-h|-V|--help|help|--version|version|help run|Check|ru|checks|--check|check check|check |\
    check --steps 1|check -|check --|check --help|--steps=1 run|-- run|compile --in 1|build|Run|run -h|run --";

const NO_LIMITS: &str = "\
    run --steps 16777217|run --steps 99999999999999999999999999|meaning --steps 5|run --events 4097|\
    run --events 4294967296|run --events 4294968320|run --steps|run --steps=|run --steps |run --steps -1|\
    run --steps +1|run --steps=+1|run --steps=-0|run --steps 1e3|run --steps 0x10|run --steps==1|run --steps 1 2|\
    run --steps --events 1|run --steps 1 --steps 1|run --steps=1 --steps 2|run --stepss 1|run --steps \u{661}|\
    run --steps=1 --steps 1|run --steps --events=1|run --steps 1a";

const NO_OPTIONS: &str = "\
    run help|run -- --steps 1|run --turns 5|run --step 1|run -steps 1|run --Steps 1|run --=1|run \u{e9}|run -\u{e9}|\
    run --\u{e9}=1|explain --show 33|explain --show|run --show 1|explain --show 1 --show 1|run --speed 1|\
    judge --show 1|judge --turns 1|judge x";

const NO_LISTS: &str = "\
    run --in -5,3|run --in -5|run --in 2147483648|run --in 1,-2147483649|run --in --in|run --in|run --in=|run --in |\
    run --in 1,,2|run --in 1,|run --in ,1|run --in ,|run --in 1;2|run --in 1,+2|run --in 1,-|run --in 1,--2|\
    run --in 1 2|run --in 1 --in 2|run --in=1=2|run --in 4294967296|run --in -|run --in=-2147483649";

const NO_PROGRAMS: &str = "\
    make|make --size 1|make --seed 1|make --summary|make --size 0 --seed 1|make --size 1001 --seed 1|\
    make --size 1 --seed 4294967296|make --size 1 --seed|make --size 1 --seed 1 --summary=1|\
    make --size 1 --seed 1 --summary=|make --size 1 --seed 1 --summary 1|make --size 1 --seed 1 --summary --summary|\
    make --size 1 --seed 1 --summary true|make --size --summary 1 --seed 1|make --size 1 --seed 1 --sum|\
    make --size 1 --size 1 --seed 1";

const NO_SECTIONS: &str = "\
    object|object --section|object --section=|object --section |object --section Env|object --section 1a|\
    object --section a-b|object --section A --section B|object --section A B|object A|link --section A|link x|\
    compile --section A";

const NO_RANGES: &str = "\
    tags --data|tags --data=|tags --data |tags --data 1|tags --data 1,2|tags --data 1,2,3,4|tags --data 1,2,3,|\
    tags --data ,1,2|tags --data 1,,2|tags --data 4294967296,0,0|tags --data 0,4294967296,0|\
    tags --data 4294967295,2,0|tags --data 0,0,32|tags --data=-1,0,0|tags --data 0,+1,0|tags --data 0,0,a|\
    tags --data 0,0,0 --data 0,0,0|tags --turns 1|tags --show 1|exec --data 0,0,0|run --data 0,0,0";

const NO_IMAGES: &str = "\
    explain --image=1|explain --image=|explain --image 1|explain --image true|explain --image --image|\
    explain --image=true|explain --imag|explain --show --image|explain image|judge --image=1|judge --image 1|\
    judge --image --image|judge --image --show 1|run --image|exec --image|tags --image|compile --image|link --image|\
    meaning --image|check --image|make --size 1 --seed 1 --image|explain --summary|judge --summary|\
    explain --trapped=1|explain --trapped 1|explain --trapped --trapped|explain --trap|judge --trapped=true|\
    judge --trapped --trapped|run --trapped|exec --trapped|tags --trapped|meaning --trapped|check --trapped|\
    make --size 1 --seed 1 --trapped|compile --trapped|link --trapped";

// A command, and what it is read as.
const COMMANDS: &str = "\
check -> Ok(Check)
compile -> Ok(Compile)
meaning -> Ok(Meaning(MeaningOptions { turns: 1000000, events: 1024, inputs: Items { items: [] } }))
run -> Ok(Run(RunOptions { steps: 1000000, events: 1024, inputs: Items { items: [] } }))
exec -> Ok(Exec(RunOptions { steps: 1000000, events: 1024, inputs: Items { items: [] } }))
explain -> \
Ok(Explain(ExplainOptions { run: RunOptions { steps: 1000000, events: 1024, inputs: Items { items: [] } }, \
image: false, trapped: false, show: None }))
tags -> Ok(Tags(RunOptions { steps: 1000000, events: 1024, inputs: Items { items: [] } }, None))
tags --data 16777224,4,0 -> Ok(Tags(RunOptions { steps: 1000000, events: 1024, inputs: Items { items: [] } }, \
Some(DataRange { start: 16777224, bytes: 4, comp: CompId(0) })))
tags --data=4294967295,1,031 --steps 5 -> Ok(Tags(RunOptions { steps: 5, events: 1024, inputs: Items { items: [] } }, \
Some(DataRange { start: 4294967295, bytes: 1, comp: CompId(31) })))
judge -> \
Ok(Judge(JudgeOptions { run: RunOptions { steps: 1000000, events: 1024, inputs: Items { items: [] } }, \
image: false, trapped: false }))
judge --image -> \
Ok(Judge(JudgeOptions { run: RunOptions { steps: 1000000, events: 1024, inputs: Items { items: [] } }, \
image: true, trapped: false }))
judge --trapped -> \
Ok(Judge(JudgeOptions { run: RunOptions { steps: 1000000, events: 1024, inputs: Items { items: [] } }, \
image: false, trapped: true }))
run --steps 0 -> Ok(Run(RunOptions { steps: 0, events: 1024, inputs: Items { items: [] } }))
run --steps=16777216 -> Ok(Run(RunOptions { steps: 16777216, events: 1024, inputs: Items { items: [] } }))
run --steps 00000000000000000000000000000000000000007 -> \
Ok(Run(RunOptions { steps: 7, events: 1024, inputs: Items { items: [] } }))
meaning --turns 5 -> Ok(Meaning(MeaningOptions { turns: 5, events: 1024, inputs: Items { items: [] } }))
run --events 4096 -> Ok(Run(RunOptions { steps: 1000000, events: 4096, inputs: Items { items: [] } }))
run --events=0 -> Ok(Run(RunOptions { steps: 1000000, events: 0, inputs: Items { items: [] } }))
exec --steps 0 -> Ok(Exec(RunOptions { steps: 0, events: 1024, inputs: Items { items: [] } }))
run --in 0,00,007 --steps=0016 -> Ok(Run(RunOptions { steps: 16, events: 1024, inputs: Items { items: [0, 0, 7] } }))
exec --in 5 --events=4 --steps 3 -> Ok(Exec(RunOptions { steps: 3, events: 4, inputs: Items { items: [5] } }))
run --in 1,2,3 -> Ok(Run(RunOptions { steps: 1000000, events: 1024, inputs: Items { items: [1, 2, 3] } }))
run --in=-5,3 -> Ok(Run(RunOptions { steps: 1000000, events: 1024, inputs: Items { items: [-5, 3] } }))
run --in 5,-3 -> Ok(Run(RunOptions { steps: 1000000, events: 1024, inputs: Items { items: [5, -3] } }))
run --in=-0,-000 -> Ok(Run(RunOptions { steps: 1000000, events: 1024, inputs: Items { items: [0, 0] } }))
run --in 2147483647,-2147483648 -> \
Ok(Run(RunOptions { steps: 1000000, events: 1024, inputs: Items { items: [2147483647, -2147483648] } }))
explain --show 32 -> \
Ok(Explain(ExplainOptions { run: RunOptions { steps: 1000000, events: 1024, inputs: Items { items: [] } }, \
image: false, trapped: false, show: Some(32) }))
explain --show=0 --steps 2 -> \
Ok(Explain(ExplainOptions { run: RunOptions { steps: 2, events: 1024, inputs: Items { items: [] } }, \
image: false, trapped: false, show: Some(0) }))
explain --image --steps 2 -> \
Ok(Explain(ExplainOptions { run: RunOptions { steps: 2, events: 1024, inputs: Items { items: [] } }, \
image: true, trapped: false, show: None }))
explain --trapped --image --events 3 -> \
Ok(Explain(ExplainOptions { run: RunOptions { steps: 1000000, events: 3, inputs: Items { items: [] } }, \
image: true, trapped: true, show: None }))
explain --show=0 --image -> \
Ok(Explain(ExplainOptions { run: RunOptions { steps: 1000000, events: 1024, inputs: Items { items: [] } }, \
image: true, trapped: false, show: Some(0) }))
make --size 1000 --seed 4294967295 -> Ok(Make(MakeOptions { size: 1000, seed: 4294967295, summary: false }))
make --summary --seed=0 --size=1 -> Ok(Make(MakeOptions { size: 1, seed: 0, summary: true }))
make --size 1 --summary --seed 0 -> Ok(Make(MakeOptions { size: 1, seed: 0, summary: true }))
object --section Net -> Ok(Object(ObjectOptions { section: [78, 101, 116] }))
object --section=int -> Ok(Object(ObjectOptions { section: [105, 110, 116] }))
link -> Ok(Link)";

#[test]
fn refusals(rt: HostRuntime) -> Result<(), Fail> {
    for lines in [
        NO_COMMANDS,
        NO_LIMITS,
        NO_OPTIONS,
        NO_LISTS,
        NO_PROGRAMS,
        NO_SECTIONS,
        NO_RANGES,
        NO_IMAGES,
    ] {
        for line in lines.split('|') {
            assert!(rt; read(rt.alloc(), line)?.as_str() == "Err(Usage)", "{line}");
        }
    }
    Ok(())
}

#[test]
fn commands(rt: HostRuntime) -> Result<(), Fail> {
    for row in COMMANDS.lines() {
        let (line, want) = row
            .split_once(" -> ")
            .ok_or("a command, and what it is read as")?;
        assert!(rt; read(rt.alloc(), line)?.as_str() == want, "{line}");
    }
    Ok(())
}

#[test]
fn no_words(rt: HostRuntime) {
    assert!(rt; matches!(read_command(rt.alloc(), &[]), Err(WordsFault::Usage)));
}

// A list of `count` zeros.
fn zeros(alloc: Global, count: usize) -> Result<String, AllocError> {
    let mut list = String::from_str(alloc, "--in=0")?;
    for _ in 1..count {
        list.push_str(",0")?;
    }
    Ok(list)
}

#[test]
fn longest_list(rt: HostRuntime) -> Result<(), Fail> {
    for (count, fits) in [(65_536, true), (65_537, false)] {
        let run = String::from_str(rt.alloc(), "run")?;
        let words = vec![in rt.alloc(); run, zeros(rt.alloc(), count)?]?;
        let read = read_command(rt.alloc(), words.as_slice());
        assert_eq!(rt; read.is_ok(), fits);
    }
    Ok(())
}

#[test]
fn usage_fits_a_page(rt: HostRuntime) {
    let mut lines = 0_u32;
    let mut width = 0_u32;
    for byte in usage() {
        if *byte == b'\n' {
            lines = lines.saturating_add(1);
            width = 0;
        } else {
            width = width.saturating_add(1);
        }
        assert!(rt; width <= 80);
    }
    assert!(rt; lines <= 26 && width == 0);
    assert!(rt; usage().starts_with(b"secomp: usage\n"));
}
