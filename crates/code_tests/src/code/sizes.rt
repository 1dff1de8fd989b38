// The code of whole programs: how many temporaries, instructions at most and branches each function has, beside its
// nodes.
use chain_texts::programs::{LEFT_OUT, LOOPS, STORE};
use code_texts::{BLOCKS, MEMBERS, lowered};
use sc_base::OutOfMemory;
use sc_tac::Tac;
use std::alloc::Global;
use std::test::Fail;

/// Of a function: temporaries, weight, branches, nodes.
type Sizes = (u32, u32, u32, u32);

// The sizes of each function.
fn sizes_of(alloc: Global, code: &Tac) -> Result<Vec<Sizes>, OutOfMemory> {
    let mut found = Vec::new(alloc);
    for section in code.tree().sections.as_slice() {
        for function in section.functions.as_slice() {
            let tree = function.tree();
            found.push((
                tree.temps,
                function.weight(),
                function.branches(),
                tree.nodes,
            ))?;
        }
    }
    Ok(found)
}

#[test]
fn code_has_these_sizes(rt: HostRuntime) -> Result<(), Fail> {
    let cases: [(&[u8], &[Sizes]); 5] = [
        (STORE, &[(6, 78, 0, 10), (5, 89, 0, 10)]),
        (LOOPS, &[(34, 426, 5, 48)]),
        (LEFT_OUT, &[(15, 185, 3, 17)]),
        (BLOCKS, &[(34, 435, 1, 47)]),
        (MEMBERS, &[(23, 326, 1, 33), (14, 155, 0, 18)]),
    ];
    for (text, want) in cases {
        let code = lowered(rt.alloc(), text)?;
        assert_eq!(rt; sizes_of(rt.alloc(), &code)?.as_slice(), want);
    }
    Ok(())
}
