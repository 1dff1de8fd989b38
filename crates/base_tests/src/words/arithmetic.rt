use sc_word::WordFault::{BadShift, Overflow, ZeroDivisor};
use sc_word::*;
use std::test::Fail;

type Answer = Result<u32, WordFault>;

const MAX: u32 = 0x7FFF_FFFF;

const MIN: u32 = 0x8000_0000;

// -1
const ONES: u32 = 0xFFFF_FFFF;

const OVER: Answer = Err(Overflow);

const NO_DIVISOR: [Answer; 4] = [Err(ZeroDivisor); 4];

// a, b, and a + b, a - b, a * b of `int`
const SUMS: [(u32, u32, [Answer; 3]); 6] = [
    (2, 3, [Ok(5), Ok(ONES), Ok(6)]),
    (MAX, 1, [OVER, Ok(0x7FFF_FFFE), Ok(MAX)]),
    (MIN, 1, [Ok(0x8000_0001), OVER, Ok(MIN)]),
    (MIN, ONES, [OVER, Ok(0x8000_0001), OVER]),
    (0x1_0000, 0x8000, [Ok(0x1_8000), Ok(0x8000), OVER]),
    (
        0xFFFF_0000,
        0x8000,
        [Ok(0xFFFF_8000), Ok(0xFFFE_8000), Ok(MIN)],
    ),
];

// a, b, and a / b, a % b of `int` and of `unsigned int`
const QUOTIENTS: [(u32, u32, [Answer; 4]); 4] = [
    (7, 0xFFFF_FFFE, [Ok(0xFFFF_FFFD), Ok(1), Ok(0), Ok(7)]),
    (
        0xFFFF_FFF9,
        2,
        [Ok(0xFFFF_FFFD), Ok(ONES), Ok(0x7FFF_FFFC), Ok(1)],
    ),
    (MIN, ONES, [OVER, OVER, Ok(0), Ok(MIN)]),
    (5, 0, NO_DIVISOR),
];

const BAD: [Answer; 4] = [Err(BadShift); 4];

// a, b, and a << b, a >> b of `int` and of `unsigned int`
const SHIFTS: [(u32, u32, [Answer; 4]); 9] = [
    (1, 0, [Ok(1), Ok(1), Ok(1), Ok(1)]),
    (1, 30, [Ok(0x4000_0000), Ok(0), Ok(0x4000_0000), Ok(0)]),
    (1, 31, [OVER, Ok(0), Ok(MIN), Ok(0)]),
    (ONES, 0, [OVER, Ok(ONES), Ok(ONES), Ok(ONES)]),
    (MIN, 31, [OVER, Ok(ONES), Ok(0), Ok(1)]),
    (1, 32, BAD),
    (ONES, 32, BAD),
    (1, 33, BAD),
    (MIN, ONES, BAD),
];

// the two registers, and ADD, SUB, SLT, SLTU
const MACHINE_SUMS: [(u32, u32, [u32; 4]); 4] = [
    (ONES, 1, [0, 0xFFFF_FFFE, 1, 0]),
    (0, ONES, [ONES, 1, 0, 1]),
    (MIN, MAX, [ONES, 1, 1, 0]),
    (3, 3, [6, 0, 0, 0]),
];

// the two registers, and SLL, SRL, SRA
const MACHINE_SHIFTS: [(u32, u32, [u32; 3]); 5] = [
    (0x8000_0001, 0, [0x8000_0001, 0x8000_0001, 0x8000_0001]),
    (0x8000_0001, 31, [MIN, 1, ONES]),
    (0x8000_0001, 32, [0x8000_0001, 0x8000_0001, 0x8000_0001]),
    (0x8000_0001, 33, [2, 0x4000_0000, 0xC000_0000]),
    (0x8000_0001, ONES, [MIN, 1, ONES]),
];

// the two registers, and MUL, MULH, MULHSU, MULHU
const MACHINE_PRODUCTS: [(u32, u32, [u32; 4]); 5] = [
    (7, 6, [42, 0, 0, 0]),
    (MIN, MIN, [0, 0x4000_0000, 0xC000_0000, 0x4000_0000]),
    (ONES, ONES, [1, 0, ONES, 0xFFFF_FFFE]),
    (MIN, ONES, [MIN, 0, MIN, MAX]),
    (ONES, MIN, [MIN, 0, ONES, MAX]),
];

// the two registers, and DIV, REM, DIVU, REMU
const MACHINE_QUOTIENTS: [(u32, u32, [u32; 4]); 4] = [
    (0xFFFF_FFF9, 2, [0xFFFF_FFFD, ONES, 0x7FFF_FFFC, 1]),
    (7, 0xFFFF_FFFE, [0xFFFF_FFFD, 1, 0, 7]),
    (5, 0, [ONES, 5, ONES, 5]),
    (MIN, ONES, [MIN, 0, 0, MIN]),
];

#[test]
fn c_operators(rt: HostRuntime) {
    for (a, b, want) in SUMS {
        let got = [add_signed(a, b), sub_signed(a, b), mul_signed(a, b)];
        assert_eq!(rt; got, want);
    }
    assert_eq!(rt; neg_signed(5), Ok(0xFFFF_FFFB));
    assert_eq!(rt; neg_signed(MIN), OVER);
}

#[test]
fn c_quotients(rt: HostRuntime) {
    for (a, b, want) in QUOTIENTS {
        let got = [
            div_signed(a, b),
            rem_signed(a, b),
            div_unsigned(a, b),
            rem_unsigned(a, b),
        ];
        assert_eq!(rt; got, want);
    }
}

#[test]
fn c_shifts(rt: HostRuntime) {
    for (a, b, want) in SHIFTS {
        let got = [
            shl_signed(a, b),
            shr_signed(a, b),
            shl_unsigned(a, b),
            shr_unsigned(a, b),
        ];
        assert_eq!(rt; got, want);
    }
}

#[test]
fn machine_instructions(rt: HostRuntime) {
    the_machine_computes_what_c_computes();
    operators_are_instructions();
    for (a, b, want) in MACHINE_SUMS {
        assert_eq!(rt; [add(a, b), sub(a, b), slt(a, b), sltu(a, b)], want);
    }
    for (a, b, want) in MACHINE_SHIFTS {
        assert_eq!(rt; [sll(a, b), srl(a, b), sra(a, b)], want);
    }
}

// The corner cases of the M extension.
#[test]
fn machine_products_and_quotients(rt: HostRuntime) {
    for (a, b, want) in MACHINE_PRODUCTS {
        assert_eq!(rt; [mul(a, b), mulh(a, b), mulhsu(a, b), mulhu(a, b)], want);
    }
    for (a, b, want) in MACHINE_QUOTIENTS {
        assert_eq!(rt; [div(a, b), rem(a, b), divu(a, b), remu(a, b)], want);
    }
}

#[test]
fn a_fault_prints_its_name(rt: HostRuntime) -> Result<(), Fail> {
    let printed = format!(in rt.alloc(); "{Overflow} {ZeroDivisor} {BadShift}")?;
    assert_eq!(rt; printed.as_str(), "Overflow ZeroDivisor BadShift");
    Ok(())
}
