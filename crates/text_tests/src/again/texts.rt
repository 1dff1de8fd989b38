// Programs, each named for what it shows.

use chain_texts::programs::{
    ACCOUNTS, BIG_DATA, BIG_FRAME, ENDLESS_OUTPUT, ENDLESS_RECURSION, EXTREME_ARGUMENTS, INPUTS,
    LEAK, MIN_BY_MINUS_ONE, MISSING_RETURN, REENTRY_BLAMED, SEVEN, SHORT_LOOP, STORE, TWO_STORES,
    UNINITIALISED,
};

const AN_EXPORT_WITH_A_POINTER: &[u8] = b"#pragma compartment A
#pragma export f
int f(int *p) {
  return 0;
}
#pragma compartment Main
int main(void) {
  return 0;
}
";

const ONE_NAME_TWICE: &[u8] = b"#pragma compartment Main
int main(void) {
  return 0;
}
#pragma compartment Main
";

pub const PROGRAMS: [&[u8]; 18] = [
    SEVEN,
    STORE,
    TWO_STORES,
    REENTRY_BLAMED,
    MIN_BY_MINUS_ONE,
    UNINITIALISED,
    LEAK,
    MISSING_RETURN,
    EXTREME_ARGUMENTS,
    ENDLESS_RECURSION,
    ENDLESS_OUTPUT,
    SHORT_LOOP,
    AN_EXPORT_WITH_A_POINTER,
    BIG_DATA,
    BIG_FRAME,
    INPUTS,
    ONE_NAME_TWICE,
    ACCOUNTS,
];
