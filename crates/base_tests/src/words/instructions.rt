//! Words that an assembler outside wrote, and words that are no instruction of RV32IM.

use rv_code::{Instr, decode, encode};
use std::alloc::{AllocError, Global};
use std::test::Fail;

// What is written of one word is what it is read as, and is written back.
fn reads(alloc: Global, name: &str, written: &str) -> Result<bool, Fail> {
    let (word, listed) = written.split_once(' ').ok_or("a word and its operands")?;
    let word = u32::from_str_radix(word, 16)?;
    let instr = decode(word).ok_or("an instruction")?;
    let mnemonic = mnemonic(alloc, &instr)?;
    let (first, second, last) = operands(&instr);
    let operands = format!(in alloc; "{first} {second} {last}")?;
    let named = mnemonic.as_str().eq_ignore_ascii_case(name);
    Ok(named && operands.as_str() == listed && encode(instr) == word)
}

#[test]
fn reads_what_an_assembler_wrote(rt: HostRuntime) -> Result<(), Fail> {
    for line in WRITTEN.lines() {
        let (name, words) = line.split_once(' ').ok_or("a mnemonic and words")?;
        for written in words.split(", ") {
            assert!(rt; reads(rt.alloc(), name, written)?, "{name} {written}");
        }
    }
    Ok(())
}

#[test]
fn reads_nothing_else(rt: HostRuntime) {
    for word in UNKNOWN {
        assert_eq!(rt; decode(word), None, "at {word}");
    }
}

/// The operation's name, with a capital letter.
fn mnemonic(alloc: Global, instr: &Instr) -> Result<String, AllocError> {
    match *instr {
        Instr::Upper { op, .. } => format!(in alloc; "{op:?}"),
        Instr::Branch { op, .. } => format!(in alloc; "{op:?}"),
        Instr::Load { op, .. } => format!(in alloc; "{op:?}"),
        Instr::Store { op, .. } => format!(in alloc; "{op:?}"),
        Instr::OpImm { op, .. } => format!(in alloc; "{op:?}"),
        Instr::Shift { op, .. } => format!(in alloc; "{op:?}"),
        Instr::Op { op, .. } => format!(in alloc; "{op:?}"),
        Instr::Jal { .. } => String::from_str(alloc, "Jal"),
        Instr::Jalr { .. } => String::from_str(alloc, "Jalr"),
        Instr::Fence { .. } => String::from_str(alloc, "Fence"),
        Instr::Ecall => String::from_str(alloc, "Ecall"),
        Instr::Ebreak => String::from_str(alloc, "Ebreak"),
    }
}

fn operands(instr: &Instr) -> (u8, u8, i32) {
    match *instr {
        Instr::Upper { rd, imm, .. } => (rd.number(), 0, imm.value().cast_signed()),
        Instr::Jal { rd, imm } => (rd.number(), 0, imm.value()),
        Instr::Jalr { rd, rs1, imm } => (rd.number(), rs1.number(), imm.value()),
        Instr::Branch { rs1, rs2, imm, .. } => (rs1.number(), rs2.number(), imm.value()),
        Instr::Load { rd, rs1, imm, .. } => (rd.number(), rs1.number(), imm.value()),
        Instr::Store { rs1, rs2, imm, .. } => (rs1.number(), rs2.number(), imm.value()),
        Instr::OpImm { rd, rs1, imm, .. } => (rd.number(), rs1.number(), imm.value()),
        Instr::Shift {
            rd,
            rs1,
            amount,
            ..
        } => (rd.number(), rs1.number(), i32::from(amount.bits())),
        Instr::Op { rd, rs1, rs2, .. } => (rd.number(), rs1.number(), i32::from(rs2.number())),
        Instr::Fence { imm, rs1, rd } => (rd.number(), rs1.number(), imm.value()),
        Instr::Ecall | Instr::Ebreak => (0, 0, 0),
    }
}

/// Written by GNU as 2.40 for rv32im, and listed by its objdump: a mnemonic, and words of it with their operands, the
/// registers first, in the order of `Instr`'s fields, and 0 where there is none.
const WRITTEN: &str = "\
lui 00000037 0 0 0, 7ffff7b7 15 0 2147479552, d0b4ad37 26 0 -793468928, 00000137 2 0 0, 00001437 8 0 4096
auipc fffff897 17 0 -4096, 80000297 5 0 -2147483648, 00001c17 24 0 4096, a5ab4597 11 0 -1515503616
auipc fffff817 16 0 -4096
jal 7ff00b6f 22 0 4094, 0000166f 12 0 4096, 7fe002ef 5 0 2046, 00100cef 25 0 2048, 7fe000ef 1 0 2046
jal 00100def 27 0 2048, e360e7ef 15 0 -989642, 002003ef 7 0 2, 00200a6f 20 0 2, 0020016f 2 0 2, 7ff0096f 18 0 4094
jal 000018ef 17 0 4096, 7ff00e6f 28 0 4094, 00100f6f 30 0 2048
jalr c0510067 0 2 -1019, 01fc8967 18 25 31, 020c07e7 15 24 32, 01f30767 14 6 31, 3ff10d67 26 2 1023
jalr 7ff608e7 17 12 2047
beq 81808163 1 24 -4094, 7fee0f63 28 30 2046, 029a8063 21 9 32, 00380163 16 3 2, 00cb0f63 22 12 30
beq 800f0163 30 0 -4094
bne 40df9063 31 13 1024, 006f90e3 31 6 2048, 839296e3 5 25 -2004, 7e689fe3 17 6 4094, 000610e3 12 0 2048
bne 7ed21fe3 4 13 4094
blt 15184ae3 16 17 2388, fefbcfe3 23 15 -2, 803dc063 27 3 -4096, 728c4763 24 8 1838, 010c4163 24 16 2
blt 7e654f63 10 6 2046
bge fefddfe3 27 15 -2, 7e185f63 16 1 2046, 00175163 14 1 2, fe18dfe3 17 1 -2, 80f4d163 9 15 -4094
bge 81445163 8 20 -4094
bltu 403ae063 21 3 1024, 7e586f63 16 5 2046, 81f8e163 17 31 -4094, 01c3ef63 7 28 30, 00ec6f63 24 14 30
bltu 40d7e063 15 13 1024
bgeu 80c0f163 1 12 -4094, 01e87163 16 30 2, 00ab70e3 22 10 2048, 4095f063 11 9 1024, 8f0f7063 30 16 -3872
bgeu 0022f163 5 2 2
lb 3ff00c83 25 0 1023, 801c8c83 25 25 -2047, 3ff80f83 31 16 1023, 8a6c8403 8 25 -1882
lh 40011403 8 2 1024, 800f9403 8 31 -2048, 01f29403 8 5 31, 3ffc1283 5 24 1023
lw e5d2a083 1 5 -419, 00122003 0 4 1, 3ff7a083 1 15 1023, 7fedaf03 30 27 2046
lbu 0008cc03 24 17 0, 801b4183 3 22 -2047, 800acf03 30 21 -2048, 80114303 6 2 -2047
lhu fff3d583 11 7 -1, 000d5903 18 26 0, 001d5c83 25 26 1, 78b05003 0 0 1931
sb 015680a3 13 21 1, 031f8023 31 17 32, 7ff88fa3 17 31 2047, 017e00a3 28 23 1, 01e880a3 17 30 1, d04d8a23 27 4 -748
sb 3f0a8fa3 21 16 1023
sh 811d90a3 27 17 -2047, 7e591f23 18 5 2046, 805390a3 7 5 -2047, 017590a3 11 23 1, 3e501fa3 0 5 1023
sh 7f299f23 19 18 2046, 3f851fa3 10 24 1023
sw 118daca3 27 24 281, 03a12023 2 26 32, 418a2023 20 24 1024, 816b2023 22 22 -2048, 803b2023 22 3 -2048
sw 7ef4afa3 9 15 2047, 7e5daf23 27 5 2046
addi 7fe58013 0 11 2046, 7ff00393 7 0 2047, 7fe38293 5 7 2046, 3ff90d13 26 18 1023, 01f10793 15 2 31
slti 80042293 5 8 -2048, 0017af93 31 15 1, 020fab93 23 31 32, 0002ad13 26 5 0, 020c2413 8 24 32
sltiu 0208be13 28 17 32, 4004b593 11 9 1024, 0208bc93 25 17 32, 01f4b013 0 9 31, 7fe8b513 10 17 2046
xori 7fefc293 5 31 2046, 400c4413 8 24 1024, 7fe54393 7 10 2046, 8010c793 15 1 -2047, fff44693 13 8 -1
ori 01f46d93 27 8 31, 01f76113 2 14 31, 801c6393 7 24 -2047, 4006ef93 31 13 1024, 8019ef13 30 19 -2047
andi 8010f793 15 1 -2047, b88df113 2 27 -1144, 3ff17213 4 2 1023, 001f7513 10 30 1, 40017593 11 2 1024
slli 00069713 14 13 0, 00f01f93 31 0 15, 010f9393 7 31 16, 01061813 16 12 16, 00f11c93 25 2 15
srli 01ff5793 15 30 31, 0000d513 10 1 0, 01ff5b93 23 30 31, 01e55413 8 10 30, 00b75113 2 14 11
srai 41f35e13 28 6 31, 410fd113 2 31 16, 41a5d013 0 11 26, 40f45513 10 8 15, 4108d493 9 17 16
add 019502b3 5 10 25, 012b84b3 9 23 18, 001b0033 0 22 1
sub 407e08b3 17 28 7, 401a88b3 17 21 1, 40828633 12 5 8
sll 017d1b33 22 26 23, 016b1333 6 22 22, 00899833 16 19 8
slt 00cbaeb3 29 23 12, 01c3a533 10 7 28, 0169a533 10 19 22
sltu 00a8b833 16 17 10, 01fbb833 16 23 31, 000f3e33 28 30 0
xor 00b7ccb3 25 15 11, 00de4db3 27 28 13, 0112c033 0 5 17
srl 01ef5f33 30 30 30, 01825bb3 23 4 24, 002c5bb3 23 24 2
sra 40965133 2 12 9, 40fedeb3 29 29 15, 412a58b3 17 20 18
or 015f66b3 13 30 21, 013c61b3 3 24 19, 00346b33 22 8 3
and 01e2f7b3 15 5 30, 0003fab3 21 7 0, 01e37533 10 6 30
mul 03f88233 4 17 31, 022c89b3 19 25 2, 03c58833 16 11 28
mulh 02d29533 10 5 13, 03c218b3 17 4 28, 020d93b3 7 27 0
mulhsu 02cfaa33 20 31 12, 03d7a433 8 15 29, 02f7aa33 20 15 15
mulhu 02b13533 10 2 11, 020dbbb3 23 27 0, 02af3133 2 30 10
div 02d3cf33 30 7 13, 0295c9b3 19 11 9, 0350cbb3 23 1 21
divu 0350ddb3 27 1 21, 031ed6b3 13 29 17, 0307d0b3 1 15 16
rem 03436733 14 6 20, 02d96133 2 18 13, 02c767b3 15 14 12
remu 038ff033 0 31 24, 03a9f6b3 13 19 26, 03e57e33 28 10 30
fence 0ff0000f 0 0 255, 0210000f 0 0 33, 8330000f 0 0 -1997, 0180000f 0 0 24
ecall 00000073 0 0 0
ebreak 00100073 0 0 0";

/// Words with no instruction of RV32IM.
const UNKNOWN: [u32; 61] = [
    // shifts by 32 bits and more, of RV64I
    0x02011093, 0x03f31293, 0x02115093, 0x42f15093,
    // other instructions of RV64I and RV64M
    0x0051009b, 0x4051509b, 0x003100bb, 0x023100bb, 0x00813083, 0x00816083, 0x00113423,
    // FENCE.I, the accesses to CSRs, MRET, SRET, WFI, SFENCE.VMA
    0x0000100f, 0x300110f3, 0xc0002073, 0x300130f3, 0x3001d0f3, 0x3001e0f3, 0x3001f0f3, 0x30200073,
    0x10200073, 0x10500073, 0x12208073,
    // instructions of the A and F extensions
    0x100120af, 0x0021a0af, 0x00412087, 0x00112227, 0x003170d3, 0x203170c3,
    // ANDN, ROL, RORI, BSET, SH1ADD and CLMUL
    0x403170b3, 0x603110b3, 0x60515093, 0x283110b3, 0x203120b3, 0x0a3110b3,
    // compressed instructions, alone and two in a word
    0x00000001, 0x00000405, 0x000040c0, 0x0000a001, 0x00009002, 0x04050001,
    // no instruction, by definition
    0x00000000, 0xffffffff,
    // JALR with funct3 1, branches with 2 and 3, loads with 3, 6 and 7, stores with 3 and 4
    0x00009067, 0x00002063, 0x00003063, 0x00003003, 0x00006003, 0x00007003, 0x00003023, 0x00004023,
    // ECALL and EBREAK with other fields
    0x000000f3, 0x00008073, 0x00200073, 0x00101073, 0x80000073,
    // SLLI with SRAI's funct7, ADD with 2, SLL and AND with 32, MUL with 3 and 33
    0x40001013, 0x04000033, 0x40001033, 0x40007033, 0x06000033, 0x42000033,
];
