// Arithmetic on words, and the words of instructions.

mod arithmetic;
mod instructions;
