// Texts that are accepted or refused by their bytes, tokens and grammar, with the line of each refusal.

mod grammar;
mod lex;
mod limits;
mod order;
mod stuck;
