// Runs of the whole program in memory.

mod blame;
mod check;
mod compiled;
mod exec;
mod given;
mod hostile;
mod judge;
mod machine;
mod meaning;
mod objects;
mod refusal;
mod runs;
mod tags;
mod words;
