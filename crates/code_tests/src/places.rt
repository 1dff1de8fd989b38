// Where the values of functions lie: intervals, places, frames, and the machine code over them.

mod assignment;
mod frames;
mod instructions;
mod intervals;
mod sizes;
