// Three-address code: functions by hand, the sizes of whole programs, and how long lowering takes.

mod functions;
mod optimiser;
mod sizes;
mod speed;
