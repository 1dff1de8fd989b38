// Images, the cross stack, heaps, and machines.

mod gates;
mod given;
mod heaps;
mod hostile;
mod images;
mod machines;
mod plain;
mod tagged;
mod tags;
