//! Loads an image. The status is 0 where it is loaded, 9 where memory is wanting and the image comes back as it was,
//! and 1 where another comes back. `tools/refuse_allocations.py` refuses each allocation of it in turn.
#![tactic(auto)]

use sc_image::{Image, ImageFault, read_image, write_image};
use sc_machine::{LoadFault, Machine};
use sc_store::PagedStore;
use std::alloc::Global;
use std::process::ExitCode;

// One compartment with a heap, whose code is one jump to itself, with four bytes of globals.
const IMAGE: [u8; 35] = [
    b'S', b'C', b'I', b'M', 2, 0, 1, 0, 0, 0, 0, 1, 1, b'A', 4, 0, 0, 0, 0, 4, 0, 0, 0, 0x6f, 0, 0,
    0, 4, 0, 0, 0, 1, 2, 3, 4,
];

const INPUTS: [i32; 3] = [1, 2, 3];

// Room for this number of events.
const EVENTS: u32 = 16;

#[derive(Clone, Copy)]
enum Outcome {
    Loaded,
    CameBack,
    AnotherCameBack,
}

fn main(rt: HostRuntime) -> ExitCode {
    match load(rt.alloc()) {
        Outcome::Loaded => ExitCode::from(0),
        Outcome::CameBack => ExitCode::from(9),
        Outcome::AnotherCameBack => ExitCode::from(1),
    }
}

fn load(alloc: Global) -> Outcome {
    let image = match read_image(alloc, &IMAGE) {
        Ok(image) => image,
        Err(ImageFault::OutOfMemory) => return Outcome::CameBack,
        Err(ImageFault::Bad(_)) => return Outcome::AnotherCameBack,
    };
    match Machine::<PagedStore>::load(alloc, image, &INPUTS, EVENTS) {
        Ok(_) => Outcome::Loaded,
        Err(LoadFault::OutOfMemory(image)) => back(alloc, &image),
    }
}

fn back(alloc: Global, image: &Image) -> Outcome {
    match write_image(alloc, image) {
        Ok(bytes) if bytes.as_bytes() == IMAGE.as_slice() => Outcome::CameBack,
        _ => Outcome::AnotherCameBack,
    }
}
