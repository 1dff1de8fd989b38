use sc_compile::CompileFault;
use thiserror::Error;

/// Why there is no explanation: the program is too large, as its compiler says, or memory ran out.
#[derive(Clone, Copy, Debug, Error)]
pub enum ExplainFault {
    #[error("{0}")]
    CompileFault(CompileFault),
    #[error("out of memory")]
    OutOfMemory,
}

/// Why there is no explanation of an image by a program: the program is too large, as its compiler says, the image isn't
/// the program's own but for given compartments, or memory ran out.
#[derive(Clone, Copy, Debug, Error)]
pub enum ImageFault {
    #[error("{0}")]
    CompileFault(CompileFault),
    #[error("image differs")]
    Differs,
    #[error("out of memory")]
    OutOfMemory,
}
