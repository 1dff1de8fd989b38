// The sessions that the documents show, run in memory.

mod runs;
mod sessions;
