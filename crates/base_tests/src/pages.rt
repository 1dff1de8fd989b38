// Pages of a pool, and stores over pages and over flat memory.

mod borders;
mod pools;
mod stores;
