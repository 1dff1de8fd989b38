//! The lowest layer of reading: a text is split into its sections, and their bytes are cut into tokens.
#![tactic(auto)]

mod bytes;
mod cut;
mod fault;
mod gap;
mod heading;
mod integer;
mod kind;
mod refusal;
mod section;
mod tables;
mod token;

pub use cut::{Tokens, one_cut, one_refusal, slices_in_order, tokens};
pub use fault::TextFault;

// The faults of each part of reading.
pub use fault::{TextFault as LexFault, TextFault as SplitFault};
pub use heading::heading_name;
pub use integer::{IntegerConstant, integer_of};
pub use kind::{FirstWords, first_words};
pub use refusal::{Phase, Refusal};
pub use section::{Section, Sections, Split, sections};
pub use token::{Token, TokenKind};
