// Tokens, sections, expressions, trees and their texts.

mod expressions;
mod leaves;
mod printing;
mod sections;
mod texts;
mod tokens;
mod words;
