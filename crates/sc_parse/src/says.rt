//! What tokens say.

ghost use Rattle.sc_parse.specs.Prelude.{IsSpan, says, symbol_of};
ghost use Rattle.std.specs.Prelude.{◌≡◌, ℕ, List, Some, slice_range};
ghost use Rattle.sc_lex.specs.declared.token.Token.{Token};
ghost use Rattle.sc_lex.specs.declared.token.TokenKind.TheVariants.{Reserved};

/// A token that is no reserved word is the lexeme that its text says. A reserved word may say nothing, where it has no
/// place in the grammar.
#[tactic(auto, using(sc_parse_expr::proofs::Sayings::token_says))]
pub fn tokens_say()
    ensures { (bytes : List ℕ) (token : Token) → IsSpan bytes token → (token.kind ≡ Reserved → ⊥) →
        says token.kind (slice_range bytes token.start token.end) ≡ Some (symbol_of bytes token) }
{}
