//! Marks.

ghost use Rattle.sc_lex.specs.Prelude.{is_mark};
ghost use Rattle.std.specs.Prelude.{◌≡◌, [], ◌∷◌};

/// Whether the text is one of the operators and punctuators of C11 (6.4.6) that the language has.
#[tactic(auto, unfolding(crate::specs::Tables::is_mark))]
pub fn is_mark(text: &[u8]) -> bool
    ensures { result ≡ is_mark text.now }
{
    match text {
        [only] => is_single(*only),
        [first, second] => is_pair(*first, *second),
        [first, second, third] => is_shift(*first, *second, *third),
        _ => false,
    }
}

#[tactic(auto, unfolding(crate::specs::Tables::is_mark))]
fn is_single(only: u8) -> bool
    ensures { result ≡ is_mark (only ∷ []) }
{
    matches!(
        only,
        b'+' | b'-'
            | b'*'
            | b'/'
            | b'%'
            | b'<'
            | b'>'
            | b'&'
            | b'^'
            | b'|'
            | b'!'
            | b'~'
            | b'='
            | b'.'
            | b'('
            | b')'
            | b'['
            | b']'
            | b'{'
            | b'}'
            | b','
            | b';'
    )
}

#[tactic(auto, unfolding(crate::specs::Tables::is_mark))]
fn is_pair(first: u8, second: u8) -> bool
    ensures { result ≡ is_mark (first ∷ second ∷ []) }
{
    match second {
        b'=' => matches!(
            first,
            b'<' | b'>' | b'=' | b'!' | b'+' | b'-' | b'*' | b'/' | b'%' | b'&' | b'^' | b'|'
        ),
        b'<' => first == b'<',
        b'>' => first == b'>' || first == b'-',
        b'&' => first == b'&',
        b'|' => first == b'|',
        b'+' => first == b'+',
        b'-' => first == b'-',
        _ => false,
    }
}

#[tactic(auto, unfolding(crate::specs::Tables::is_mark))]
fn is_shift(first: u8, second: u8, third: u8) -> bool
    ensures { result ≡ is_mark (first ∷ second ∷ third ∷ []) }
{
    third == b'=' && first == second && (first == b'<' || first == b'>')
}
