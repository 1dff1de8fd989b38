ghost use Rattle.sc_base.specs.Prelude.{is_reserved};
ghost use Rattle.std.specs.Prelude.{◌≡◌, ◌∷◌, bytes_eq};
ghost use Rattle.std.specs.List.{list_any};

// How reserved words go on after an `s`.
const AFTER_S: [&[u8]; 6] = [b"hort", b"igned", b"izeof", b"tatic", b"truct", b"witch"];

/// Whether the text is a keyword of C11 (6.4.1), `malloc` or `free`.
#[tactic(auto, unfolding(crate::specs::Reserved::is_reserved))]
pub fn is_reserved(text: &[u8]) -> bool
    ensures { result ≡ is_reserved text.now }
{
    let [first, rest @ ..] = text else {
        return false;
    };
    match *first {
        b'a' => rest == b"uto".as_slice(),
        b'b' => rest == b"reak".as_slice(),
        b'c' => contains(&[b"ase", b"har", b"onst", b"ontinue"], rest),
        b'd' => contains(&[b"efault", b"o", b"ouble"], rest),
        b'e' => contains(&[b"lse", b"num", b"xtern"], rest),
        b'f' => contains(&[b"loat", b"or", b"ree"], rest),
        b'g' => rest == b"oto".as_slice(),
        b'i' => contains(&[b"f", b"nline", b"nt"], rest),
        b'l' => rest == b"ong".as_slice(),
        b'm' => rest == b"alloc".as_slice(),
        b'r' => contains(&[b"egister", b"estrict", b"eturn"], rest),
        b's' => contains(&AFTER_S, rest),
        b't' => rest == b"ypedef".as_slice(),
        b'u' => contains(&[b"nion", b"nsigned"], rest),
        b'v' => contains(&[b"oid", b"olatile"], rest),
        b'w' => rest == b"hile".as_slice(),
        b'_' => is_reserved_after_underscore(rest),
        _ => false,
    }
}

#[tactic(auto, unfolding(crate::specs::Reserved::is_reserved))]
fn is_reserved_after_underscore(rest: &[u8]) -> bool
    ensures { result ≡ is_reserved (95 ∷ rest.now) }
{
    let [first, rest @ ..] = rest else {
        return false;
    };
    match *first {
        b'A' => contains(&[b"lignas", b"lignof", b"tomic"], rest),
        b'B' => rest == b"ool".as_slice(),
        b'C' => rest == b"omplex".as_slice(),
        b'G' => rest == b"eneric".as_slice(),
        b'I' => rest == b"maginary".as_slice(),
        b'N' => rest == b"oreturn".as_slice(),
        b'S' => rest == b"tatic_assert".as_slice(),
        b'T' => rest == b"hread_local".as_slice(),
        _ => false,
    }
}

fn contains(table: &[&[u8]], text: &[u8]) -> bool
    ensures { result ≡ list_any (λ word. bytes_eq text.now word.now) table.now }
{
    table.iter().any(|word| text == *word)
}
