ghost use Rattle.sc_types_scope.specs.Prelude.{earlier, line_of_text, noted, unless, with_lines};
ghost use Rattle.std.specs.Prelude.{◌≡◌, ◌∷◌, [], None};

/// The earliest of the lines at which rules of a phase are broken, among those met so far. Lines are noted as they are
/// counted in a section, from 1; the earliest is a line of the whole text, where the section begins at line `start`.
/// 0 stands for a rule that is broken at no line.
#[derive(Clone, Copy, Debug, PartialEq, Eq)]
pub struct BrokenLines {
    pub start: u32,
    pub least: Option<u32>,
}

impl BrokenLines {
    /// No rule is broken yet, in a section that begins at this line.
    pub fn new(start: u32) -> BrokenLines
        ensures { result ≡ record { start = start; least = None } }
    {
        BrokenLines { start, least: None }
    }

    /// A rule is broken at this line of the section.
    #[tactic(auto, unfolding(crate::specs::Broken::noted_all))]
    pub fn note(&mut self, line: u32)
        ensures { self.new ≡ with_lines self.old (line ∷ []) }
    {
        self.least = noted(self.least, line_of_text(self.start, line));
    }

    /// A rule is broken at this line of the section, unless it holds.
    #[tactic(auto, unfolding(crate::specs::Broken::noted_all))]
    pub fn unless(&mut self, holds: bool, line: u32)
        ensures { self.new ≡ with_lines self.old (unless holds line) }
    {
        if !holds {
            self.note(line);
        }
    }
}

/// The line of the whole text that is this line of a section, counted from 1. Lines past 4294967295 share its number.
pub fn line_of_text(start: u32, line: u32) -> u32
    ensures { result ≡ line_of_text start line }
{
    start.saturating_add(line.saturating_sub(1))
}

// The earliest line, after one more.
fn noted(least: Option<u32>, line: u32) -> Option<u32>
    ensures { result ≡ noted least line }
{
    match least {
        None => Some(line),
        Some(least) => Some(earlier(least, line)),
    }
}

fn earlier(a: u32, b: u32) -> u32
    ensures { result ≡ earlier a b }
{
    if a == 0 {
        b
    } else if b == 0 {
        a
    } else {
        a.min(b)
    }
}
