ghost use Rattle.sc_top.specs.Prelude.{accounted_intake, limit_in, limit_of};
ghost use Rattle.std.specs.Prelude.{◌≡◌, Some};

use sc_top_words::Command;

/// How many bytes a command reads at most. `None` where it reads nothing.
pub(crate) fn limit(command: &Command) -> Option<u32>
    ensures { result ≡ limit_of command.now }
{
    match command {
        Command::Check | Command::Meaning(_) => Some(8_388_608),
        Command::Compile | Command::Object(_) | Command::Run(_) => Some(1_048_576),
        Command::Explain(options) => Some(account_limit(options.image)),
        Command::Judge(options) => Some(account_limit(options.image)),
        Command::Exec(_) | Command::Tags(_, _) | Command::Link => Some(67_108_864),
        Command::Make(_) => None,
    }
}

// How many bytes there are at most where a run is accounted for: of a text, or of an image and a text.
fn account_limit(image: bool) -> u32
    ensures { limit_in (accounted_intake image) ≡ Some result }
{
    if image { 67_108_864 } else { 1_048_576 }
}
