// Laws of code and of words in memory, each the contract of a function with nothing to do.

ghost use Rattle.sc_emit_hart.specs.Prelude.{CodeIsFetched, WordsAreKept};

/// Instructions that stand in a compartment's code are fetched at their addresses.
pub fn code_is_fetched()
    ensures { CodeIsFetched }
{}

/// A word that is stored is what is loaded there, and words that don't meet it stay.
pub fn words_are_kept()
    ensures { WordsAreKept }
{}
