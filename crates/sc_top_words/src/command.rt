use sc_base::Name;
use sc_event::CompId;
use sqlite_items::Items;
use std::fmt;

/// What `secomp` is asked to do, with the options of each command. An option that isn't given has its default.
#[derive(Debug, Drop)]
pub enum Command {
    /// The compartments of a program, and what they import and export.
    Check,
    /// What a program does by the meaning of its source.
    Meaning(MeaningOptions),
    /// The machine image of a program.
    Compile,
    /// The object of a program's section of this name.
    Object(ObjectOptions),
    /// The machine image of objects.
    Link,
    /// What the machine does on the image of a program.
    Run(RunOptions),
    /// What the machine does on an image.
    Exec(RunOptions),
    /// What the machine with tags does on an image, where the bytes of a range, if there is one, are tagged as data.
    Tags(RunOptions, Option<DataRange>),
    /// The events of the machine on a program, and the chain of texts that accounts for them.
    Explain(ExplainOptions),
    /// The same report for a text that follows a policy, and what the policy says of these events.
    Judge(JudgeOptions),
    /// A program that is made from a seed.
    Make(MakeOptions),
}

/// Which section is compiled.
#[derive(Clone, Copy)]
pub struct ObjectOptions {
    /// An identifier other than `Env`.
    pub section: Name,
}

impl fmt::Debug for ObjectOptions {
    fn fmt<W: fmt::Write>(&self, f: &mut fmt::Formatter<W>) -> fmt::Result {
        write!(
            f,
            "ObjectOptions {{ section: {:?} }}",
            self.section.as_bytes()
        )
    }
}

/// How far the source meaning runs, and on what inputs.
#[derive(Debug, Drop)]
pub struct MeaningOptions {
    /// At most 16,777,216.
    pub turns: u32,
    /// At most 4,096.
    pub events: u32,
    /// At most 65,536 of them.
    pub inputs: Items<i32>,
}

/// How far the machine runs, and on what inputs.
#[derive(Debug, Drop)]
pub struct RunOptions {
    /// At most 16,777,216.
    pub steps: u32,
    /// At most 4,096.
    pub events: u32,
    /// At most 65,536 of them.
    pub inputs: Items<i32>,
}

/// How `explain` accounts for a run.
#[derive(Debug, Drop)]
pub struct ExplainOptions {
    pub run: RunOptions,
    /// Whether an image stands before the text. Then the machine runs that image.
    pub image: bool,
    /// Whether the report says who stopped the machine, where a trap did.
    pub trapped: bool,
    /// Which text of the chain is written in place of the report, 0 to 32.
    pub show: Option<u32>,
}

/// How `judge` accounts for a run.
#[derive(Debug, Drop)]
pub struct JudgeOptions {
    pub run: RunOptions,
    /// Whether an image stands between the policy and the text. Then the machine runs that image.
    pub image: bool,
    /// Whether the report says who stopped the machine, where a trap did.
    pub trapped: bool,
}

/// Bytes that are tagged as data of a compartment.
#[derive(Clone, Copy, Debug, PartialEq, Eq)]
pub struct DataRange {
    /// The address of the first.
    pub start: u32,
    /// How many there are. None of them has an address past 4,294,967,295.
    pub bytes: u32,
    pub comp: CompId,
}

/// Which program is made.
#[derive(Clone, Copy, Debug)]
pub struct MakeOptions {
    /// How many functions, from 1 to 1,000.
    pub size: u32,
    pub seed: u32,
    /// Whether a summary of the program is written in place of its text.
    pub summary: bool,
}
