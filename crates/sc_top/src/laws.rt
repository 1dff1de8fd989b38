//! What holds of every text.

ghost use Rattle.sc_base.specs.Prelude.{most_image};
ghost use Rattle.sc_top.specs.Prelude.{AccountsRunAsExec, Command, CompiledImagesAreExplained, CompiledImagesRun};
ghost use Rattle.sc_top.specs.Prelude.{CompiledImagesAreJudged, JudgmentsRunAsExec};
ghost use Rattle.sc_top.specs.Prelude.{ExecutionsAreApart, ExplainedAreTagged, IsAnswer, IsOutput};
ghost use Rattle.sc_top.specs.Prelude.{LinkedImagesAreExplained, LinkingIsCompiling, SameAnswer};
ghost use Rattle.sc_top.specs.Prelude.{SameTextsFit, SectionsAreApart, TagsRunAsExec};
ghost use Rattle.sc_image.specs.Prelude.{IsImage};
ghost use Rattle.std.specs.Prelude.{◌≡◌, ◌≤◌, ℕ, List, length};
ghost use Rattle.sc_top.specs.declared.status.Status.{Status};

use sc_chain::own_images_are_explained;
use sc_image::one_image;
use sc_object::{bytes_name_one_list, joins_but_for, link_is_compile, one_first_bad};
use sc_policy::{one_policy, policy_or_bad};
use sc_tags::tags_agree;
use sc_types::{accepted_or_refused, one_phase, one_program};
use sc_types_section_laws::sections_are_typed_alone;

/// An image is never longer than the command takes that reads it.
pub fn images_are_within()
    ensures { (bytes : List ℕ) → IsImage bytes → length bytes ≤ most_image }
{}

/// Bytes have one answer at most.
pub fn one_answer()
    ensures { (c : Command) (text : List ℕ) (status other : Status) →
        IsAnswer c text status → IsAnswer c text other → SameAnswer status other }
{
    accepted_or_refused();
    one_phase();
    one_program();
    one_policy();
    policy_or_bad();
    bytes_name_one_list();
    one_first_bad();
}

/// A command has one output at most for its input.
pub fn one_output()
    ensures { (c : Command) (bytes text other : List ℕ) →
        IsOutput c bytes text → IsOutput c bytes other → text ≡ other }
{
    one_program();
    one_image();
    one_policy();
    bytes_name_one_list();
}

/// What `compile` writes is good input of `exec`, which writes for it what `run` writes for the text: the same trace
/// and stop, by the same names.
pub fn compiled_images_run()
    ensures { CompiledImagesRun }
{
    one_program();
    one_image();
}

/// What `exec` writes for an image begins the report of `explain --image` on it: the trace and the stop are the same.
pub fn accounts_run_as_exec()
    ensures { AccountsRunAsExec }
{}

/// What `link` writes for objects of which some are anybody's, in place of the program's own, is explained.
pub fn linked_images_are_explained()
    ensures { LinkedImagesAreExplained }
{
    one_program();
    joins_but_for();
}

/// What `compile` writes for a text is explained, with the text after it, as the text is.
pub fn compiled_images_are_explained()
    ensures { CompiledImagesAreExplained }
{
    one_program();
    own_images_are_explained();
}

/// So it is judged as the text is, with any policy before both.
pub fn compiled_images_are_judged()
    ensures { CompiledImagesAreJudged }
{
    one_program();
    one_policy();
    own_images_are_explained();
}

/// What `exec` writes for an image begins what `judge` writes for a policy, this image and a text.
pub fn judgments_run_as_exec()
    ensures { JudgmentsRunAsExec }
{
    one_policy();
}

/// What `object` writes for all sections of a text is good input of `link`, which writes for it what `compile` writes
/// for the text, in whatever order the objects come.
pub fn linking_is_compiling()
    ensures { LinkingIsCompiling }
{
    one_program();
    bytes_name_one_list();
    link_is_compile();
}

/// Without a range `tags` writes for an image what `exec` writes for it.
pub fn tags_run_as_exec()
    ensures { TagsRunAsExec }
{
    tags_agree();
}

/// The trace that `explain` accounts for, and why it stops, are those of the machine with tags, too.
pub fn explained_are_tagged()
    ensures { ExplainedAreTagged }
{
    tags_agree();
}

/// Two accepted texts with the same interfaces, whose sections outside a set of compartments are the same byte for byte,
/// are such texts as `sections_are_apart` takes.
pub fn same_texts_fit()
    ensures { SameTextsFit }
{
    sections_are_typed_alone();
}

/// Take two texts with the same interfaces, and the same sections outside a set of compartments but for their lines.
/// What `run` writes for both gives away of the set only its own events, its traps and the time that it takes.
pub fn sections_are_apart()
    ensures { SectionsAreApart }
{
    one_program();
}

/// So does what `exec` writes for two images that agree outside a set of compartments.
pub fn executions_are_apart()
    ensures { ExecutionsAreApart }
{
    one_image();
}
