//! Functions that perform the rows of their entries.

ghost use Rattle.sc_back.specs.Prelude.{HasNext, entry_at, function_text, is_of, own_row_text, own_rows_text, row_text};
ghost use Rattle.std.specs.Prelude.{◌≡◌, ◌≤◌, ◌<◌, ◌^◌, ◌++◌, All, codes, filter, flat_map, length, suc, OnOk};
ghost use Rattle.sc_event.specs.declared.interface.Scalar.TheVariants.{Unsigned};

use crate::action::{append_action, append_value};
use crate::head::append_head;
use sc_base::{OutOfMemory, Text};
use sc_event::{Entry, Interfaces, Row, Scalar};

/// What a function promises, and the place of the export that leads to it: `None` for `main`.
#[derive(Clone, Copy)]
pub struct Performer<'a> {
    pub export: Option<usize>,
    pub name: &'a [u8],
    pub params: &'a [Scalar],
    pub promised: Option<Scalar>,
}

impl Performer<'_> {
    // Whether a row is one of its entry.
    fn performs(&self, row: &Row) -> bool
        ensures { result ≡ is_of (entry_at self.now.export) row.now }
    {
        match (self.export, row.entry) {
            (None, Entry::Main) => true,
            (Some(place), Entry::Export(index)) => usize::from(index) == place,
            _ => false,
        }
    }
}

fn append_row(
    text: &mut Text,
    interfaces: &Interfaces,
    promised: Option<Scalar>,
    row: &Row,
) -> Result<(), OutOfMemory>
    requires { HasNext row.now }
    ensures { OnOk result (text.new ≡ text.old ++ row_text interfaces.now promised row.now) }
{
    text.append(b"  if (bt_n == ")?;
    append_value(text, Scalar::Unsigned, row.number)?;
    text.append(b") { bt_n = ")?;
    append_value(text, Scalar::Unsigned, row.number + 1)?;
    text.append(b"; ")?;
    append_action(text, interfaces, promised, &row.action)?;
    text.append(b" }\n")
}

// A row, where it is one of the function's entry.
fn append_own_row(
    text: &mut Text,
    interfaces: &Interfaces,
    performer: &Performer<'_>,
    row: &Row,
) -> Result<(), OutOfMemory>
    requires { HasNext row.now }
    ensures { OnOk result (text.new ≡ text.old ++ own_row_text interfaces.now performer.now.promised
        (entry_at performer.now.export) row.now) }
{
    if performer.performs(row) {
        append_row(text, interfaces, performer.promised, row)
    } else {
        text.append(b"")
    }
}

fn append_rows(
    text: &mut Text,
    interfaces: &Interfaces,
    performer: &Performer<'_>,
    rows: &[Row],
) -> Result<(), OutOfMemory>
    requires { All HasNext rows.now }
    ensures { OnOk result (text.new ≡ text.old ++ own_rows_text interfaces.now performer.now.promised
        (entry_at performer.now.export) rows.now) }
{
    for row in rows {
        append_own_row(text, interfaces, performer, row)?;
    }
    Ok(())
}

/// A function that performs its rows, and then never ends.
pub fn append_function(
    text: &mut Text,
    interfaces: &Interfaces,
    rows: &[Row],
    performer: &Performer<'_>,
) -> Result<(), OutOfMemory>
    requires params { length performer.now.params.now ≤ 8 }
    requires rows { All HasNext rows.now }
    ensures { OnOk result (text.new ≡ text.old ++ function_text interfaces.now rows.now
        (entry_at performer.now.export) (record {
          name = performer.now.name.now;
          params = performer.now.params.now;
          result = performer.now.promised;
        })) }
{
    append_head(text, performer.name, performer.params, performer.promised)?;
    text.append(b" {\n")?;
    append_rows(text, interfaces, performer, rows)?;
    text.append(b"  while (1) { }\n}\n")?;
    Ok(())
}
