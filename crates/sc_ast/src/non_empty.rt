ghost use Rattle.std.specs.Prelude.{◌≡◌, ◌<◌, length};
ghost use Rattle.sc_ast.specs.Lists.{non_empty};

use sqlite_items::Items;
use std::marker::Model;

/// A list with at least one item. Contracts see the list.
#[derive(Drop)]
pub struct NonEmpty<T> {
    items: Items<T>,
}

impl<T> Model for NonEmpty<T> {
    ghost use Rattle.std.specs.Prelude.{List, ◌<◌, length};
    ghost use Rattle.std.specs.Coded.{coded_list};

    ghost Value = { List T };

    ghost coded = { coded_list T.code };

    ghost view = { λ list. list.items };

    ghost invariant = { λ list. 0 < length list.items };
}

impl<T: Drop> NonEmpty<T> {
    /// The items as a list with at least one, `None` where there is none.
    pub fn new(items: Items<T>) -> Option<NonEmpty<T>>
        ensures { result ≡ non_empty items }
    {
        if items.len() == 0 {
            drop(items);
            None
        } else {
            Some(NonEmpty { items })
        }
    }

    /// All items, in order.
    pub fn as_slice(&self) -> &[T]
        ensures value { result.now ≡ self.now }
        ensures some { 0 < length result.now }
    {
        self.items.as_slice()
    }
}
