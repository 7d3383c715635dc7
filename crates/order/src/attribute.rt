//! Whether runs and attributes are in order.
ghost use Rattle.std.specs.Prelude.{◌≡◌, true};
ghost use Rattle.card.specs.Lists.{all};
ghost use Rattle.card.specs.Tables.{entries, run_in};
ghost use Rattle.card.specs.TableOrder.{in_use, attribute_in_order};

use crate::value::{is_utf8, keeps_rules};
use crate::whole::WholeTables;
use card::{Attribute, Run};

// Whether a run lies in the used entries of its table.
pub(crate) fn is_in_use(run: Run, count: usize) -> bool
    ensures { result ≡ in_use count run }
{
    run.start <= run.end && run.end as usize <= count
}

impl WholeTables<'_> {
    // Whether an attribute's runs are in use, its value is UTF-8, and its reading keeps the rules.
    fn is_attribute_in_order(self, attribute: &Attribute) -> bool
        ensures { result ≡ attribute_in_order (entries self.entry.tables) self.entry.counts attribute.now }
    {
        let Attribute {
            value,
            lengths,
            marks,
            ..
        } = *attribute;
        if !is_in_use(value, self.counts.bytes) || !is_in_use(lengths, self.counts.lengths) {
            return false;
        }
        if !is_utf8(value.entries(self.tables.bytes)) {
            return false;
        }
        keeps_rules(lengths.entries(self.tables.lengths), marks)
    }

    // Whether each attribute of a run is in order.
    pub(crate) fn are_attributes_in_order(self, run: Run) -> bool
        requires { in_use self.counts.attributes run ≡ true }
        ensures { result ≡ all (attribute_in_order (entries self.entry.tables) self.entry.counts) (run_in run (entries self.entry.tables).attributes) }
    {
        run.entries(self.tables.attributes)
            .iter()
            .all(|attribute| self.is_attribute_in_order(attribute))
    }
}
