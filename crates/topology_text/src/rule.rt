//! What a rule is, and the first place at which it finds something.
ghost use Rattle.std.specs.Prelude.{◌≡◌, map, List};
ghost use Rattle.topology_text.specs.Walk.{Visit, first, places_in, places_of};
ghost use Rattle.topology_text.specs.Code.{visit};

use crate::schema::{At, Key, Place};
use crate::visited::TableAt;

/// What is a fault at a key of a table.
pub trait Rule {
    ghost use Rattle.topology_text.specs.declared.schema.Key.{Key};
    ghost use Rattle.topology_text.specs.declared.schema.At.{At};

    ghost finds: { Self → Visit → Key → List At };

    fn first(&self, table: &TableAt<'_>, key: Key) -> Option<At>
        ensures { result ≡ first (finds self.now (visit table.now) key) };
}

/// The first fault in a table.
fn first_in<R: Rule>(rule: &R, table: &TableAt<'_>) -> Option<Place>
    ensures { result ≡ first (places_in (R.finds rule.now) (visit table.now)) }
{
    for key in table.spot.keys() {
        if let Some(at) = rule.first(table, *key) {
            return Some(Place {
                spot: table.spot,
                key: Some(*key),
                at,
            });
        }
    }
    None
}

/// The first fault on the walk.
pub fn first_by<R: Rule>(rule: &R, tables: &[TableAt<'_>]) -> Option<Place>
    ensures { result ≡ first (places_of (R.finds rule.now) (map visit tables.now)) }
{
    for table in tables {
        if let Some(place) = first_in(rule, table) {
            return Some(place);
        }
    }
    None
}
