// Rows that are found by their keys.
ghost use Rattle.std.specs.Prelude.{◌≡◌, ◌↔◌, filter};
ghost use Rattle.std.specs.List.{Contains};
ghost use Rattle.used_pages.specs.UsedPages.{has_key};

use packet_signature::Row;
use std::marker::Model;

/// Rows in ascending order of their keys, those of one key in any order. They need no memory beside the rows.
#[derive(Drop)]
pub struct KeyedRows {
    rows: Vec<Row>,
}

impl Model for KeyedRows {
    ghost use Rattle.std.specs.Prelude.{List};
    ghost use Rattle.std.specs.List.Sorted.{IsNonDecreasingBy};
    ghost use Rattle.packet_signature.specs.declared.rows.Row.{Row};

    ghost Value = { List Row };

    ghost view = { λ keyed. keyed.rows.items };

    ghost invariant = { λ keyed. IsNonDecreasingBy (λ (row : Row). row.key) keyed.rows.items };
}

impl KeyedRows {
    /// Puts rows in order. Costs a sort, whatever the keys are, and takes no memory.
    pub fn of(mut rows: Vec<Row>) -> KeyedRows
        ensures { (row : Row) → Contains result row ↔ Contains rows.items row }
    {
        rows.sort_unstable_by_key(|row| row.key);
        KeyedRows { rows }
    }

    /// The rows with this key. Costs two binary searches.
    pub fn with_key(&self, key: u64) -> &[Row]
        ensures { result.now ≡ filter (has_key key) self.now }
    {
        let first = self.rows.partition_point(|row| row.key < key);
        let rest = &self.rows[first..];
        let count = rest.partition_point(|row| row.key <= key);
        &rest[..count]
    }
}
