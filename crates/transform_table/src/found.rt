ghost use Rattle.std.specs.Iterator.{item_count, YieldsFirst};

use crate::line::Line;
use crate::rows::row_with;
use index_rings::Places;
use indirect_store::Store;
use packet_signature::Row;
use slab::Slab;
use spie_base::PageNo;
use std::marker::Model;

/// The rows with a key that are still to come, each with its page, in the order of adding. It takes no memory, and
/// looks at each row of one bucket once.
#[derive(Drop)]
pub struct Found<'a> {
    pub(crate) places: Places<'a>,
    pub(crate) rows: &'a Slab<Line>,
    pub(crate) olds: &'a Store,
    pub(crate) key: u64,
}

impl<'a> Model for Found<'a> {
    ghost use Rattle.std.specs.Prelude.{List, filter_map};
    ghost use Rattle.index_rings.specs.Walk.{places_left};
    ghost use Rattle.spie_base.specs.declared.types.PageNo.{PageNo};
    ghost use Rattle.packet_signature.specs.declared.rows.Row.{Row};
    ghost use Rattle.transform_table.specs.Tables.{with_key};
    ghost use Rattle.transform_table.specs.Rows.{pair_at, AreHeld};

    ghost Value = { List (PageNo × Row) };

    ghost view = { λ it. with_key it.key (filter_map (pair_at it.rows.now it.olds.now) (places_left it.places)) };

    ghost invariant = { λ it. AreHeld it.rows.now it.olds.now };
}

impl<'a> Iterator for Found<'a> {
    type Item = (PageNo, Row);

    ghost next_gives = { YieldsFirst (λ rest. rest) };

    ghost remaining = { item_count (λ rest. rest) };

    fn next(&mut self) -> Option<(PageNo, Row)> {
        while let Some(place) = self.places.next() {
            if let Some(found) = row_with(self.rows, self.olds, place, self.key) {
                return Some(found);
            }
        }
        None
    }
}
