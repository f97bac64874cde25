// The places of a chain, one after the other.
ghost use Rattle.std.specs.Iterator.{item_count, YieldsFirst};
ghost use Rattle.index_rings.specs.Walk.{places_left};

use crate::rings::Rings;

/// The places of a chain, in order. Each step costs one read of a link.
#[derive(Drop)]
pub struct Places<'a> {
    pub(crate) rings: &'a Rings,
    pub(crate) first: usize,
    pub(crate) most: usize,
    pub(crate) at: Option<usize>,
}

impl<'a> Iterator for Places<'a> {
    type Item = usize;

    ghost next_gives = { YieldsFirst places_left };

    ghost remaining = { item_count places_left };

    fn next(&mut self) -> Option<usize> {
        let place = self.at?;
        if self.most == 0 {
            return None;
        }
        self.most -= 1;
        let next = self.rings.next(place);
        self.at = if next == self.first { None } else { Some(next) };
        Some(place)
    }
}
