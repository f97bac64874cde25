// The links of places, changed one at a time.
ghost use Rattle.std.specs.Prelude.{◌≡◌, ◌≢◌, ℕ, ◌<◌, length, if◌then◌else◌, ◌==◌};
ghost use Rattle.index_rings.specs.Rings.{next_of, prev_of, Inverse, Cut, Joined, first_left};

use crate::link::Link;

/// Writes which place comes next.
pub fn set_next(links: &mut [Link], place: usize, next: usize)
    requires { place < length links.old }
    ensures next { (x : ℕ) → next_of links.new x ≡ if x == place then next else next_of links.old x }
    ensures prev { (x : ℕ) → prev_of links.new x ≡ prev_of links.old x }
{
    links[place].next = next;
}

/// Writes which place comes before.
pub fn set_prev(links: &mut [Link], place: usize, prev: usize)
    requires { place < length links.old }
    ensures prev { (x : ℕ) → prev_of links.new x ≡ if x == place then prev else prev_of links.old x }
    ensures next { (x : ℕ) → next_of links.new x ≡ next_of links.old x }
{
    links[place].prev = prev;
}

/// Writes both.
pub fn set_link(links: &mut [Link], place: usize, link: Link)
    requires { place < length links.old }
    ensures next { (x : ℕ) → next_of links.new x ≡ if x == place then link.next else next_of links.old x }
    ensures prev { (x : ℕ) → prev_of links.new x ≡ if x == place then link.prev else prev_of links.old x }
{
    links[place] = link;
}

/// The link of a place, where the two ways undo one another.
pub fn link_at(links: &[Link], place: usize) -> Link
    requires place { place < length links.now }
    requires turns { Inverse (next_of links.now) (prev_of links.now) }
    ensures next { result.next ≡ next_of links.now place }
    ensures prev { result.prev ≡ prev_of links.now place }
    ensures next_in { result.next < length links.now }
    ensures prev_in { result.prev < length links.now }
{
    links[place]
}

/// Takes a place out, and gives the one behind it.
pub fn cut(links: &mut [Link], place: usize) -> usize
    requires place { place < length links.old }
    requires turns { Inverse (next_of links.old) (prev_of links.old) }
    ensures next { Cut (next_of links.old) (prev_of links.old) place (next_of links.new) }
    ensures prev { Cut (prev_of links.old) (next_of links.old) place (prev_of links.new) }
    ensures value { result ≡ next_of links.old place }
    ensures turns { Inverse (next_of links.new) (prev_of links.new) }
{
    let link = link_at(links, place);
    set_next(links, link.prev, link.next);
    set_prev(links, link.next, link.prev);
    set_link(
        links,
        place,
        Link {
            next: place,
            prev: place,
        },
    );
    link.next
}

/// Links a place that stands alone in before another.
pub fn join_before(links: &mut [Link], first: usize, place: usize)
    requires place { place < length links.old }
    requires first { first < length links.old }
    requires apart { first ≢ place }
    requires single { next_of links.old place ≡ place }
    requires turns { Inverse (next_of links.old) (prev_of links.old) }
    ensures joined { Joined (next_of links.old) (prev_of links.old) first place (next_of links.new) (prev_of links.new) }
    ensures turns { Inverse (next_of links.new) (prev_of links.new) }
{
    let last = link_at(links, first).prev;
    set_next(links, last, place);
    set_prev(links, first, place);
    set_link(
        links,
        place,
        Link {
            next: first,
            prev: last,
        },
    );
}

/// The first place of a chain after one was taken out, where `next` stood behind that one.
pub fn first_left(first: usize, place: usize, next: usize) -> Option<usize>
    ensures { result ≡ first_left first place next }
{
    if first != place {
        Some(first)
    } else if next == place {
        None
    } else {
        Some(next)
    }
}
