//! The reverse flood: from a packet at a router back over the links to the routers that it may have come from, with the
//! packet as it was before a router changed it.
//!
//! # What a flood computes
//!
//! A pair is a router and a signature. From a pair that is hit, a step goes back to each linked router with each of the
//! pair's origins: the signatures that the packet may have had before that router. Nodes are the pairs at the ends of
//! chains of steps between hits, edges the steps between nodes, and the pairs that were asked and are no hit are unknown
//! or clear. `specs/Flood` defines this as a least relation, with no word on how pairs are looked for. `flood` answers it
//! as ascending lists that are equal to it as sets; `flood_within` is the same from several entries, within one region,
//! with the steps that lead out of it (exits).
//!
//! # Rows by signature
//!
//! A search names a pair before it asks it. What is known of a pair is one cell: free, waiting, unseen, or a hit with its
//! origins. Each signature has a row of cells, one for each of the 64 routers that there can be, and an ordered map tells
//! where the row of a signature begins. A pair goes with its row, so a step between pairs of one signature reads a cell by
//! index and looks nothing up.
//!
//! # What a step costs
//!
//! `hit` is asked once of each named pair, `origins` once of each that is hit (so the code does it; no contract counts
//! questions), and they are kept only if there are others than the pair's own signature. A step costs one read of a cell
//! while the search runs, and one more with 64 bytes of the graph when it is told. Telling walks the cells router by
//! router, and at each the signatures in the order of their map: so all lists come out in order, and nothing is sorted.
//! Beside its graph a flood keeps a lead and a cell a pair. Most of the time of a large flood is the system's, which hands
//! out fresh memory for the edges.
//!
//! # Chosen signatures
//!
//! An attacker chooses what signatures the transforms of a trace have. There is no hash to be guessed: the map compares
//! signatures, and is asked once for each origin that is not the pair's own signature, so the cost is n log n whatever they
//! are. Rows are whole, so a signature that one router alone has costs 64 cells.
//!
//! # Going on
//!
//! A search can stop and go on. The pairs that are named and were not asked are leads. `begin` names the entries,
//! `follow_in` asks leads and what they lead to within one region, and hands out the pairs of other regions as further
//! leads, each once, since it is marked in its row; `graph_of` tells the graph when no lead is left. `specs/Search` says
//! how far a search has come (`IsUnderWay`): the entries are named, what is named belongs to the flood, and what doesn't
//! wait is settled. So the order in which leads are followed changes nothing. `enter` names further entries of a search.
//! Several searches, each of which asked the routers of one region, are made one by `take_up`, region by region.
//!
//! # Reading order
//!
//! `specs/Flood`, `graphs` and `floods`; then `specs/Search`, `cells`, `leads` and `asks` for the search; `ways` and `tells`
//! for what is told of it; `specs/Unions` and `unions` for searches that are made one.
#![tactic(auto)]

mod asks;
mod cells;
mod floods;
mod graphs;
mod laws;
mod leads;
mod steps;
mod tells;
mod unions;
mod ways;

pub use cells::{Search, no_names};
pub use floods::{begin, enter, flood, flood_within, follow_in, graph_of};
pub use graphs::{Edge, Graph, Node, Part};
pub use laws::{one_flood, one_part};
pub use leads::{Lead, Leads};
pub use unions::take_up;
