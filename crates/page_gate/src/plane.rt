// The shared words of a router's pages.

use crate::words::Words;
use std::marker::Model;
use std::sync::Mutex;

/// The words of a router's pages. Threads share it. Contracts see which plane it is.
#[derive(Drop)]
pub struct Plane {
    pub(crate) words: Words,
    // The rotation lock. It guards no value: the words are shared without it.
    pub(crate) lock: Mutex<()>,
}

impl Model for Plane {
    ghost use Rattle.page_gate.specs.Held.{PlaneId};

    ghost Value = { PlaneId };

    ghost view = { λ p. record { table = p.words.table.shared.table_id; shape = p.words.shape } };
}
