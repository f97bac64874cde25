// The shared words, for the acts.
ghost use Rattle.std.specs.Prelude.{◌≡◌, ◌+◌, ◌*◌};
ghost use Rattle.gate_core.specs.Marks.{width};
ghost use Rattle.spie_base.specs.Shapes.{IsShape};

use crate::told::Order;
use atomic_table::Table;
use gate_core::view::View;
use spie_base::PageShape;
use std::alloc::Global;

/// The current-slot word, four gates and the bit words of four slots.
#[derive(Drop)]
pub(crate) struct Words {
    pub table: Table<(), View, PageShape, Order, Global>,
    pub shape: PageShape,
    ghost keyed: { shape ≡ table.shared.key },
    ghost wide: { table.shared.table_id.words ≡ 5 + 4 * width shape },
    ghost in_range: { IsShape shape },
}
