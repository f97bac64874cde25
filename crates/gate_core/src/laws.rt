// What the definitions of the acts, of the plane invariant and of the machine imply. The functions do nothing: their contracts
// are the laws, which a proof has by calling them.
ghost use Rattle.std.specs.Prelude.{◌≡◌};
ghost use Rattle.spie_base.specs.declared.PageShape.{PageShape};
ghost use Rattle.gate_core.specs.Laws.{Always, RunsKeepInvariant, RunsKeepEntries, WordsAreMarks, PagesHaveOnePlace, FloorsHold};
ghost use Rattle.gate_core.specs.Laws.{SettlesTell, ProbesTell, KeeperHasAll, KeeperReads, EntriesStay, OnePlay};
ghost use Rattle.gate_core.specs.Views.{View, Keeper};

/// The plane invariant holds between any two moves: of a new plane, after each act and each run from a
/// plane that meets it, and so at the end of each run from a new plane.
pub fn runs_keep_the_invariant()
    ensures { RunsKeepInvariant }
{}

/// A finished entry stays: after each run an actor's entries begin with those that it had, or it was
/// gathered and the keeper has them among its own, side by side and in order. So a mark of an entry stays one.
pub fn runs_keep_entries()
    ensures { RunsKeepEntries }
{}

/// The bits of a page are exactly the marks of its entries, where it is collected or in a quiet slot, and
/// these and the marks that actors Inside have set so far, where it is in an open or sealed slot. Nobody is
/// Inside a quiet slot, though its gate may count visitors. The words of a free slot are 0.
pub fn words_are_the_marks()
    ensures { Always WordsAreMarks }
{}

/// Each page has one place: at most one slot is open, a page stands in at most one slot, and a page that
/// stands in a slot is not collected.
pub fn pages_have_one_place()
    ensures { Always PagesHaveOnePlace }
{}

/// The page of a visit is not below its actor's floor and not open. So an actor has no visit while the page
/// of its floor is open, which for a pass is the page that was current when it was dealt. The page of an
/// entry is not below the floor and is below the next page. The pages of a pass never fall.
pub fn floors_hold()
    ensures { Always FloorsHold }
{}

/// What a settle tells: a gate that counts nobody has nobody Inside or Visiting its slot. It counts at most
/// the passes that are out, and one more where the keeper has begun a record of its own; and with no pass
/// out, and the keeper neither Inside nor Visiting, every settle reads 0.
pub fn settles_tell_who_is_inside()
    ensures { Always SettlesTell }
{}

/// What a probe tells. A position that was read as set is a mark of an entry of its page, or one that an
/// actor Inside its slot has set. One that was read as not set is no mark of the entries of the page that
/// the keeper then had.
pub fn probes_tell_what_is_set()
    ensures { Always ProbesTell }
{}

/// With no pass out all entries are the keeper's: the bits of a collected page are exactly their marks. Where
/// the keeper is neither Inside nor Visiting, so are the bits of each page in a slot, and each position
/// that a probe read as set.
pub fn keeper_alone_has_all()
    ensures { Always KeeperHasAll }
{}

/// What the keeper's own acts read: the current slot is the one at which it last pointed, and a gate has its slot's page, and
/// is sealed unless the slot is open. With no pass out, the bits of an open or sealed page are the marks of the keeper's entries.
pub fn keeper_reads_its_own()
    ensures { (shape : PageShape) (v : View) → v.role ≡ Keeper → KeeperReads shape v }
{}

/// A step leaves the finished entries as they are, and adds at their end; so does a list of steps.
pub fn entries_stay()
    ensures { EntriesStay }
{}

/// A list of steps has one end and one list of answers.
pub fn one_play()
    ensures { OnePlay }
{}
