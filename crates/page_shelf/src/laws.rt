// Laws of shelves. The function does nothing: its contract is the law.
ghost use Rattle.page_shelf.specs.Laws.{NoneListedNoneFails};

/// A shelf in memory that was made with no failing calls never counts a fault: by what each call ensures, its list of failing
/// calls stays empty, and its count of faults stays as it is.
pub fn none_listed_none_fails()
    ensures { NoneListedNoneFails }
{}
