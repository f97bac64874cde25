ghost use Rattle.std.specs.Prelude.{◌≡◌, ◌⊎◌};
ghost use Rattle.page_catalogue.specs.declared.states.PageState.TheVariants.{Resident, Shelved};

/// Where a page is.
#[derive(Clone, Copy, PartialEq, Eq, Debug)]
pub enum PageState {
    /// Records go into it.
    Open,
    /// Closed, and not yet drained.
    Sealed,
    /// Closed and drained, in memory.
    Resident,
    /// On the shelf.
    Shelved,
    /// Nothing of it is kept.
    Expired,
}

/// When a page opened and closed, and where it is.
#[derive(Clone, Copy, PartialEq, Eq, Debug)]
pub struct PageRow {
    pub opened: u64,
    pub closed: Option<u64>,
    pub state: PageState,
}

/// Why a page is to be closed.
#[derive(Clone, Copy, PartialEq, Eq, Debug)]
pub enum Why {
    /// It has been open for the span.
    Span,
    /// It has as many set bits as the limit.
    Limit,
}

/// Where a closed page that has not expired is.
#[derive(Clone, Copy, PartialEq, Eq, Debug)]
pub enum Place {
    Sealed,
    Resident,
    Shelved,
}

impl Place {
    ghost use Rattle.page_catalogue.specs.Private.{state_in};

    /// The state of such a page.
    pub fn state(self) -> PageState
        ensures { result ≡ state_in self }
    {
        match self {
            Place::Sealed => PageState::Sealed,
            Place::Resident => PageState::Resident,
            Place::Shelved => PageState::Shelved,
        }
    }

    /// The place of a page that has been drained.
    pub fn of(state: PageState) -> Place
        requires { (state ≡ Resident) ⊎ (state ≡ Shelved) }
        ensures { state_in result ≡ state }
    {
        match state {
            PageState::Resident => Place::Resident,
            PageState::Shelved => Place::Shelved,
            _ => unreachable!(),
        }
    }
}
