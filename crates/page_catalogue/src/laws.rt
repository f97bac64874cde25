// Laws of pages. The functions do nothing: their contracts are the laws.
ghost use Rattle.page_catalogue.specs.Laws.{ExpiredArePrefix, ExpiredStays, WindowHasPage};

/// Each window has a page.
pub fn window_has_page()
    ensures { WindowHasPage }
{}

/// The pages before an expired one are expired.
pub fn expired_are_prefix()
    ensures { ExpiredArePrefix }
{}

/// An expired page stays expired, whatever closes later.
pub fn expired_stays()
    ensures { ExpiredStays }
{}
