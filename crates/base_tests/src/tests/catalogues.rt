use page_catalogue::{Catalogue, PageState, Why};
use spie_base::{PageNo, Rules};
use std::test::Fail;

const RULES: Rules = Rules {
    k: 1,
    n: 6,
    limit: 3,
    span: 10,
    keep: 1,
    age: 100,
    width: 5,
    base: 0,
};

#[test]
fn pages_close_and_expire(rt: HostRuntime) -> Result<(), Fail> {
    let alloc = rt.alloc();
    let mut pages = Catalogue::start(alloc, &RULES)?;
    assert_eq!(rt; pages.due(9, 2), None);
    assert_eq!(rt; pages.due(9, 3), Some(Why::Limit));
    assert_eq!(rt; pages.due(10, 3), Some(Why::Span));
    pages.reserve(alloc, 2)?;
    let opened = pages.turn(10);
    assert_eq!(rt; opened.number, 1);
    let opened = pages.turn(12);
    assert_eq!(rt; opened.number, 2);
    let window = pages.window(15);
    assert_eq!(rt; (window.first.number, window.last.number), (0, 2));
    let gone = pages
        .expire(12)
        .map(|gone| (gone.first.number, gone.last.number));
    assert_eq!(rt; gone, Some((0, 0)));
    assert_eq!(rt; pages.expire(12), None);
    pages.mark(PageNo { number: 1 }, PageState::Resident);
    let row = pages.row(PageNo { number: 1 });
    assert_eq!(rt;
        (row.opened, row.closed, row.state),
        (10, Some(12), PageState::Resident)
    );
    Ok(())
}
