use packet_signature::{Kind, Row, RowData};
use spie_base::{PageNo, Sig};
use std::alloc::Global;
use std::process::Abort;
use std::test::Fail;
use transform_table::Table;

// The signature of a packet of 1,500 bytes from 10.0.0.1 to 10.0.0.2.
const OLD: Sig = Sig {
    bytes: [
        0x45, 0x00, 0x05, 0xdc, 0x00, 0x04, 0x00, 0x00, 0x00, 0x11, 0x00, 0x00, 0x0a, 0x00, 0x00,
        0x01, 0x0a, 0x00, 0x00, 0x02, 0x01, 0x02, 0x03, 0x04, 0x05, 0x06, 0x07, 0x08,
    ],
};

fn page(number: u32) -> PageNo {
    PageNo { number }
}

fn translated(key: u64) -> Row {
    Row {
        key,
        kind: Kind::Nat,
        old: RowData::Indirect(OLD),
    }
}

// An old signature stays as long as a row of any page keeps it.
#[test]
fn drop_page_keeps_shared_old(rt: HostRuntime) -> Result<(), Fail> {
    let alloc = rt.alloc();
    let mut table = Table::new(alloc)?;
    for key in 1..6 {
        table.add(alloc, page(0), &translated(key))?;
    }
    table.add(alloc, page(1), &translated(6))?;
    assert_eq!(rt; table.olds(), 1);
    table.drop_page(page(0));
    assert_eq!(rt; table.find(6).next(), Some((page(1), translated(6))));
    assert_eq!(rt; table.find(1).next(), None);
    assert!(rt; table.has(6));
    assert!(rt; !table.has(1));
    assert_eq!(rt; table.olds(), 1);
    table.drop_page(page(1));
    assert_eq!(rt; table.olds(), 0);
    Ok(())
}

// Of the key 1,025, which is in the bucket of the key 1.
const FRAGMENT: Row = Row {
    key: 1_025,
    kind: Kind::Frag,
    old: RowData::Direct([0x05, 0xdc, 0x00, 0x00]),
};

// Three rows in two pages.
fn three_rows(alloc: Global) -> Result<Table, Fail> {
    let mut table = Table::new(alloc)?;
    table.add(alloc, page(7), &translated(1))?;
    table.add(alloc, page(8), &translated(2))?;
    table.add(alloc, page(7), &FRAGMENT)?;
    Ok(table)
}

// What is told of a page's rows is these.
fn rows_are(
    rt: &impl Abort,
    table: &Table,
    alloc: Global,
    number: u32,
    wanted: &[Row],
) -> Result<(), Fail> {
    let found = table.rows_of(alloc, page(number))?;
    let mut found = found.iter();
    for row in wanted {
        assert_eq!(rt; found.next(), Some(row));
    }
    assert_eq!(rt; found.next(), None);
    Ok(())
}

// The rows of a page stand in the order of adding; a page without rows has none.
#[test]
fn rows_of_a_page(rt: HostRuntime) -> Result<(), Fail> {
    let alloc = rt.alloc();
    let table = three_rows(alloc)?;
    let wanted = [translated(1), FRAGMENT];
    rows_are(&rt, &table, alloc, 7, &wanted)?;
    rows_are(&rt, &table, alloc, 6, &[])?;
    rows_are(&rt, &table, alloc, 9, &[])?;
    Ok(())
}

// Another key of the bucket is passed over.
#[test]
fn keys_of_a_bucket(rt: HostRuntime) -> Result<(), Fail> {
    let table = three_rows(rt.alloc())?;
    let mut found = table.find(1_025);
    assert_eq!(rt; found.next(), Some((page(7), FRAGMENT)));
    assert_eq!(rt; found.next(), None);
    Ok(())
}

const KEYS: u32 = 500;

const PAGES: u32 = 40;

const ROWS: u32 = 20_000;

// Row number i of a long list: 500 keys in 250 buckets, 100 old signatures, and each key once in each of 40 pages.
fn numbered(i: u32) -> (PageNo, Row) {
    let k = i % KEYS;
    let kind = if i % 3 == 0 { Kind::Ipip } else { Kind::Icmp };
    let old = if i % 7 == 0 {
        RowData::Direct([1, (i % 200) as u8, 3, 4])
    } else {
        RowData::Indirect(Sig {
            bytes: [(i % 100) as u8; 28],
        })
    };
    let key = u64::from(k % 250 + 1_024 * (k / 250));
    (
        page((i / KEYS % PAGES + i % PAGES) % PAGES),
        Row { key, kind, old },
    )
}

// Adds the first rows of the list.
fn filled(alloc: Global, rows: u32) -> Result<Table, Fail> {
    let mut table = Table::new(alloc)?;
    for i in 0..rows {
        let (page, row) = numbered(i);
        table.add(alloc, page, &row)?;
    }
    Ok(table)
}

// Each key of the list, against the list without the pages up to one.
fn same_as_list(rt: &impl Abort, table: &Table, dropped: u32) {
    for k in 0..KEYS {
        let mut found = table.find(numbered(k).1.key);
        for j in 0..PAGES {
            let pair = numbered(k + KEYS * j);
            if pair.0.number > dropped {
                assert_eq!(rt; found.next(), Some(pair));
            }
        }
        assert_eq!(rt; found.next(), None);
    }
}

// 20,000 rows in 40 pages, dropped in rising order: what is found of each key is that of a list.
#[test]
fn many_rows(rt: HostRuntime) -> Result<(), Fail> {
    let mut table = filled(rt.alloc(), ROWS)?;
    assert_eq!(rt; table.olds(), 100);
    for number in 0..PAGES {
        table.drop_page(page(number));
        same_as_list(&rt, &table, number);
    }
    assert_eq!(rt; table.olds(), 0);
    Ok(())
}

// The rows of a page are those of the first rows of the list.
fn same_page(
    rt: &impl Abort,
    table: &Table,
    alloc: Global,
    number: u32,
    rows: u32,
) -> Result<(), Fail> {
    let found = table.rows_of(alloc, page(number))?;
    let mut found = found.iter();
    for i in 0..rows {
        let (page, row) = numbered(i);
        if page.number == number {
            assert_eq!(rt; found.next(), Some(&row));
        }
    }
    assert_eq!(rt; found.next(), None);
    Ok(())
}

// Where memory is refused, nothing has changed, and the row can be added later.
#[test]
fn refused_memory(rt: HostRuntime) -> Result<(), Fail> {
    let alloc = rt.alloc();
    let mut table = Table::new(alloc)?;
    for i in 0..200 {
        let (at, row) = numbered(i);
        let olds = table.olds();
        if table.add(alloc, at, &row).is_err() {
            assert_eq!(rt; table.olds(), olds);
            same_page(&rt, &table, alloc, at.number, i)?;
            table.add(alloc, at, &row)?;
        }
    }
    for number in 0..PAGES {
        same_page(&rt, &table, alloc, number, 200)?;
    }
    Ok(())
}
