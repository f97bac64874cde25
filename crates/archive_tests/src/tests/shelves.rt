use page_shelf::{
    Bend, BentShelf, FolderShelf, MemShelf, Shelf, ShelfName, ShelfPart, ShelfRefused,
};
use spie_base::{PageNo, RouterId};
use std::fs;
use std::test::Fail;

const FOLDER: &str = "shelf_folder_of_a_test";

fn name(router: u32, page: u32, part: ShelfPart) -> ShelfName {
    ShelfName {
        router: RouterId { number: router },
        page: PageNo { number: page },
        part,
    }
}

// How many bytes are asked for of three, and how many come.
const LENGTHS: [(usize, usize); 5] = [(3, 3), (2, 3), (1, 2), (0, 1), (usize::MAX, 3)];

// Files of a folder: what was put is got, a longer one as one byte more than asked for, and nothing is left behind.
#[test]
fn folder(rt: HostRuntime) -> Result<(), Fail> {
    let alloc = rt.alloc();
    let _ = fs::remove_dir_all(&rt, FOLDER);
    let bits = name(42, 7, ShelfPart::Bits);
    let rows = name(42, 7, ShelfPart::Rows);
    let mut shelf = FolderShelf::new(alloc, &rt, FOLDER)?;
    // The folder isn't there.
    assert_eq!(rt;
        shelf.put(alloc, &bits, &[1, 2, 3]),
        Err(ShelfRefused::Failed)
    );
    assert!(rt; matches!(shelf.get(alloc, &bits, 3), Ok(None)));
    assert_eq!(rt; shelf.discard(alloc, &bits), Ok(()));
    fs::create_dir(&rt, FOLDER)?;
    assert_eq!(rt; shelf.put(alloc, &bits, &[9; 20000]), Ok(()));
    assert_eq!(rt; shelf.put(alloc, &bits, &[1, 2, 3]), Ok(()));
    assert_eq!(rt; shelf.put(alloc, &rows, &[]), Ok(()));
    assert_eq!(rt;
        fs::read(&rt, "shelf_folder_of_a_test/0000002a-00000007.bits")?.as_slice(),
        [1, 2, 3].as_slice()
    );
    for (most, count) in LENGTHS {
        match shelf.get(alloc, &bits, most) {
            Ok(Some(got)) => assert_eq!(rt;
                got.as_slice(),
                &[1, 2, 3][..count.min(3)],
                "most {most}"
            ),
            _ => assert!(rt; false, "most {most}"),
        }
    }
    match shelf.get(alloc, &rows, 5) {
        Ok(Some(got)) => assert!(rt; got.is_empty()),
        _ => assert!(rt; false),
    }
    assert_eq!(rt; shelf.discard(alloc, &bits), Ok(()));
    assert_eq!(rt; shelf.discard(alloc, &bits), Ok(()));
    assert!(rt; matches!(shelf.get(alloc, &bits, 3), Ok(None)));
    assert_eq!(rt; shelf.discard(alloc, &rows), Ok(()));
    // No other file stands there, or the folder could not be removed.
    fs::remove_dir(&rt, FOLDER)?;
    Ok(())
}

// A file that others cut short or replaced is got as it stands, and a folder that is a file can't be written.
#[test]
fn files_changed_by_others(rt: HostRuntime) -> Result<(), Fail> {
    let alloc = rt.alloc();
    let _ = fs::remove_dir_all(&rt, "shelf_of_changed_files");
    fs::create_dir(&rt, "shelf_of_changed_files")?;
    let bits = name(0, 1, ShelfPart::Bits);
    let mut shelf = FolderShelf::new(alloc, &rt, "shelf_of_changed_files")?;
    assert_eq!(rt; shelf.put(alloc, &bits, &[1, 2, 3]), Ok(()));
    fs::write(
        &rt,
        "shelf_of_changed_files/00000000-00000001.bits",
        b"\x01\x02",
    )?;
    match shelf.get(alloc, &bits, 3) {
        Ok(Some(got)) => assert_eq!(rt; got.as_slice(), [1, 2].as_slice()),
        _ => assert!(rt; false),
    }
    fs::write(
        &rt,
        "shelf_of_changed_files/00000000-00000001.bits",
        b"\x04\x05\x06",
    )?;
    match shelf.get(alloc, &bits, 3) {
        Ok(Some(got)) => assert_eq!(rt; got.as_slice(), [4, 5, 6].as_slice()),
        _ => assert!(rt; false),
    }
    let mut file = FolderShelf::new(alloc, &rt, "shelf_of_changed_files/00000000-00000001.bits")?;
    assert_eq!(rt; file.put(alloc, &bits, &[7]), Err(ShelfRefused::Failed));
    fs::remove_dir_all(&rt, "shelf_of_changed_files")?;
    Ok(())
}

// A folder of a record's name is no file.
#[test]
fn a_folder_in_the_place_of_a_file(rt: HostRuntime) -> Result<(), Fail> {
    let alloc = rt.alloc();
    let _ = fs::remove_dir_all(&rt, "shelf_of_folders");
    fs::create_dir(&rt, "shelf_of_folders")?;
    fs::create_dir(&rt, "shelf_of_folders/00000000-00000001.rows")?;
    let rows = name(0, 1, ShelfPart::Rows);
    let mut shelf = FolderShelf::new(alloc, &rt, "shelf_of_folders")?;
    assert_eq!(rt; shelf.put(alloc, &rows, &[1]), Err(ShelfRefused::Failed));
    assert!(rt; matches!(shelf.get(alloc, &rows, 1), Err(ShelfRefused::Failed)));
    assert_eq!(rt; shelf.discard(alloc, &rows), Err(ShelfRefused::Failed));
    fs::remove_dir_all(&rt, "shelf_of_folders")?;
    Ok(())
}

const WHOLE: &[u8] = &[1, 2, 3];

// How a get is bent, and what of `WHOLE` comes of it.
const BENT: [(Bend, Option<&[u8]>); 3] = [
    (Bend::Flip, Some(&[1, 2, 2])),
    (Bend::Cut, Some(&[1, 2])),
    (Bend::Gone, None),
];

// The get of one number is bent, gets counted from 0.
#[test]
fn bends(rt: HostRuntime) -> Result<(), Fail> {
    let alloc = rt.alloc();
    let bits = name(0, 0, ShelfPart::Bits);
    for (bend, expected) in BENT {
        let mut shelf = BentShelf::bending(MemShelf::new(alloc, &[])?, 1, bend);
        assert_eq!(rt; shelf.put(alloc, &bits, WHOLE), Ok(()));
        for number in 0..3 {
            let wanted = if number == 1 { expected } else { Some(WHOLE) };
            match shelf.get(alloc, &bits, 3) {
                Ok(Some(got)) => assert_eq!(rt; Some(got.as_slice()), wanted),
                Ok(None) => assert!(rt; wanted.is_none()),
                Err(_) => assert!(rt; false),
            }
        }
    }
    Ok(())
}

// Calls 1 and 3 fail and change nothing.
#[test]
fn shelf_in_memory(rt: HostRuntime) -> Result<(), Fail> {
    let alloc = rt.alloc();
    let bits = name(0, 0, ShelfPart::Bits);
    let rows = name(0, 0, ShelfPart::Rows);
    let mut shelf = MemShelf::new(alloc, &[1, 3])?;
    assert_eq!(rt; shelf.put(alloc, &bits, &[1, 2, 3]), Ok(()));
    assert_eq!(rt; shelf.put(alloc, &bits, &[4]), Err(ShelfRefused::Failed));
    assert!(rt; matches!(shelf.get(alloc, &rows, 3), Ok(None)));
    assert_eq!(rt; shelf.discard(alloc, &bits), Err(ShelfRefused::Failed));
    match shelf.get(alloc, &bits, 1) {
        Ok(Some(got)) => assert_eq!(rt; got.as_slice(), [1, 2].as_slice()),
        _ => assert!(rt; false),
    }
    assert_eq!(rt; shelf.discard(alloc, &bits), Ok(()));
    assert!(rt; matches!(shelf.get(alloc, &bits, 1), Ok(None)));
    Ok(())
}
