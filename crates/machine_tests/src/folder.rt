//! What no clause says: which files a store makes, and what it reads of them.
use std::fs;
use std::test::Fail;
use ts_base::{CommitKind, FragKey, Name, Part, Prefix};
use ts_folder::{FolderStore, PathText};
use ts_store::{Fate, Made, SharedBytes, Store};

/// The folder that the test works in. It is made anew, and taken away at the end.
const FOLDER: &str = "ts_folder_test";

const FIRST: FragKey = FragKey {
    t1: 9,
    t2: 9,
    id: 2,
    v: 1,
};

const LATER: FragKey = FragKey {
    t1: 10,
    t2: 10,
    id: 1,
    v: 1,
};

#[test]
fn objects_are_files_that_are_put_once(rt: HostRuntime) -> Result<(), Fail> {
    let alloc = rt.alloc();
    let _ = fs::remove_dir_all(&rt, FOLDER);
    fs::create_dir(&rt, FOLDER)?;
    let mut store = FolderStore::at(rt, PathText::new(alloc, "ts_folder_test/store")?);
    let name = Name::Commit(FIRST, CommitKind::Del);
    let later = Name::Commit(LATER, CommitKind::Wrt);
    assert!(rt; store.list(alloc, Prefix::Commits)?.is_empty());
    assert!(rt; store.get(alloc, name, 0, 9)?.is_none());
    assert!(rt; store.put(alloc, later, &SharedBytes::new())? == Made::New);
    assert!(rt; store.put(alloc, name, &SharedBytes::of_bytes(alloc, b"whole")?)? == Made::New);
    assert!(rt; store.put(alloc, name, &SharedBytes::of_bytes(alloc, b"other")?)? == Made::Taken);
    assert!(rt;
        store.put(
            alloc,
            Name::Part(FIRST, Part::Plain),
            &SharedBytes::of_bytes(alloc, b"part")?
        )? == Made::New
    );

    // The file of an object is all that a put leaves; what is none is passed over.
    let file = "ts_folder_test/store/__commits/__9_9_00000000000000000000000000000002_1.del";
    assert!(rt; fs::read(&rt, file)?.as_slice() == b"whole".as_slice());
    assert_eq!(rt;
        fs::read_dir(&rt, "ts_folder_test/store/__commits")?.count(),
        2
    );
    fs::write(
        &rt,
        "ts_folder_test/store/__commits/notes.txt",
        b"foreign".as_slice(),
    )?;
    let names = store.list(alloc, Prefix::Commits)?;
    assert!(rt; names.as_slice() == [name, later].as_slice());

    let ranges: [(u64, u64, &str); 5] = [
        (0, 9, "whole"),
        (1, 3, "hol"),
        (4, u64::MAX, "e"),
        (5, 1, ""),
        (u64::MAX, 1, ""),
    ];
    for (from, len, want) in ranges {
        let got = store.get(alloc, name, from, len)?;
        assert!(rt;
            got.is_some_and(|bytes| bytes.as_slice() == want.as_bytes()),
            "at {from}"
        );
    }
    assert!(rt; store.size(alloc, name)? == Some(5));
    store.remove(alloc, name)?;
    store.remove(alloc, name)?;
    assert!(rt; store.size(alloc, name)?.is_none());
    assert!(rt; store.fate() == Fate::Done && store.faults() == 0);

    // Where a file stands in the folder's place, every call fails.
    let mut broken = FolderStore::at(rt, PathText::new(alloc, file)?);
    fs::write(&rt, file, b"".as_slice())?;
    assert!(rt;
        broken
            .put(alloc, name, &SharedBytes::of_bytes(alloc, b"whole")?)
            .is_err()
    );
    assert!(rt; broken.list(alloc, Prefix::Commits).is_err());
    assert!(rt; broken.fate() == Fate::Unknown && broken.faults() == 2);
    fs::remove_dir_all(&rt, FOLDER)?;
    Ok(())
}
