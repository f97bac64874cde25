use indirect_store::Store;
use spie_base::Sig;
use std::test::Fail;

const A: Sig = Sig { bytes: [1; 28] };

const B: Sig = Sig { bytes: [2; 28] };

// The id stays the same as long as the signature is held; the last release gives it up.
#[test]
fn held_as_long_as_used(rt: HostRuntime) -> Result<(), Fail> {
    let alloc = rt.alloc();
    let mut store = Store::new(alloc)?;
    assert_eq!(rt; store.len(), 0);
    let first = store.put(alloc, &A)?;
    assert_eq!(rt; *store.get(first), A);
    let again = store.put(alloc, &A)?;
    assert_eq!(rt; again, first);
    assert_eq!(rt; store.len(), 1);
    store.release(again);
    assert_eq!(rt; store.len(), 1);
    let third = store.put(alloc, &A)?;
    assert_eq!(rt; third, first);
    let other = store.put(alloc, &B)?;
    assert_ne!(rt; other, first);
    assert_eq!(rt; *store.get(other), B);
    assert_eq!(rt; store.len(), 2);
    store.release(other);
    assert_eq!(rt; store.len(), 1);
    let other = store.put(alloc, &B)?;
    assert_eq!(rt; *store.get(other), B);
    assert_eq!(rt; store.len(), 2);
    Ok(())
}
