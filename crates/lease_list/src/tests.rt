use crate::LeaseList;

/// No memory was left.
#[derive(Debug, Drop)]
struct NoMemory;

fn full<T: Drop>(_value: T) -> NoMemory {
    NoMemory
}

#[test]
fn unlinks_the_middle(rt: HostRuntime) -> Result<(), NoMemory> {
    let mut list = LeaseList::new(rt.alloc());
    let _first = list.push_back(1u64).map_err(full)?;
    let second = list.push_back(2).map_err(full)?;
    let _third = list.push_back(3).map_err(full)?;
    assert!(rt; *list.value(&second) == 2);
    assert!(rt; list.unlink(second) == 2);
    assert!(rt; list.pop_front() == Some(1));
    assert!(rt; list.pop_front() == Some(3));
    assert!(rt; list.pop_front() == None);
    Ok(())
}

#[test]
fn unlinks_the_first(rt: HostRuntime) -> Result<(), NoMemory> {
    let mut list = LeaseList::new(rt.alloc());
    let first = list.push_back(1u64).map_err(full)?;
    let _second = list.push_back(2).map_err(full)?;
    assert!(rt; list.unlink(first) == 1);
    assert!(rt; !list.is_empty());
    assert!(rt; list.pop_front() == Some(2));
    assert!(rt; list.is_empty());
    Ok(())
}

#[test]
fn unlinks_the_last(rt: HostRuntime) -> Result<(), NoMemory> {
    let mut list = LeaseList::new(rt.alloc());
    let _first = list.push_back(1u64).map_err(full)?;
    let second = list.push_back(2).map_err(full)?;
    assert!(rt; list.unlink(second) == 2);
    let _third = list.push_back(3).map_err(full)?;
    assert!(rt; list.pop_front() == Some(1));
    assert!(rt; list.pop_front() == Some(3));
    assert!(rt; list.pop_front() == None);
    Ok(())
}

#[test]
fn drops_a_million(rt: HostRuntime) -> Result<(), NoMemory> {
    let mut list = LeaseList::new(rt.alloc());
    for n in 0u64..1_000_000 {
        let _node = list.push_back(n).map_err(full)?;
    }
    drop(list);
    Ok(())
}
