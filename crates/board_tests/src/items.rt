use crate::same::assert_same;
use item_list::Items;
use std::process::Abort;
use std::test::Fail;

#[test]
fn each_call_of_a_list(rt: HostRuntime) -> Result<(), Fail> {
    let mut items = Items::new(rt.alloc());
    assert_same(&rt, "empty", items.is_empty(), true);
    assert_same(&rt, "pop of none", items.pop(), None);
    for n in [3, 1, 4, 1] {
        items.push(n)?;
    }
    assert_taken(&rt, &mut items);
    let list = items.into_vec();
    assert_same(&rt, "a Vec", list.as_slice(), [1, 5].as_slice());
    assert_same(&rt, "of a Vec", Items::from_vec(list).len(), 2);
    Ok(())
}

/// Takes the first and the last of four items, and puts another in the place of the second that is left.
fn assert_taken(rt: &impl Abort, items: &mut Items<i32>) {
    assert_same(rt, "all", items.as_slice(), [3, 1, 4, 1].as_slice());
    assert!(rt; items.len() == 4);
    assert_same(rt, "remove", items.remove(0), 3);
    assert_same(rt, "pop", items.pop(), Some(1));
    assert!(rt; items.len() == 2);
    items.set(1, 5);
    assert_same(rt, "get", items.get(1), Some(&5));
    assert_same(rt, "get behind the end", items.get(2), None);
}
