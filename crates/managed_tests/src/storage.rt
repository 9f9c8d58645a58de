//! What is owned, and what is borrowed.
use managed::{Managed, ManagedSlice};
use std::test::Fail;

#[test]
fn storage_is_owned_or_borrowed(rt: HostRuntime) -> Result<(), Fail> {
    let list = ManagedSlice::from_array(rt.alloc(), [1u8, 2, 3])
        .ok()
        .ok_or("no memory")?;
    assert!(rt;
        list.as_slice() == [1, 2, 3].as_slice()
            && format!(in rt.alloc(); "{list:?}")?.as_str() == "Owned([1, 2, 3])"
    );
    let mut number = 7u8;
    let mut value = Managed::from(&mut number);
    *value += 1;
    assert!(rt; format!(in rt.alloc(); "{value:?}")?.as_str() == "Borrowed(8)");
    Ok(())
}
