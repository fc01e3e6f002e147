//! The names of temporary files.
use crate::temp_name::temp_name;
use std::test::Fail;
use uuid::Uuid;

#[test]
fn names_of_a_fixed_id(rt: HostRuntime) -> Result<(), Fail> {
    let id = Uuid::from_bytes([
        0x67, 0xe5, 0x50, 0x44, 0x10, 0xb1, 0x42, 0x6f, 0x92, 0x47, 0xbb, 0x68, 0x0e, 0x5f, 0xe0,
        0xc8,
    ]);
    let name = temp_name(rt.alloc(), &id)?;
    assert_eq!(rt;
        name.as_str(),
        ".ig-tmp/67e55044-10b1-426f-9247-bb680e5fe0c8"
    );
    Ok(())
}
