//! Pairs and errors of `pws_auth`.

use pws_auth::pairs::Pair;
use pws_auth::tables::KeysError;
use pws_base::memory::Memory;
use pws_base::shapes::ReplicaId;
use std::test::Fail;

#[test]
fn a_pair_is_the_same_in_both_orders(rt: HostRuntime) -> Result<(), Fail> {
    let lesser = ReplicaId { group: 1, index: 2 };
    let greater = ReplicaId { group: 2, index: 0 };
    assert_eq!(rt; Pair::of(lesser, greater), Pair { lesser, greater });
    assert_eq!(rt; Pair::of(greater, lesser), Pair { lesser, greater });
    Ok(())
}

#[test]
fn want_of_memory_is_told(rt: HostRuntime) -> Result<(), Fail> {
    assert_eq!(rt; KeysError::from(Memory), KeysError::Memory);
    Ok(())
}
