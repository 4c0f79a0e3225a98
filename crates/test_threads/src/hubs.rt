//! A hub whose turn is free.
use etp_values::{Id16, List, NoMemory, Shared, Text};
use server_config::Config;
use std::alloc::Global;
use std::test::Fail;
use store_hub::{Hub, Tried};
use store_machine::{Store, StoreCall};

fn store(alloc: Global) -> Result<Store, NoMemory> {
    let config = Config {
        instance: Id16::from_bytes([1; 16]),
        name: Text::copy(alloc, "wd")?,
        lag: 1,
        journal: 2,
        types: None,
        channels: Shared::new(alloc, List::new(alloc))?,
    };
    Store::new(alloc, config)
}

#[test]
fn an_attempt_at_a_free_turn_is_answered(rt: HostRuntime) -> Result<(), Fail> {
    let alloc = rt.alloc();
    let (hub, mut door) = Hub::new(alloc, store(alloc)?)?;
    let mut one = hub.enter(&rt, alloc, &mut door, 1)?;
    let tried = hub.try_ask(alloc, &mut one, 3, StoreCall::Spaces { newer: None })?;
    assert!(rt; matches!(&tried, Tried::Done(answer) if answer.mark == 2));
    hub.meet(&mut door, one);
    assert!(rt; hub.close(&rt, door).entries() == 2);
    Ok(())
}
