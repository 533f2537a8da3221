use super::*;
use pc_base::{Name, Names};
use pc_message::Changes;
use std::test::Fail;

#[test]
fn entries_have_tags(rt: HostRuntime) -> Result<(), Fail> {
    let inbox = Name::read(b"inbox").ok_or("a name")?;
    let took = CacheEntry::Took {
        mailbox: inbox,
        changes: Changes::new(rt.alloc()),
    };
    let kept = CacheEntry::Kept {
        names: Names::new(rt.alloc()),
    };
    let queue = CacheEntry::Queue {
        mailbox: inbox,
        uid: 7,
        flag: 3,
        on: true,
    };
    assert_eq!(rt; CacheEntry::Begin { birth: 9 }.tag(), 1);
    assert_eq!(rt; CacheEntry::Synced.tag(), 2);
    assert_eq!(rt; took.tag(), 3);
    assert_eq!(rt; kept.tag(), 4);
    assert_eq!(rt; queue.tag(), 5);
    assert_eq!(rt; CacheEntry::Answered { number: 1 }.tag(), 6);
    Ok(())
}

#[test]
fn change_is_laid_over_its_message(rt: HostRuntime) -> Result<(), Fail> {
    let inbox = Name::read(b"inbox").ok_or("a name")?;
    let work = Name::read(b"work").ok_or("a name")?;
    let item = Item {
        number: 1,
        mailbox: inbox,
        uid: 7,
        flag: 3,
        on: true,
    };
    assert_eq!(rt; item.laid_over(&inbox, 7, 1), 9);
    assert_eq!(rt; item.laid_over(&inbox, 8, 1), 1);
    assert_eq!(rt; item.laid_over(&work, 7, 1), 1);
    Ok(())
}
