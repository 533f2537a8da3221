use super::*;
use pc_base::{Name, Uids};
use pc_message::{Letters, is_on, with_flag};
use std::test::Fail;

#[test]
fn flags_are_bits(rt: HostRuntime) {
    assert!(rt; is_on(0b1000_0000_0000_0010, 1));
    assert!(rt; is_on(0b1000_0000_0000_0010, 15));
    assert!(rt; !is_on(0b1000_0000_0000_0010, 0));
    assert_eq!(rt; with_flag(0b0010, 0, true), 0b0011);
    assert_eq!(rt; with_flag(0b0010, 1, true), 0b0010);
    assert_eq!(rt; with_flag(0b1000_0000_0000_0011, 15, false), 0b0011);
    assert_eq!(rt; with_flag(0b0011, 2, false), 0b0011);
}

#[test]
fn entries_have_tags_and_words(rt: HostRuntime) -> Result<(), Fail> {
    let inbox = Name::read(b"inbox").ok_or("a name")?;
    let made = Entry::MakeMailbox { mailbox: inbox };
    assert_eq!(rt; made.tag(), 1);
    assert_eq!(rt; made.word(), b"MakeMailbox".as_slice());
    let forgotten = Entry::Forget {
        client: inbox,
        mailbox: inbox,
        uids: Uids::new(rt.alloc()),
    };
    assert_eq!(rt; forgotten.tag(), 10);
    assert_eq!(rt; forgotten.word(), b"Forget".as_slice());
    let pulled = Entry::Pull {
        upto: 1,
        letters: Letters::new(rt.alloc()),
    };
    assert_eq!(rt; pulled.tag(), 11);
    assert_eq!(rt; pulled.word(), b"Pull".as_slice());
    Ok(())
}
