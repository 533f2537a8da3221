use super::*;
use pc_base::{Lines, Name, Names};
use pc_message::Message;
use std::test::Fail;

#[test]
fn entries_have_tags(rt: HostRuntime) -> Result<(), Fail> {
    let ann = Name::read(b"ann").ok_or("a name")?;
    let news = Name::read(b"news").ok_or("a name")?;
    let Ok(message) = Message::of(Lines::new(rt.alloc())) else {
        return Err("a message".into());
    };
    let accepted = OfficeEntry::Accept {
        names: Names::new(rt.alloc()),
        message,
    };
    let taken = OfficeEntry::TakeAddress {
        address: news,
        user: ann,
        mailbox: ann,
    };
    assert_eq!(rt; OfficeEntry::AddUser { user: ann }.tag(), 1);
    assert_eq!(rt; OfficeEntry::AddBoard { board: news }.tag(), 2);
    assert_eq!(rt; taken.tag(), 3);
    assert_eq!(rt; OfficeEntry::DropAddress { address: news }.tag(), 4);
    assert_eq!(rt; accepted.tag(), 5);
    assert_eq!(rt;
        OfficeEntry::Pulled {
            user: ann,
            number: 1
        }
        .tag(),
        6
    );
    Ok(())
}

#[test]
fn targets_keep_their_order(rt: HostRuntime) -> Result<(), Fail> {
    let ann = Name::read(b"ann").ok_or("a name")?;
    let bob = Name::read(b"bob").ok_or("a name")?;
    let mut targets = Targets::new(rt.alloc());
    targets.push(Target {
        user: ann,
        mailbox: bob,
    })?;
    targets.push(Target {
        user: bob,
        mailbox: bob,
    })?;
    assert_eq!(rt; targets.as_slice().len(), 2);
    assert_eq!(rt; targets.as_slice()[0].user.bytes(), b"ann".as_slice());
    assert_eq!(rt; targets.as_slice()[1].user.bytes(), b"bob".as_slice());
    Ok(())
}

#[test]
fn pulled_mail_is_noted(rt: HostRuntime) -> Result<(), Fail> {
    let ann = Name::read(b"ann").ok_or("a name")?;
    let bob = Name::read(b"bob").ok_or("a name")?;
    let Ok(message) = Message::of(Lines::new(rt.alloc())) else {
        return Err("a message".into());
    };
    let mut targets = Targets::new(rt.alloc());
    targets.push(Target {
        user: ann,
        mailbox: bob,
    })?;
    let mut mail = KeptMail {
        number: 2,
        targets,
        message,
    };
    mail.note(&ann, 1);
    mail.note(&bob, 2);
    let found = mail.targets.of(&ann).ok_or("a target")?;
    assert_eq!(rt; found.mailbox.bytes(), b"bob".as_slice());
    assert!(rt; mail.targets.of(&bob).is_none());
    mail.note(&ann, 2);
    assert!(rt; mail.targets.is_empty());
    Ok(())
}
