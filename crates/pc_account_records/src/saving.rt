//! The record of an account, written. After `Err` nothing is known of what was appended.

ghost use Rattle.std.specs.Prelude.{◌≡◌, ◌+◌, ◌<◌, ◌++◌, length, OnOk};
ghost use Rattle.std.specs.List.{concat, flat_map};
ghost use Rattle.pc_account_history.specs.Legal.{IsCanonical};
ghost use Rattle.pc_fields.specs.FieldBytes.{u16_field, short_list, long_list};
ghost use Rattle.pc_account_spelling.specs.Spelling.{digest_fields, client_fields, kept_fields, listed_fields, update_list_fields, mailbox_fields, subscription_fields, spelled_record};
ghost use Rattle.pc_account_records.specs.Saving.{HaveFewLists};

use indexmap::IndexMap;
use pc_account_history::Kept;
use pc_account_holdings::{Holdings, Mailboxes};
use pc_base::{Bytes, Memory, Name};
use pc_fields::{write_bool, write_message, write_name, write_u16, write_u32, write_u64};
use pc_mailbox::{Mailbox, UpdateList};

/// Appends the record of what is held. After `Err` nothing is known of what was appended.
pub fn save(holdings: &Holdings, out: &mut Bytes) -> Result<(), Memory>
    requires { IsCanonical holdings.now.held holdings.now.next }
    ensures { OnOk result (out.new ≡ out.old ++ spelled_record holdings.now.held) }
{
    write_u64(out, holdings.pulled())?;
    write_digest(out, holdings.digest())?;
    write_clients(out, holdings.clients())?;
    write_count(out, holdings.live().count() + holdings.dropped().count())?;
    write_mailboxes(out, holdings.live(), true)?;
    write_mailboxes(out, holdings.dropped(), false)?;
    write_subscriptions(out, holdings.subscriptions())
}

/// Appends the digest of the password, behind whether there is one.
fn write_digest(out: &mut Bytes, digest: Option<[u8; 32]>) -> Result<(), Memory>
    ensures { OnOk result (out.new ≡ out.old ++ concat (digest_fields digest)) }
{
    match digest {
        None => write_bool(out, false),
        Some(digest) => {
            write_bool(out, true)?;
            out.append(&digest)
        }
    }
}

/// Appends the clients with their births.
fn write_clients(out: &mut Bytes, clients: &IndexMap<Name, u64>) -> Result<(), Memory>
    requires { length clients.now.entries < 65536 }
    ensures { OnOk result (out.new ≡ out.old ++ concat (short_list client_fields clients.now.entries)) }
{
    write_count(out, clients.len())?;
    for (name, birth) in clients.iter() {
        write_client(out, name, *birth)?;
    }
    Ok(())
}

fn write_client(out: &mut Bytes, name: &Name, birth: u64) -> Result<(), Memory>
    ensures { OnOk result (out.new ≡ out.old ++ concat (client_fields (name.now, birth))) }
{
    write_name(out, name)?;
    write_u64(out, birth)
}

/// Appends mailboxes that live, or that don't.
fn write_mailboxes(out: &mut Bytes, mailboxes: &Mailboxes, live: bool) -> Result<(), Memory>
    requires { HaveFewLists mailboxes.now }
    ensures { OnOk result (out.new ≡ out.old ++ concat (flat_map (mailbox_fields live) mailboxes.now)) }
{
    for (name, mailbox) in mailboxes.table().iter() {
        write_mailbox(out, name, mailbox, live)?;
    }
    Ok(())
}

fn write_mailbox(out: &mut Bytes, name: &Name, mailbox: &Mailbox, live: bool) -> Result<(), Memory>
    requires { length mailbox.now.lists < 65536 }
    ensures { OnOk result (out.new ≡ out.old ++ concat (mailbox_fields live (name.now, mailbox.now))) }
{
    write_name(out, name)?;
    write_bool(out, live)?;
    write_u32(out, mailbox.highest())?;
    write_messages(out, mailbox)?;
    write_lists(out, mailbox.lists())
}

/// Appends the messages of a mailbox.
fn write_messages(out: &mut Bytes, mailbox: &Mailbox) -> Result<(), Memory>
    ensures { OnOk result (out.new ≡ out.old ++ concat (long_list kept_fields mailbox.now.messages)) }
{
    write_u32(out, mailbox.count())?;
    write_each_message(out, mailbox.messages())
}

fn write_each_message(out: &mut Bytes, messages: &[Kept]) -> Result<(), Memory>
    ensures { OnOk result (out.new ≡ out.old ++ concat (flat_map kept_fields messages.now)) }
{
    for kept in messages {
        write_kept(out, kept)?;
    }
    Ok(())
}

fn write_kept(out: &mut Bytes, kept: &Kept) -> Result<(), Memory>
    ensures { OnOk result (out.new ≡ out.old ++ concat (kept_fields kept.now)) }
{
    write_u32(out, kept.uid)?;
    write_u16(out, kept.flags)?;
    write_message(out, &kept.message)
}

/// Appends the update lists of a mailbox.
fn write_lists(out: &mut Bytes, lists: &[(Name, UpdateList)]) -> Result<(), Memory>
    requires { length lists.now < 65536 }
    ensures { OnOk result (out.new ≡ out.old ++ concat (short_list update_list_fields lists.now)) }
{
    write_count(out, lists.len())?;
    for entry in lists {
        write_list(out, &entry.0, &entry.1)?;
    }
    Ok(())
}

fn write_list(out: &mut Bytes, client: &Name, list: &UpdateList) -> Result<(), Memory>
    ensures { OnOk result (out.new ≡ out.old ++ concat (update_list_fields (client.now, list.now))) }
{
    write_name(out, client)?;
    write_u32(out, list.count())?;
    write_changes(out, list)
}

/// Appends the changes of an update list.
fn write_changes(out: &mut Bytes, list: &UpdateList) -> Result<(), Memory>
    ensures { OnOk result (out.new ≡ out.old ++ concat (flat_map listed_fields list.now)) }
{
    for (uid, stamp) in list.iter() {
        write_change(out, *uid, *stamp)?;
    }
    Ok(())
}

fn write_change(out: &mut Bytes, uid: u32, stamp: u64) -> Result<(), Memory>
    ensures { OnOk result (out.new ≡ out.old ++ concat (listed_fields (record { uid = uid; stamp = stamp }))) }
{
    write_u32(out, uid)?;
    write_u64(out, stamp)
}

/// Appends the subscriptions with their marks.
fn write_subscriptions(out: &mut Bytes, subscriptions: &IndexMap<Name, u32>) -> Result<(), Memory>
    requires { length subscriptions.now.entries < 65536 }
    ensures { OnOk result (out.new ≡ out.old ++ concat (short_list subscription_fields subscriptions.now.entries)) }
{
    write_count(out, subscriptions.len())?;
    for (board, mark) in subscriptions.iter() {
        write_subscription(out, board, *mark)?;
    }
    Ok(())
}

fn write_subscription(out: &mut Bytes, board: &Name, mark: u32) -> Result<(), Memory>
    ensures { OnOk result (out.new ≡ out.old ++ concat (subscription_fields (board.now, mark))) }
{
    write_name(out, board)?;
    write_u32(out, mark)
}

/// Appends how many items follow.
fn write_count(out: &mut Bytes, count: usize) -> Result<(), Memory>
    requires { count < 65536 }
    ensures { OnOk result (out.new ≡ out.old ++ u16_field count) }
{
    write_u16(out, count as u16)
}
