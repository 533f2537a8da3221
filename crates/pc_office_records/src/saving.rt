//! The record of the office, written. After `Err` nothing is known of what was appended.

ghost use Rattle.std.specs.Prelude.{◌≡◌, ◌<◌, ◌++◌, map, length, OnOk};
ghost use Rattle.std.specs.List.{concat, flat_map};
ghost use Rattle.pc_fields.specs.FieldBytes.{u16_field, short_list, long_list, message_fields};
ghost use Rattle.pc_office_history.specs.declared.kept.KeptMail.{KeptMail};
ghost use Rattle.pc_office_history.specs.Legal.{IsCanonical};
ghost use Rattle.pc_office_spelling.specs.RecordSpelling.{user_fields, target_fields, address_fields, board_fields, kept_fields, spelled_record};
ghost use Rattle.pc_office_holdings.specs.Held.{noted_of, record_in};
ghost use Rattle.pc_office_records.specs.Saving.{HaveFewMessages, HaveFewTargets};

use indexmap::IndexMap;
use pc_base::{Bytes, Memory, Name};
use pc_fields::{write_message, write_name, write_u16, write_u32, write_u64};
use pc_message::Message;
use pc_office_history::{KeptMail, Target};
use pc_office_holdings::{Boards, Holdings, Messages, Users};

/// Appends the record of what is held. After `Err` nothing is known of what was appended.
pub fn save(holdings: &Holdings, out: &mut Bytes) -> Result<(), Memory>
    requires { IsCanonical (record_in holdings.now) }
    ensures { OnOk result (out.new ≡ out.old ++ spelled_record (record_in holdings.now)) }
{
    write_users(out, holdings.users())?;
    write_addresses(out, holdings.addresses())?;
    write_boards(out, holdings.boards())?;
    write_u64(out, holdings.accepted())?;
    write_kept_list(out, holdings.kept())
}

/// Appends the users with what is noted of them.
fn write_users(out: &mut Bytes, users: &Users) -> Result<(), Memory>
    requires { length users.now < 65536 }
    ensures { OnOk result (out.new ≡ out.old ++ concat (short_list user_fields (map noted_of users.now))) }
{
    write_count(out, users.count())?;
    write_each_user(out, users)
}

fn write_each_user(out: &mut Bytes, users: &Users) -> Result<(), Memory>
    ensures { OnOk result (out.new ≡ out.old ++ concat (flat_map user_fields (map noted_of users.now))) }
{
    for (name, standing) in users.table().iter() {
        write_user(out, name, standing.noted)?;
    }
    Ok(())
}

fn write_user(out: &mut Bytes, name: &Name, noted: u64) -> Result<(), Memory>
    ensures { OnOk result (out.new ≡ out.old ++ concat (user_fields (name.now, noted))) }
{
    write_name(out, name)?;
    write_u64(out, noted)
}

/// Appends the addresses with whom they are for.
fn write_addresses(out: &mut Bytes, addresses: &IndexMap<Name, Target>) -> Result<(), Memory>
    requires { length addresses.now.entries < 65536 }
    ensures { OnOk result (out.new ≡ out.old ++ concat (short_list address_fields addresses.now.entries)) }
{
    write_count(out, addresses.len())?;
    for (name, target) in addresses.iter() {
        write_address(out, name, target)?;
    }
    Ok(())
}

fn write_address(out: &mut Bytes, name: &Name, target: &Target) -> Result<(), Memory>
    ensures { OnOk result (out.new ≡ out.old ++ concat (address_fields (name.now, target.now))) }
{
    write_name(out, name)?;
    write_target(out, target)
}

fn write_target(out: &mut Bytes, target: &Target) -> Result<(), Memory>
    ensures { OnOk result (out.new ≡ out.old ++ concat (target_fields target.now)) }
{
    write_name(out, &target.user)?;
    write_name(out, &target.mailbox)
}

/// Appends the boards with their messages.
fn write_boards(out: &mut Bytes, boards: &Boards) -> Result<(), Memory>
    requires few { length boards.now < 65536 }
    requires short { HaveFewMessages boards.now }
    ensures { OnOk result (out.new ≡ out.old ++ concat (short_list board_fields boards.now)) }
{
    write_count(out, boards.count())?;
    write_each_board(out, boards)
}

fn write_each_board(out: &mut Bytes, boards: &Boards) -> Result<(), Memory>
    requires { HaveFewMessages boards.now }
    ensures { OnOk result (out.new ≡ out.old ++ concat (flat_map board_fields boards.now)) }
{
    for (name, messages) in boards.table().iter() {
        write_board(out, name, messages)?;
    }
    Ok(())
}

fn write_board(out: &mut Bytes, name: &Name, messages: &Messages) -> Result<(), Memory>
    requires { length messages.now < 4294967296 }
    ensures { OnOk result (out.new ≡ out.old ++ concat (board_fields (name.now, messages.now))) }
{
    write_name(out, name)?;
    write_messages(out, messages.as_slice())
}

/// Appends the messages of a board.
fn write_messages(out: &mut Bytes, messages: &[Message]) -> Result<(), Memory>
    requires { length messages.now < 4294967296 }
    ensures { OnOk result (out.new ≡ out.old ++ concat (long_list message_fields messages.now)) }
{
    write_u32(out, messages.len() as u32)?;
    for message in messages {
        write_message(out, message)?;
    }
    Ok(())
}

/// Appends the mails that wait.
fn write_kept_list(out: &mut Bytes, kept: &[KeptMail]) -> Result<(), Memory>
    requires few { length kept.now < 4294967296 }
    requires short { HaveFewTargets kept.now }
    ensures { OnOk result (out.new ≡ out.old ++ concat (long_list kept_fields kept.now)) }
{
    write_u32(out, kept.len() as u32)?;
    write_each_kept(out, kept)
}

fn write_each_kept(out: &mut Bytes, kept: &[KeptMail]) -> Result<(), Memory>
    requires { HaveFewTargets kept.now }
    ensures { OnOk result (out.new ≡ out.old ++ concat (flat_map kept_fields kept.now)) }
{
    for mail in kept {
        write_kept(out, mail)?;
    }
    Ok(())
}

fn write_kept(out: &mut Bytes, mail: &KeptMail) -> Result<(), Memory>
    requires { length mail.now.targets < 65536 }
    ensures { OnOk result (out.new ≡ out.old ++ concat (kept_fields mail.now)) }
{
    write_u64(out, mail.number)?;
    write_targets(out, mail.targets.as_slice())?;
    write_message(out, &mail.message)
}

/// Appends those for whom a mail waits.
fn write_targets(out: &mut Bytes, targets: &[Target]) -> Result<(), Memory>
    requires { length targets.now < 65536 }
    ensures { OnOk result (out.new ≡ out.old ++ concat (short_list target_fields targets.now)) }
{
    write_count(out, targets.len())?;
    for target in targets {
        write_target(out, target)?;
    }
    Ok(())
}

/// Appends how many items follow.
fn write_count(out: &mut Bytes, count: usize) -> Result<(), Memory>
    requires { count < 65536 }
    ensures { OnOk result (out.new ≡ out.old ++ u16_field count) }
{
    write_u16(out, count as u16)
}
