//! The messages of a mailbox, by rising uid.

ghost use Rattle.std.specs.Prelude.{◌≡◌, ◌*◌, ◌≤◌, ◌<◌, not, map, length, take, drop, option_copied, [], ◌∷◌, ◌++◌, OnOk, IfOk};
ghost use Rattle.std.specs.List.{list_any, filter};
ghost use Rattle.pc_account_history.specs.declared.kept.Kept.{Kept};
ghost use Rattle.pc_account_history.specs.Record.{kept_at};
ghost use Rattle.pc_account_history.specs.Step.{uids_of};
ghost use Rattle.pc_mailbox.specs.Mailbox.{weight_of_all, is_deleted, deleted, described, is_between, is_below, UidsRise, with_flag_at, remaining};

use pc_account_history::{Kept, MOST_MESSAGES};
use pc_base::Memory;
use pc_message::{Change, Changes, describe, is_on, with_flag};
use std::alloc::Global;

/// How many messages have a uid below the bound. They stand in front, since uids rise.
fn count_below(messages: &[Kept], bound: u64) -> usize
    requires { UidsRise messages.now }
    ensures within { result ≤ length messages.now }
    ensures front { take result messages.now ≡ filter (is_below bound) messages.now }
    ensures back { drop result messages.now ≡ filter (λ (kept : Kept). not (is_below bound kept)) messages.now }
{
    messages.partition_point(|kept| (kept.uid as u64) < bound)
}

/// The message with this uid, if it lives. Uids rise.
pub fn find(messages: &[Kept], uid: u32) -> Option<&Kept>
    requires { UidsRise messages.now }
    ensures { option_copied result ≡ kept_at uid messages.now }
{
    let count = count_below(messages, uid as u64);
    let kept = messages[count..].first()?;
    if kept.uid == uid { Some(kept) } else { None }
}

/// The messages from one uid to another, which stand together, since uids rise.
fn between(messages: &[Kept], low: u32, high: u32) -> &[Kept]
    requires { UidsRise messages.now }
    ensures { result.now ≡ filter (is_between low high) messages.now }
{
    let end = count_below(messages, high as u64 + 1);
    let upto = &messages[..end];
    let start = count_below(upto, low as u64);
    &upto[start..]
}

/// The uids of the messages, in order.
pub fn uids_of_all(alloc: Global, messages: &[Kept]) -> Result<Vec<u32>, Memory>
    ensures { IfOk result (λ uids. uids.items ≡ uids_of messages.now) }
{
    Ok(messages.iter().map(|kept| kept.uid).collect(alloc)?)
}

/// The uids of the messages whose flag 0 is on, in order.
pub fn uids_of_deleted(alloc: Global, messages: &[Kept]) -> Result<Vec<u32>, Memory>
    ensures { IfOk result (λ uids. uids.items ≡ uids_of (deleted messages.now)) }
{
    let gone = messages.iter().filter(|kept| is_on(kept.flags, 0));
    Ok(gone.map(|kept| kept.uid).collect(alloc)?)
}

/// Whether flag 0 of a message is on.
pub fn any_deleted(messages: &[Kept]) -> bool
    ensures { result ≡ list_any is_deleted messages.now }
{
    messages.iter().any(|kept| is_on(kept.flags, 0))
}

/// What the messages count for.
pub fn weight_of(messages: &[Kept]) -> u32
    requires { length messages.now ≤ MOST_MESSAGES }
    ensures weight { result ≡ weight_of_all messages.now }
    ensures bound { result ≤ 65792 * length messages.now }
{
    let mut weight = 0;
    for kept in messages {
        weight += kept.message.weight();
    }
    weight
}

/// The descriptors of the messages from one uid to another. Uids rise.
pub fn describe_all(
    alloc: Global,
    messages: &[Kept],
    low: u32,
    high: u32,
) -> Result<Changes, Memory>
    requires { UidsRise messages.now }
    ensures { IfOk result (λ changes. changes ≡ described low high messages.now) }
{
    let mut changes = Changes::new(alloc);
    let told = between(messages, low, high);
    for kept in told {
        let descriptor = describe(alloc, &kept.message, kept.uid, kept.flags)?;
        changes.push(Change::Present(descriptor))?;
    }
    Ok(changes)
}

/// Sets a flag of the message with this uid, if it lives. Uids rise.
pub fn set_flag(messages: &mut [Kept], uid: u32, flag: u8, on: bool)
    requires flag { flag < 16 }
    requires rise { UidsRise messages.old }
    ensures { messages.new ≡ map (with_flag_at uid flag on) messages.old }
{
    let place = count_below(messages, uid as u64);
    if place < messages.len() {
        set_flag_of(&mut messages[place], uid, flag, on);
    }
}

fn set_flag_of(kept: &mut Kept, uid: u32, flag: u8, on: bool)
    requires { flag < 16 }
    ensures { kept.new ≡ with_flag_at uid flag on kept.old }
{
    if kept.uid == uid {
        kept.flags = with_flag(kept.flags, flag, on);
    }
}

/// Takes away the messages whose flag 0 is on.
pub fn drop_deleted(messages: &mut Vec<Kept>)
    ensures { messages.new.items ≡ remaining messages.old.items }
{
    messages.retain(|kept| !is_on(kept.flags, 0));
}
