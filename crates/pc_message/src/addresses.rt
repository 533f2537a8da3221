//! The recipients of a message.

ghost use Rattle.std.specs.Prelude.{◌≡◌, ℕ, ◌+◌, ◌≤◌, ◌==◌, List, [], ◌∷◌, length, take, drop, OnOk, IfSome, false, not, ◌&&◌, if◌then◌else◌};
ghost use Rattle.std.specs.Option.{option_map};
ghost use Rattle.pc_message.specs.Collecting.{AddsOutcome, NameOutcome, field_addresses, with_name};
ghost use Rattle.pc_message.specs.Recipients.{RecipientsOutcome, address_of, addresses_of, after_opening, bracketed as inside_brackets, is_recipient_field as names_recipients, item_addresses, items_of, quoted_after as quote_open, text_addresses, without_host as host_off};

use crate::header::{Field, has_name, next_field, place_of, trimmed, unfolded};
use crate::message::Message;
use pc_base::{Memory, Name, Names, Recipient};
use std::alloc::Global;

/// Why a message has no recipients to send it to.
#[derive(Clone, Copy)]
pub enum RecipientFault {
    /// The first address that is no name, as it is shown; `-` where there is no address.
    Unknown { shown: Recipient },
    /// More than 64 names.
    TooMany,
    /// Want of memory.
    Memory,
}

/// The names that the To and Cc fields of a message address, each once and in order.
pub fn recipients(alloc: Global, message: &Message) -> Result<Names, RecipientFault>
    ensures { RecipientsOutcome (addresses_of message.now) result }
{
    let mut names = Names::new(alloc);
    let mut rest = message.lines().as_slice();
    while let Some(field) = next_field(rest) {
        add_field(alloc, &mut names, &field)?;
        rest = field.rest;
    }
    let count = names.as_slice().len();
    if count == 0 {
        return Err(RecipientFault::Unknown {
            shown: Recipient::shown(&[]),
        });
    }
    if count > 64 {
        return Err(RecipientFault::TooMany);
    }
    Ok(names)
}

/// Adds the names of a field, where it is a To or a Cc.
fn add_field(alloc: Global, names: &mut Names, field: &Field) -> Result<(), RecipientFault>
    ensures { let addresses = field_addresses field.now.line.now field.now.folded.now in
        AddsOutcome names.old addresses names.new result }
{
    if !is_recipient_field(field.line.bytes()) {
        return Ok(());
    }
    let Ok(text) = unfolded(alloc, field) else {
        return Err(RecipientFault::Memory);
    };
    add_text(alloc, names, trimmed(&text))
}

fn is_recipient_field(line: &[u8]) -> bool
    ensures { result ≡ names_recipients line.now }
{
    has_name(b"to:", line) || has_name(b"cc:", line)
}

/// Adds the names of a text.
fn add_text(alloc: Global, names: &mut Names, text: &[u8]) -> Result<(), RecipientFault>
    ensures { AddsOutcome names.old (text_addresses text.now) names.new result }
{
    let mut rest = text;
    'items: loop {
        let (item, after) = rest.split_at(item_end(rest));
        add_item(alloc, names, item)?;
        let [_, next @ ..] = after else {
            return Ok(());
        };
        rest = next;
    }
}

/// Where the first item of a text ends: at the first comma outside quotes, or at the text's end.
fn item_end(text: &[u8]) -> usize
    ensures bound { result ≤ length text.now }
    ensures split { items_of false text.now
        ≡ (if result == length text.now
        then text.now ∷ []
        else take result text.now ∷ items_of false (drop (result + 1) text.now)) }
{
    let mut quoted = false;
    for (end, byte) in text.iter().enumerate() {
        if is_unquoted(b',', *byte, quoted) {
            return end;
        }
        quoted = quoted_after(quoted, *byte);
    }
    text.len()
}

/// Whether this is the wanted byte and stands outside quotes.
fn is_unquoted(wanted: u8, byte: u8, quoted: bool) -> bool
    ensures { result ≡ (byte == wanted && not quoted) }
{
    byte == wanted && !quoted
}

/// Whether a quote is open behind this byte.
fn quoted_after(quoted: bool, byte: u8) -> bool
    ensures { result ≡ quote_open quoted byte }
{
    if byte == b'"' { !quoted } else { quoted }
}

/// Adds the name of an item, unless the item is empty.
fn add_item(alloc: Global, names: &mut Names, item: &[u8]) -> Result<(), RecipientFault>
    ensures { AddsOutcome names.old (item_addresses item.now) names.new result }
{
    let item = trimmed(item);
    if item.is_empty() {
        return Ok(());
    }
    let name = name_of(alloc, item)?;
    let Ok(()) = add_name(names, name) else {
        return Err(RecipientFault::Memory);
    };
    Ok(())
}

/// Adds a name that isn't there yet. There may be one past the 64 that are allowed, and no more.
fn add_name(names: &mut Names, name: Name) -> Result<(), Memory>
    ensures { OnOk result (names.new ≡ with_name names.old name) }
{
    if names.as_slice().len() > 64 {
        return Ok(());
    }
    if names.as_slice().contains(&name) {
        return Ok(());
    }
    names.push(name)
}

/// The name that an item addresses.
fn name_of(alloc: Global, item: &[u8]) -> Result<Name, RecipientFault>
    ensures { NameOutcome (address_of item.now) result }
{
    let Ok(small) = trimmed(bracketed(item)).to_ascii_lowercase(alloc) else {
        return Err(RecipientFault::Memory);
    };
    read_name(without_host(&small))
}

/// The name that an address is.
fn read_name(address: &[u8]) -> Result<Name, RecipientFault>
    ensures { NameOutcome address.now result }
{
    match Name::read(address) {
        Some(name) => Ok(name),
        None => Err(RecipientFault::Unknown {
            shown: Recipient::shown(address),
        }),
    }
}

fn without_host(address: &[u8]) -> &[u8]
    ensures { result.now ≡ host_off address.now }
{
    match address.strip_suffix(b"@pcmail") {
        Some(name) => name,
        None => address,
    }
}

/// What stands between an item's last `<` outside quotes and the next `>`, or the item.
fn bracketed(item: &[u8]) -> &[u8]
    ensures { result.now ≡ inside_brackets item.now (after_opening false item.now) }
{
    let Some(start) = opening_end(item) else {
        return item;
    };
    let rest = &item[start..];
    match place_of(b'>', rest) {
        Some(close) => &rest[..close],
        None => item,
    }
}

/// The place behind the last `<` outside quotes.
fn opening_end(item: &[u8]) -> Option<usize>
    ensures bound { IfSome result (λ start. start ≤ length item.now) }
    ensures rest { option_map (λ start. drop start item.now) result ≡ after_opening false item.now }
{
    let mut quoted = false;
    let mut start = None;
    for (place, byte) in item.iter().enumerate() {
        if is_unquoted(b'<', *byte, quoted) {
            start = Some(place + 1);
        }
        quoted = quoted_after(quoted, *byte);
    }
    start
}
