//! How many changes more the update lists would have, counted without touching anything.

ghost use Rattle.std.specs.Prelude.{◌≡◌, ◌≤◌, ◌*◌, not, ◌&&◌, length};
ghost use Rattle.pc_mailbox.specs.UpdateList.{is_on as is_listed};
ghost use Rattle.pc_mailbox.specs.Growth.{is_touched, unlisted, unlisted_by_all};
ghost use Rattle.pc_mailbox.specs.declared.mailbox.TheConstants.{MOST_LISTS};

use crate::update_list::UpdateList;
use pc_account_history::{Kept, MOST_MESSAGES};
use pc_base::Name;
use pc_message::is_on;

/// How many of the messages, or of those whose flag 0 is on, aren't on the list.
pub fn count_unlisted(list: &UpdateList, messages: &[Kept], deleted_only: bool) -> usize
    ensures unlisted { result ≡ unlisted deleted_only messages.now list.now }
    ensures bound { result ≤ length messages.now }
{
    messages
        .iter()
        .filter(|kept| is_new_to(list, kept, deleted_only))
        .count()
}

/// Whether a touch of all messages, or of those whose flag 0 is on, would put this one on the list.
fn is_new_to(list: &UpdateList, kept: &Kept, deleted_only: bool) -> bool
    ensures { result ≡ (is_touched deleted_only kept.now && not (is_listed list.now kept.now.uid)) }
{
    if deleted_only && !is_on(kept.flags, 0) {
        return false;
    }
    list.stamp(kept.uid).is_none()
}

/// How many of the messages, or of those whose flag 0 is on, aren't on each of the lists.
pub fn count_unlisted_by_all(
    lists: &[(Name, UpdateList)],
    messages: &[Kept],
    deleted_only: bool,
) -> u64
    requires lists { length lists.now ≤ MOST_LISTS }
    requires messages { length messages.now ≤ MOST_MESSAGES }
    ensures unlisted { result ≡ unlisted_by_all deleted_only messages.now lists.now }
    ensures bound { result ≤ 4096 * length lists.now }
{
    let mut count: u64 = 0;
    for entry in lists {
        count += count_unlisted(&entry.1, messages, deleted_only) as u64;
    }
    count
}
