//! The mails of a record that still wait for somebody, read.

ghost use Rattle.std.specs.Prelude.{◌≡◌, ◌*◌, ◌≤◌, ◌<◌, ◌&&◌, ◌++◌, ◌∷◌, [], Some, length, map, List, IfOk, OnOk, MatchResult, Ok, Err};
ghost use Rattle.std.specs.List.{list_all, AllByRecursion};
ghost use Rattle.std.specs.Map.{keys_of, lookup};
ghost use Rattle.pc_message.specs.Message.{size_of};
ghost use Rattle.pc_tables.specs.Table.{same, is_among};
ghost use Rattle.pc_tables.specs.Order.{AreDistinct};
ghost use Rattle.pc_fields.specs.Fields.{name_kind, u16_kind, u32_kind, u64_kind, FieldReads, is_new};
ghost use Rattle.pc_fields.specs.Format.{Reads};
ghost use Rattle.pc_fields.specs.MessageFormat.{message_within};
ghost use Rattle.pc_office_history.specs.declared.kept.KeptMail.{KeptMail};
ghost use Rattle.pc_office_spelling.specs.Spaces.{space_beside, users_of, greatest};
ghost use Rattle.pc_office_spelling.specs.RecordFormat.{items_from, target_format, kept_format, kept_list_format};
ghost use Rattle.pc_office_holdings.specs.declared.users.Standing.{Standing};
ghost use Rattle.pc_office_holdings.specs.Held.{noted_of, IsCounted};
ghost use Rattle.pc_office_records.specs.Loading.{IsUncounted};
ghost use Rattle.pc_office_records.specs.ReadKept.{rows_in, row_in, space_in, upto_in, suits_in, follow_in, is_light_in, may_in, open_in, is_open_row, count_open, is_next_number, is_many, AreOpen, AreTallied, IsLast};

use pc_base::{Memory, Name};
use pc_fields::{Cursor, Halt, read_message};
use pc_message::{LAST_MAIL, Message};
use pc_office_history::{KeptMail, MOST_USERS, MOST_WAITING, MOST_WAITING_WEIGHT, Target, Targets};
use pc_office_holdings::{Standing, Users};
use std::alloc::Global;

/// The mails that still wait for users of whom none is counted yet. Each mail is counted for those
/// for whom it waits. After `Err` the users aren't used again.
pub(crate) fn read_kept(
    alloc: Global,
    cursor: &mut Cursor,
    users: &mut Users,
    accepted: u64,
) -> Result<Vec<KeptMail>, Halt>
    requires uncounted { AllByRecursion IsUncounted users.old }
    requires distinct { AreDistinct (keys_of users.old) }
    requires few { length users.old ≤ MOST_USERS }
    requires last { accepted ≤ LAST_MAIL }
    ensures read { MatchResult result
        (λ kept. Reads (kept_list_format (map noted_of users.old) accepted) cursor.old cursor.new (Ok kept.items))
        (λ halt. Reads (kept_list_format (map noted_of users.old) accepted) cursor.old cursor.new (Err halt)) }
    ensures same { IfOk result (λ kept. map noted_of users.new ≡ map noted_of users.old) }
    ensures counted { IfOk result (λ kept. AllByRecursion (IsCounted kept.items) users.new) }
{
    let count = read_count(alloc, cursor, users, accepted)?;
    read_mails(alloc, cursor, users, accepted, count)
}

/// How many mails wait.
fn read_count(alloc: Global, cursor: &mut Cursor, users: &Users, accepted: u64) -> Result<u32, Halt>
    requires few { length users.now ≤ MOST_USERS }
    requires last { accepted ≤ LAST_MAIL }
    ensures { FieldReads u32_kind (λ count. follow_in (rows_in [] users.now) 0 accepted count 0) cursor.old cursor.new result }
{
    let rows = rows_of(alloc, users, &Targets::new(alloc))?;
    let mut ahead = cursor.ahead();
    let count = ahead.u32(0, u32::MAX)?;
    if !can_follow(&rows, 0, accepted, count, 0) {
        return Err(Halt::NoField);
    }
    *cursor = ahead;
    Ok(count)
}

/// So many mails, each counted once it was read.
fn read_mails(
    alloc: Global,
    cursor: &mut Cursor,
    users: &mut Users,
    accepted: u64,
    count: u32,
) -> Result<Vec<KeptMail>, Halt>
    requires uncounted { AllByRecursion IsUncounted users.old }
    requires distinct { AreDistinct (keys_of users.old) }
    requires few { length users.old ≤ MOST_USERS }
    requires last { accepted ≤ LAST_MAIL }
    ensures read { MatchResult result
        (λ kept. Reads (items_from (kept_format (map noted_of users.old) accepted) count []) cursor.old cursor.new (Ok kept.items))
        (λ halt. Reads (items_from (kept_format (map noted_of users.old) accepted) count []) cursor.old cursor.new (Err halt)) }
    ensures same { IfOk result (λ kept. map noted_of users.new ≡ map noted_of users.old) }
    ensures counted { IfOk result (λ kept. AllByRecursion (IsCounted kept.items) users.new) }
{
    let mut kept = Vec::new(alloc);
    let mut last: u64 = 0;
    for taken in 0..count {
        let left = count - (taken + 1);
        let mail = read_mail(alloc, cursor, users, accepted, left, last)?;
        last = mail.number;
        users.await_mail(&mail.targets, mail.message.weight());
        put(&mut kept, mail)?;
    }
    Ok(kept)
}

fn put(kept: &mut Vec<KeptMail>, mail: KeptMail) -> Result<(), Memory>
    ensures { OnOk result (kept.new.items ≡ kept.old.items ++ mail ∷ []) }
{
    kept.push(mail)?;
    Ok(())
}

/// A mail of a number past the last one, with so many mails behind it.
fn read_mail(
    alloc: Global,
    cursor: &mut Cursor,
    users: &Users,
    accepted: u64,
    left: u32,
    last: u64,
) -> Result<KeptMail, Halt>
    requires distinct { AreDistinct (keys_of users.now) }
    requires few { length users.now ≤ MOST_USERS }
    requires last { accepted ≤ LAST_MAIL }
    ensures read { (before : List KeptMail) → AreTallied before users.now → IsLast before last → Reads (kept_format (map noted_of users.now) accepted left before) cursor.old cursor.new result }
    ensures past { IfOk result (λ mail. last < mail.number) }
    ensures open { IfOk result (λ mail. AreOpen users.now mail.number mail.targets) }
    ensures size { IfOk result (λ mail. size_of mail.message ≤ 65536) }
{
    let rows = rows_of(alloc, users, &Targets::new(alloc))?;
    let number = read_number(cursor, &rows, last, accepted, left)?;
    let many = read_many(cursor, &rows, number, accepted, left)?;
    let targets = read_targets(alloc, cursor, users, number, many)?;
    let message = read_waiting(alloc, cursor, users, &targets, accepted, left)?;
    Ok(KeptMail {
        number,
        targets,
        message,
    })
}

/// A message that may wait for these targets, with so many mails behind it.
fn read_waiting(
    alloc: Global,
    cursor: &mut Cursor,
    users: &Users,
    targets: &Targets,
    accepted: u64,
    left: u32,
) -> Result<Message, Halt>
    requires few { length users.now ≤ MOST_USERS }
    requires last { accepted ≤ LAST_MAIL }
    ensures read { Reads (message_within (greatest (may_in (rows_in targets.now users.now) accepted left) 65536)) cursor.old cursor.new result }
    ensures size { IfOk result (λ message. size_of message ≤ 65536) }
{
    let rows = rows_of(alloc, users, targets)?;
    let room = most_size(&rows, accepted, left);
    read_message(alloc, cursor, room)
}

/// What is counted of a user, and whether a mail is for it.
#[derive(Clone, Copy)]
struct Row {
    standing: Standing,
    taken: bool,
}

impl Row {
    /// How many mails more may wait for the user, once a mail of this size does if it is for it.
    fn space(&self, size: u32) -> u64
        ensures space { result ≡ space_in size self.now }
        ensures most { result ≤ 1024 }
    {
        let Standing { mails, weight, .. } = self.standing;
        if self.taken {
            space_beside(
                mails.saturating_add(1),
                weight.saturating_add(size as u64 + 256),
            )
        } else {
            space_beside(mails, weight)
        }
    }

    /// Whether a mail of this number may wait for the user.
    fn is_open(&self, number: u64) -> bool
        ensures { result ≡ is_open_row number self.now }
    {
        self.standing.noted < number && self.space(0) > 0
    }

    /// Whether a mail of this size is light enough to wait for the user, if it is for it.
    fn is_light(&self, size: u32) -> bool
        ensures { result ≡ is_light_in size self.now }
    {
        !self.taken
            || self.standing.weight.saturating_add(size as u64 + 256) <= MOST_WAITING_WEIGHT as u64
    }
}

/// How many mails more may wait for a user for whom so many do, of this weight.
fn space_beside(mails: u64, weight: u64) -> u64
    ensures space { result ≡ space_beside mails weight }
    ensures most { result ≤ 1024 }
{
    let more = (MOST_WAITING as u64).saturating_sub(mails);
    more.min((MOST_WAITING_WEIGHT as u64).saturating_sub(weight) / 256)
}

/// What is counted of each user, and whether it is among the targets.
fn rows_of(alloc: Global, users: &Users, targets: &Targets) -> Result<Vec<Row>, Memory>
    ensures { IfOk result (λ rows. rows.items ≡ rows_in targets.now users.now) }
{
    let mut rows = Vec::new(alloc);
    for (user, standing) in users.table().iter() {
        let taken = is_taken(user, targets);
        rows.push(Row {
            standing: *standing,
            taken,
        })?;
    }
    Ok(rows)
}

/// Whether a user is among the targets.
fn is_taken(user: &Name, targets: &Targets) -> bool
    ensures { result ≡ is_among user.now (users_of targets.now) }
{
    targets.of(user).is_some()
}

/// How many mails of numbers up to this one may wait, one for each of its targets.
fn space_upto(rows: &[Row], size: u32, number: u64) -> u64
    requires { length rows.now ≤ MOST_USERS }
    ensures space { result ≡ upto_in rows.now size number }
    ensures most { result ≤ 32768 }
{
    let mut sum: u64 = 0;
    for row in rows {
        if row.standing.noted < number {
            sum += row.space(size);
        }
    }
    sum
}

/// Whether so many mails can come behind, where so much of the space is taken by others.
fn can_follow(rows: &[Row], size: u32, accepted: u64, count: u32, taken: u16) -> bool
    requires few { length rows.now ≤ MOST_USERS }
    requires last { accepted ≤ LAST_MAIL }
    ensures { result ≡ follow_in rows.now size accepted count taken }
{
    if count == 0 {
        return true;
    }
    if count as u64 + taken as u64 > space_upto(rows, size, accepted) {
        return false;
    }
    suit_all(rows, size, accepted, count, taken)
}

/// Whether there is space enough up to what is noted of each user.
fn suit_all(rows: &[Row], size: u32, accepted: u64, count: u32, taken: u16) -> bool
    requires few { length rows.now ≤ MOST_USERS }
    requires last { accepted ≤ LAST_MAIL }
    ensures { result ≡ list_all (suits_in rows.now size accepted count taken) rows.now }
{
    for row in rows {
        if !suits(rows, size, accepted, count, taken, row) {
            return false;
        }
    }
    true
}

/// Whether there is space up to what is noted of a user for those of the mails that have such
/// numbers.
fn suits(rows: &[Row], size: u32, accepted: u64, count: u32, taken: u16, row: &Row) -> bool
    requires few { length rows.now ≤ MOST_USERS }
    requires last { accepted ≤ LAST_MAIL }
    ensures { result ≡ suits_in rows.now size accepted count taken row.now }
{
    let noted = row.standing.noted;
    let behind = noted.saturating_add(count as u64);
    if behind <= accepted {
        return true;
    }
    behind.saturating_add(taken as u64) <= accepted + space_upto(rows, size, noted)
}

/// Whether a mail of this size may wait, and so many can come behind it.
fn may_wait(rows: &[Row], accepted: u64, count: u32, size: u32) -> bool
    requires few { length rows.now ≤ MOST_USERS }
    requires last { accepted ≤ LAST_MAIL }
    ensures { result ≡ may_in rows.now accepted count size }
{
    are_light(rows, size) && can_follow(rows, size, accepted, count, 0)
}

fn are_light(rows: &[Row], size: u32) -> bool
    ensures { result ≡ list_all (is_light_in size) rows.now }
{
    for row in rows {
        if !row.is_light(size) {
            return false;
        }
    }
    true
}

/// The greatest size with which a mail may wait. The greater the size, the less space is left:
/// so it is found by halves.
fn most_size(rows: &[Row], accepted: u64, count: u32) -> u32
    requires few { length rows.now ≤ MOST_USERS }
    requires last { accepted ≤ LAST_MAIL }
    ensures greatest { result ≡ greatest (may_in rows.now accepted count) 65536 }
    ensures most { result ≤ 65536 }
{
    let mut low: u32 = 0;
    let mut high: u32 = 65_536;
    if may_wait(rows, accepted, count, high) {
        return high;
    }
    while low < high {
        let middle = low + (high - low).div_ceil(2);
        if may_wait(rows, accepted, count, middle) {
            low = middle;
        } else {
            high = middle - 1;
        }
    }
    low
}

/// For how many users a mail of this number may wait.
fn count_open(rows: &[Row], number: u64) -> usize
    ensures { result ≡ count_open rows.now number }
{
    let mut count: usize = 0;
    for row in rows {
        if row.is_open(number) {
            count += 1;
        }
    }
    count
}

/// Whether a mail of this number may wait for a user.
fn is_open(users: &Users, user: &Name, number: u64) -> bool
    requires { AreDistinct (keys_of users.now) }
    ensures { result ≡ is_among user.now (open_in users.now number) }
{
    match users.get(user) {
        Some(standing) => {
            standing.noted < number && space_beside(standing.mails, standing.weight) > 0
        }
        None => false,
    }
}

/// The number of a mail, past the last one, with one left for each of so many mails behind it.
fn read_number(
    cursor: &mut Cursor,
    rows: &[Row],
    last: u64,
    accepted: u64,
    left: u32,
) -> Result<u64, Halt>
    requires { accepted ≤ LAST_MAIL }
    ensures { FieldReads u64_kind (is_next_number last rows.now accepted left) cursor.old cursor.new result }
{
    let mut ahead = cursor.ahead();
    let number = ahead.u64(0, accepted)?;
    if !is_next_number(rows, last, accepted, left, number) {
        return Err(Halt::NoField);
    }
    *cursor = ahead;
    Ok(number)
}

/// Whether a mail may have this number: it is past the last one, leaves a number for each mail
/// behind it, and there is somebody for whom the mail may wait.
fn is_next_number(rows: &[Row], last: u64, accepted: u64, left: u32, number: u64) -> bool
    requires { accepted ≤ LAST_MAIL }
    ensures { result ≡ is_next_number last rows.now accepted left number }
{
    last < number && number.saturating_add(left as u64) <= accepted && count_open(rows, number) > 0
}

/// For how many targets a mail of this number waits.
fn read_many(
    cursor: &mut Cursor,
    rows: &[Row],
    number: u64,
    accepted: u64,
    left: u32,
) -> Result<u16, Halt>
    requires few { length rows.now ≤ MOST_USERS }
    requires last { accepted ≤ LAST_MAIL }
    ensures { FieldReads u16_kind (is_many rows.now number accepted left) cursor.old cursor.new result }
{
    let mut ahead = cursor.ahead();
    let many = ahead.u16(1, u16::MAX)?;
    if !is_many(rows, number, accepted, left, many) {
        return Err(Halt::NoField);
    }
    *cursor = ahead;
    Ok(many)
}

/// Whether a mail of this number may wait for so many, with so many mails behind it.
fn is_many(rows: &[Row], number: u64, accepted: u64, left: u32, many: u16) -> bool
    requires few { length rows.now ≤ MOST_USERS }
    requires last { accepted ≤ LAST_MAIL }
    ensures { result ≡ is_many rows.now number accepted left many }
{
    many > 0
        && many as usize <= count_open(rows, number)
        && can_follow(rows, 0, accepted, left, many)
}

/// So many targets, each a user for whom a mail of this number may wait.
fn read_targets(
    alloc: Global,
    cursor: &mut Cursor,
    users: &Users,
    number: u64,
    many: u16,
) -> Result<Targets, Halt>
    requires { AreDistinct (keys_of users.now) }
    ensures read { Reads (items_from (target_format (open_in users.now number)) many []) cursor.old cursor.new result }
    ensures open { IfOk result (AreOpen users.now number) }
{
    let mut targets = Targets::new(alloc);
    for _taken in 0..many {
        let target = read_target(cursor, users, number, &targets)?;
        targets.push(target)?;
    }
    Ok(targets)
}

fn read_target(
    cursor: &mut Cursor,
    users: &Users,
    number: u64,
    targets: &Targets,
) -> Result<Target, Halt>
    requires { AreDistinct (keys_of users.now) }
    ensures read { Reads (target_format (open_in users.now number) 0 targets.now) cursor.old cursor.new result }
    ensures open { IfOk result (λ target. AreOpen users.now number (target ∷ [])) }
{
    let user = read_open_user(cursor, users, number, targets)?;
    let mailbox = cursor.name()?;
    Ok(Target { user, mailbox })
}

/// A user for whom a mail of this number may wait, and that isn't among the targets yet.
fn read_open_user<'a>(
    cursor: &mut Cursor<'a>,
    users: &Users,
    number: u64,
    targets: &Targets,
) -> Result<Name, Halt>
    requires { AreDistinct (keys_of users.now) }
    ensures read { FieldReads name_kind (λ user. is_among user (open_in users.now number) && is_new (users_of targets.now) user) cursor.old cursor.new result }
    ensures open { IfOk result (λ user. AreOpen users.now number (record { user = user; mailbox = [] } ∷ [])) }
{
    let mut ahead = cursor.ahead();
    let user = ahead.name()?;
    if !is_open(users, &user, number) {
        return Err(Halt::NoField);
    }
    if is_taken(&user, targets) {
        return Err(Halt::NoField);
    }
    *cursor = ahead;
    Ok(user)
}
