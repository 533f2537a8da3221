//! The third commit of an account, stopped or failing at each device call. The expected answers are
//! worked out by hand.

use super::accounts::{first_entries, make};
use super::stores::{Aftermath, after_failure, after_stop};
use pc_account::Account;
use pc_base::CommitFault;
use pc_disk::Choice;
use std::test::Fail;

#[test]
fn a_stop_at_each_call(rt: HostRuntime) -> Result<(), Fail> {
    let choices = [Choice::Keep, Choice::Lose, Choice::Fill(1), Choice::Fill(0)];
    let rows = [
        (1, Err(CommitFault::Device), [2, 2, 2, 2]),
        (2, Err(CommitFault::Device), [2, 2, 2, 2]),
        (3, Err(CommitFault::Device), [3, 2, 3, 2]),
        (4, Err(CommitFault::Device), [3, 2, 3, 2]),
        (5, Ok(3), [3, 3, 3, 3]),
    ];
    for (k, answer, counts) in rows {
        for (choice, count) in choices.iter().zip(counts.iter()) {
            let entries = first_entries(rt.alloc())?;
            let found = after_stop::<Account>(rt.alloc(), entries, make(b"work")?, k, *choice)?;
            assert_eq!(rt; found, (answer, *count), "{k}");
        }
    }
    Ok(())
}

#[test]
fn a_failure_at_each_call(rt: HostRuntime) -> Result<(), Fail> {
    // where the fourth call has failed the gate is open already, and stands in what is read
    let rows = [
        (1, false, 3, true),
        (2, false, 3, true),
        (3, true, 3, true),
        (4, true, 4, false),
    ];
    for (k, in_doubt, next, may_come) in rows {
        let entries = first_entries(rt.alloc())?;
        let (work, again) = (make(b"work")?, make(b"work")?);
        let found = after_failure::<Account>(rt.alloc(), entries, work, again, k)?;
        let expected = Aftermath {
            in_doubt,
            next,
            may_come,
        };
        assert_eq!(rt; found, expected, "{k}");
    }
    Ok(())
}
