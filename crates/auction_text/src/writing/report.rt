//! The lines of a report.
ghost use Rattle.std.specs.{List.{flat_map}, Prelude.{◌≡◌, ◌++◌, OnOk, map}};
ghost use Rattle.auction_text.specs.Replies.{score_text};
ghost use Rattle.auction_text.specs.Report.{category_line, count_line, counts_text, hot_line, numbered_lines, object_text, refused_count, user_line};

use crate::writing::replies::{MOST_OF_A_REPLY, ReplyBlock, set_reply};
use auction_rows::{Object, Reply};
use byte_texts::{push_labelled, push_labelled_id, push_signed, push_text};
use indexmap::IndexSet;
use std::alloc::AllocError;
use worker_journals::History;

/// What a report shows of the categories and users, each in order of number.
#[derive(Drop)]
pub struct ReportLines {
    /// The reply to the view of each category.
    pub categories: Vec<Reply>,
    /// The reply to the view of each user: one without comments gives no line, nor does a reply
    /// that is not `UserSeen`.
    pub users: Vec<Reply>,
}

fn push_count_line(text: &mut Vec<u8>, label: &[u8], count: u64) -> Result<(), AllocError>
    ensures { OnOk result (text.new.items ≡ text.old.items ++ count_line label.now count) }
{
    push_labelled(text, label, count)?;
    push_text(text, b"\n")
}

fn refused_count(history: &History) -> usize
    ensures { result ≡ refused_count history.now.entries }
{
    // The length fits in 64 bits, and so does the count.
    history.fits();
    history.iter().filter(|entry| entry.is_refused()).count()
}

/// Adds how many phases there were, how many requests, and how many of these were refused.
pub(crate) fn push_counts(
    text: &mut Vec<u8>,
    phases: usize,
    history: &History,
) -> Result<(), AllocError>
    ensures { OnOk result (text.new.items
        ≡ text.old.items ++ counts_text phases history.now.entries) }
{
    push_count_line(text, b"phases ", phases as u64)?;
    push_count_line(text, b"requests ", history.len() as u64)?;
    push_count_line(text, b"refused ", refused_count(history) as u64)
}

fn push_object(text: &mut Vec<u8>, object: Object) -> Result<(), AllocError>
    ensures { OnOk result (text.new.items ≡ text.old.items ++ object_text object) }
{
    match object {
        Object::Item(id) => push_labelled_id(text, b" i", id.worker, id.serial),
        Object::User(user) => push_labelled(text, b" u", u64::from(user)),
        Object::Category(category) => push_labelled(text, b" c", u64::from(category)),
    }
}

fn push_objects(text: &mut Vec<u8>, objects: &[Object]) -> Result<(), AllocError>
    ensures { OnOk result (text.new.items ≡ text.old.items ++ flat_map object_text objects.now) }
{
    for object in objects {
        push_object(text, *object)?;
    }
    Ok(())
}

fn push_hot_line(text: &mut Vec<u8>, phase: u64, hot: &[Object]) -> Result<(), AllocError>
    ensures { OnOk result (text.new.items ≡ text.old.items ++ hot_line phase hot.now) }
{
    if hot.is_empty() {
        return Ok(());
    }
    push_labelled(text, b"hot ", phase)?;
    push_objects(text, hot)?;
    push_text(text, b"\n")
}

/// Adds the line of each phase's hot set that is not empty.
pub(crate) fn push_hot_lines(text: &mut Vec<u8>, hot: &[IndexSet<Object>]) -> Result<(), AllocError>
    ensures { OnOk result (text.new.items
        ≡ text.old.items ++ numbered_lines hot_line 0 (map (λ set. set.keys) hot.now)) }
{
    for (phase, objects) in hot.iter().enumerate() {
        push_hot_line(text, phase as u64, objects.as_slice())?;
    }
    Ok(())
}

fn push_category_line(
    text: &mut Vec<u8>,
    block: &mut ReplyBlock<MOST_OF_A_REPLY>,
    category: u64,
    seen: &Reply,
) -> Result<(), AllocError>
    ensures { OnOk result (text.new.items ≡ text.old.items ++ category_line category seen.now) }
{
    set_reply(block, seen);
    push_labelled(text, b"category ", category)?;
    push_text(text, b" ")?;
    push_text(text, block.bytes())?;
    push_text(text, b"\n")
}

/// Adds the line of each category.
pub(crate) fn push_category_lines(
    text: &mut Vec<u8>,
    categories: &[Reply],
) -> Result<(), AllocError>
    ensures { OnOk result (text.new.items
        ≡ text.old.items ++ numbered_lines category_line 0 categories.now) }
{
    let mut block = ReplyBlock::new();
    for (category, seen) in categories.iter().enumerate() {
        push_category_line(text, &mut block, category as u64, seen)?;
    }
    Ok(())
}

fn push_score(text: &mut Vec<u8>, rating: i64, comments: u64) -> Result<(), AllocError>
    ensures { OnOk result (text.new.items ≡ text.old.items ++ score_text rating comments) }
{
    push_signed(text, b" rating=", rating)?;
    push_labelled(text, b" comments=", comments)
}

fn push_user_line(text: &mut Vec<u8>, user: u64, seen: &Reply) -> Result<(), AllocError>
    ensures { OnOk result (text.new.items ≡ text.old.items ++ user_line user seen.now) }
{
    let Reply::UserSeen { rating, comments } = seen else {
        return Ok(());
    };
    if *comments == 0 {
        return Ok(());
    }
    push_labelled(text, b"user ", user)?;
    push_score(text, *rating, *comments)?;
    push_text(text, b"\n")
}

/// Adds the line of each user with comments.
pub(crate) fn push_user_lines(text: &mut Vec<u8>, users: &[Reply]) -> Result<(), AllocError>
    ensures { OnOk result (text.new.items
        ≡ text.old.items ++ numbered_lines user_line 0 users.now) }
{
    for (user, seen) in users.iter().enumerate() {
        push_user_line(text, user as u64, seen)?;
    }
    Ok(())
}
