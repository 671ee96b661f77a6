//! The texts that the program writes of a run, and what the report shows of the auction at its end.
ghost use mathlib.Core.List.{IsPrefix};
ghost use Rattle.std.specs.Prelude.{◌≡◌, IfErr, OnOk, ◌≤◌, ◌<◌, List, length, true, IfOk};
ghost use Rattle.auction_rows.specs.{Book.{Book}, Replies.{reply}, Requests.{is_view}};
ghost use Rattle.auction_rows.specs.declared.rows.Row.{Row as Stored};
ghost use Rattle.byte_texts.specs.Writing.{WritesText};
ghost use Rattle.auction_program.specs.Execution.{AreWritten, ArePartWritten, IsOneWritten};
ghost use Rattle.auction_program.specs.Report.{category_views, user_views, views};
ghost use Rattle.auction_program.specs.inner.Performing.{added_of, commits_of, HasLastViews};
ghost use Rattle.auction_program.specs.inner.Views.{view_of, IsEnd};

use crate::asked::AskedTexts;
use auction_rows::{Opening, Reply, Request};
use auction_text::{
    ReportLines, write_history, write_replies_by_threads, write_report, write_rows,
};
use auction_window::{Window, WindowName};
use byte_texts::WriteFault;
use phase_floor::Joined;
use std::alloc::{AllocError, Global};
use std::io::Write;
use std::thread::Threads;

/// Writes what the options ask for, and then the report, if they ask for it. Without lines a
/// report is refused as memory was for them. After `Write` a prefix of both was written; after
/// `Memory` nothing, or all but the report.
#[tactic(auto, using(crate::proofs::WrittenLemmas::part_of_first))]
#[inline(never)]
pub(crate) fn write_texts<R: Threads + Sync, W: Write>(
    rt: &R,
    alloc: Global,
    writer: &mut W,
    texts: AskedTexts<'_>,
) -> Result<(), WriteFault>
    requires { HasLastViews texts.options.now texts.rows.now texts.performed.now }
    ensures whole { OnOk result (AreWritten (W.contents writer.old) (W.contents writer.new)
        (commits_of texts.entry) (added_of texts.entry)) }
    ensures part { IfErr result (λ fault. fault ≡ WriteFault.Write →
        ArePartWritten (W.contents writer.old) (W.contents writer.new)
        (commits_of texts.entry) (added_of texts.entry)) }
    ensures memory { IfErr result (λ fault. fault ≡ WriteFault.Memory →
        IsOneWritten texts.entry.options.now (W.contents writer.old) (W.contents writer.new)
        (commits_of texts.entry) (added_of texts.entry)) }
{
    write_commits(rt, alloc, writer, texts)?;
    if !texts.options.report {
        return Ok(());
    }
    let performed = texts.performed;
    match &performed.lines {
        Some(lines) => write_report(alloc, writer, &performed.history, &performed.hot, lines),
        None => Err(WriteFault::Memory),
    }
}

// Writes the rows, the history or the replies.
fn write_commits<R: Threads + Sync, W: Write>(
    rt: &R,
    alloc: Global,
    writer: &mut W,
    texts: AskedTexts<'_>,
) -> Result<(), WriteFault>
    ensures { WritesText W.contents writer.old writer.new (commits_of texts.entry) result }
{
    let history = &texts.performed.history;
    if texts.options.rows {
        write_rows(alloc, writer, texts.rows, history)
    } else if texts.options.history {
        write_history(writer, history)
    } else {
        write_replies_by_threads(rt, alloc, writer, history)
    }
}

// What a report shows, by number.
#[derive(Clone, Copy)]
enum Viewed {
    Categories,
    Users,
}

impl Viewed {
    // The request to see the one of a number.
    fn request(self, number: u32) -> Request
        ensures request { result ≡ view_of self number }
        ensures view { is_view result ≡ true }
    {
        match self {
            Viewed::Categories => Request::ViewCategory { category: number },
            Viewed::Users => Request::ViewUser { user: number },
        }
    }
}

/// The replies to the views of all categories and users at the end of a run: those of the window
/// if it shows all phases, else those of the state. Both are the book's: no caller sees which it
/// got.
pub(crate) fn report_lines<J: WindowName>(
    alloc: Global,
    window: &mut Window<J>,
    state: &Joined,
    opening: Opening,
) -> Result<ReportLines, AllocError>
    requires { opening ≡ J.opening }
    ensures categories { IfOk result (λ lines. (all : List (List Stored)) (book : Book) →
        IsEnd J.opening J.rows window.old all state.now book →
        lines.categories.items ≡ category_views opening book) }
    ensures users { IfOk result (λ lines. (all : List (List Stored)) (book : Book) →
        IsEnd J.opening J.rows window.old all state.now book →
        lines.users.items ≡ user_views opening book) }
{
    let categories = views_of(alloc, window, state, Viewed::Categories, opening.categories)?;
    let users = views_of(alloc, window, state, Viewed::Users, opening.users)?;
    Ok(ReportLines { categories, users })
}

// The replies to the views of so many numbers from 0.
fn views_of<J: WindowName>(
    alloc: Global,
    window: &mut Window<J>,
    state: &Joined,
    viewed: Viewed,
    count: u32,
) -> Result<Vec<Reply>, AllocError>
    ensures onward { IsPrefix window.old window.new }
    ensures replies { IfOk result (λ replies. (all : List (List Stored)) (book : Book) →
        IsEnd J.opening J.rows window.old all state.now book →
        replies.items ≡ views J.opening book (view_of viewed) count) }
{
    let mut replies = Vec::with_capacity(alloc, count as usize)?;
    for number in 0..count {
        replies.push(last_view(window, state, viewed.request(number)))?;
    }
    Ok(replies)
}

// The reply to a view after the last phase.
fn last_view<J: WindowName>(window: &mut Window<J>, state: &Joined, request: Request) -> Reply
    requires { is_view request ≡ true }
    ensures onward { IsPrefix window.old window.new }
    ensures reply { (all : List (List Stored)) (book : Book) →
        IsEnd J.opening J.rows window.old all state.now book →
        result ≡ reply J.opening book 0 request }
{
    match window.view(request) {
        Ok(Some(seen)) if seen.phases == state.phase() => seen.reply,
        _ => state.view(&request).unwrap(),
    }
}
