//! An entry of a journal, where it lies, and the reply of a commit, in few bytes.
ghost use Rattle.std.specs.Prelude.{◌≡◌, ◌<◌, ◌∷◌, ◌++◌, [], Some, OnOk, length, option_map, option_to_list, slice_get};
ghost use Rattle.auction_rows.specs.{Choosing.{written_by}, History.{row_of_entry}};
ghost use Rattle.auction_rows.specs.{ItemViews.{item_told}, StoreReplies.{is_refusal, store_reply}};
ghost use Rattle.worker_journals.specs.{Journals.{IsLawfulJournal}, Shown.{shown_in}};
ghost use Rattle.worker_journals.specs.inner.Entries.{SaysEntry};

use crate::heads::Head;
use crate::journal::Journal;
use crate::sides::Sides;
use auction_rows::{
    Entry, ItemView, Object, Refusal, Reply, Request, Row, StoreReply, row_of_store,
};
use std::alloc::AllocError;
use std::marker::Model;

/// An entry of a journal, where it lies: what is asked of it makes no more than is answered.
/// Contracts see the entry.
#[derive(Drop)]
pub struct EntryRef<'a> {
    journal: &'a Journal,
    place: usize,
}

impl<'a> Model for EntryRef<'a> {
    ghost use Rattle.std.specs.Prelude.{◌<◌, length};
    ghost use Rattle.auction_rows.specs.declared.rows.Entry.{Entry};
    ghost use Rattle.worker_journals.specs.{Journals.{IsLawfulJournal}, inner.Places.{entry_at}};

    ghost Value = { Entry };

    ghost view = { λ e. entry_at e.place e.journal.now.entries };

    ghost invariant = { λ e. (e.place < length e.journal.now.entries)
        × IsLawfulJournal e.journal.now };
}

impl<'a> EntryRef<'a> {
    /// The reference to a lawful journal's entry at a place.
    #[inline(always)]
    pub(crate) fn of(journal: &'a Journal, place: usize) -> EntryRef<'a>
        requires place { place < length journal.now.entries }
        requires lawful { IsLawfulJournal journal.now }
        ensures entry { slice_get journal.now.entries place ≡ Some result }
    {
        EntryRef { journal, place }
    }

    // The head of the entry, and the side lists of its journal.
    #[inline(always)]
    fn head(&self) -> (Head, &Sides)
        ensures { SaysEntry result.1.now result.0 self.now }
    {
        let journal = self.journal;
        (journal.heads.head(self.place), &journal.sides)
    }

    /// The phase in which the entry was committed.
    pub fn phase(&self) -> u64
        ensures { result ≡ self.now.phase }
    {
        // A lawful journal is of one phase and one worker.
        self.journal.phase()
    }

    /// The commit number of the entry.
    pub fn number(&self) -> u64
        ensures { result ≡ self.now.number }
    {
        self.head().0.number
    }

    /// The worker whose commit it is.
    #[inline(always)]
    pub fn worker(&self) -> u32
        ensures { result ≡ self.now.worker }
    {
        // A lawful journal is of one phase and one worker.
        self.journal.worker()
    }

    /// The index of its request.
    pub fn index(&self) -> u32
        ensures { result ≡ self.now.index }
    {
        self.head().0.index
    }

    /// What was asked.
    #[inline(always)]
    pub fn request(&self) -> Request
        ensures { result ≡ self.now.request }
    {
        let journal = self.journal;
        journal.heads.request(self.place)
    }

    /// The reply, made whole.
    pub fn reply(&self) -> Reply
        ensures { result ≡ self.now.reply }
    {
        let (head, sides) = self.head();
        sides.reply(head.reply)
    }

    /// The reply, if it is one to a store or a refusal: None if it shows what a view asked for.
    pub fn store_reply(&self) -> Option<StoreReply>
        ensures { result ≡ store_reply self.now.reply }
    {
        self.head().0.reply.as_store_reply()
    }

    /// What the entry shows of an item, if it is a view of one that is stored.
    #[inline(always)]
    pub fn item_seen(&self) -> Option<&ItemView>
        ensures { option_to_list (option_map (λ seen. seen.now) result)
            ≡ (shown_in self.now.reply).items }
    {
        let (head, sides) = self.head();
        sides.item_seen(head.reply)
    }

    /// Whether the entry is refused.
    pub fn is_refused(&self) -> bool
        ensures { result ≡ is_refusal self.now.reply }
    {
        self.head().0.reply.is_refusal()
    }

    /// The object that the entry writes, if it is an accepted splittable store.
    #[inline(always)]
    pub fn object_written(&self) -> Option<Object>
        ensures { result ≡ written_by self.now }
    {
        let (head, _sides) = self.head();
        // What a view asks for is not read: it lies elsewhere.
        if !head.reply.answers_splittable() {
            return None;
        }
        head.reply.object_written(self.worker(), &self.request())
    }

    /// The row that the entry adds, if it is an accepted store.
    pub fn row(&self) -> Option<Row>
        ensures { result ≡ row_of_entry self.now }
    {
        row_of_store(self.worker(), self.request(), self.store_reply()?)
    }

    /// The entry, made whole.
    pub fn to_entry(&self) -> Entry
        ensures { result ≡ self.now }
    {
        Entry {
            phase: self.phase(),
            number: self.number(),
            worker: self.worker(),
            index: self.index(),
            request: self.request(),
            reply: self.reply(),
        }
    }

    /// Puts the entry, made whole, at the end of a list.
    pub(crate) fn push_to(&self, entries: &mut Vec<Entry>) -> Result<(), AllocError>
        ensures { OnOk result (entries.new.items ≡ entries.old.items ++ self.now ∷ []) }
    {
        // Field by field: then the check meets the types of its fields in this body.
        entries.push(Entry {
            phase: self.phase(),
            number: self.number(),
            worker: self.worker(),
            index: self.index(),
            request: self.request(),
            reply: self.reply(),
        })?;
        Ok(())
    }
}

/// The reply that a commit is told of, in few bytes: a whole reply has room for ten bids. Contracts
/// see the reply.
#[derive(Drop)]
pub struct Answer<'a> {
    /// How it is told.
    pub form: ReplyForm<'a>,
}

/// How a reply is told: that of a store or a refusal as it is, a view's where it lies.
#[derive(Clone, Copy)]
pub enum ReplyForm<'a> {
    /// The reply to a store, or a refusal.
    Store(StoreReply),
    /// What the view of an item shows, where it lies.
    Item(&'a ItemView),
    /// A reply where it lies.
    Whole(&'a Reply),
}

impl<'a> Model for Answer<'a> {
    ghost use Rattle.auction_rows.specs.declared.replies.Reply.{Reply};
    ghost use Rattle.worker_journals.specs.Answers.{reply_in_form};

    ghost Value = { Reply };

    ghost view = { λ a. reply_in_form a.form };
}

impl<'a> Answer<'a> {
    /// A reply where it lies.
    #[inline(always)]
    pub fn of(reply: &'a Reply) -> Answer<'a>
        ensures { result ≡ reply.now }
    {
        Answer {
            form: ReplyForm::Whole(reply),
        }
    }

    /// The reply to the view of an item, which shows this where it lies: None if it is not stored.
    #[inline(always)]
    pub fn of_item(seen: &'a Option<ItemView>) -> Answer<'a>
        ensures { result ≡ item_told seen.now }
    {
        Answer {
            form: match seen {
                Some(seen) => ReplyForm::Item(seen),
                None => ReplyForm::Store(StoreReply::Refused(Refusal::NoSuchItem)),
            },
        }
    }
}
