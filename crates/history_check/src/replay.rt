//! Which requests of the scripts have stood in a line, how far each worker's entries have come in
//! its script, and an auction of one thread on which a history is replayed.
ghost use Rattle.std.specs.Bool.{OnFalse, OnTrue};
ghost use Rattle.std.specs.Prelude.{◌≡◌, ◌<◌, ◌≤◌, ℕ, true, false, length, IfOk, IfNone, IfSome, ◌==◌, ◌&&◌, if◌then◌else◌, Some, suc, max, nat_lt, get_or, ◌++◌, ◌∷◌, [], List, IsErrOf, IsSome, IsSomeAnd, OnOk};
ghost use Rattle.run_laws.specs.Serving.{script_of};
ghost use Rattle.auction_rows.specs.{Book.{Book}, Replies.{next, reply}, StoreReplies.{reply_of}};
ghost use Rattle.auction_rows.specs.declared.rows.Entry.{Entry};
ghost use Rattle.item_shards.specs.OpeningBooks.{opening_of, rows_of_book};
ghost use Rattle.item_shards.specs.Serial.{CanGrow, HoldsBook, IsNotFull, serial_opening};
ghost use Rattle.auction_text.specs.Replies.{reply_text, history_line};
ghost use Rattle.history_check.specs.{Checking.{IsWrong}, CommitIds.{Fits, IsLineOf, commit_id_of}};
ghost use Rattle.history_check.specs.{Marks.{is_marked, HasPlaces}, Orders.{is_bound}};
ghost use Rattle.history_check.specs.Scripts.{request_at};
ghost use Rattle.history_check.specs.declared.lines.CheckFault.TheVariants.{TooLong};
ghost use Rattle.history_check.specs.inner.{Lateness.{is_late}, MarkRows.{AreWide}};

use crate::lines::{CheckFault, CommitId, Order, Wrong, read_line};
use auction_rows::{MOST_ROWS, MOST_WORKERS, Reply, Request, StoreReply, is_splittable};
use auction_text::ReplyText;
use item_shards::{OpeningBook, SerialAuction};
use std::alloc::{AllocError, Global};
use worker_journals::Script;

/// For each index a mark for each of 16 workers.
#[derive(Drop)]
pub struct Marks {
    pub(crate) rows: Vec<[bool; MOST_WORKERS]>,
    ghost wide: { AreWide rows.items },
}

// The request with an index in a worker's script, if there is one.
pub(crate) fn request_of(scripts: &[Script], worker: u32, index: u32) -> Option<Request>
    ensures { result ≡ request_at scripts.now worker index }
{
    let script = scripts.get(worker as usize)?;
    let place = index as usize;
    if place < script.len() {
        Some(script.request(place))
    } else {
        None
    }
}

// The length of the longest script.
fn longest(scripts: &[Script]) -> usize
    ensures { (worker : ℕ) → length (script_of scripts.now worker) ≤ result }
{
    let mut most = 0;
    for script in scripts {
        if most < script.len() {
            most = script.len();
        }
    }
    most
}

impl Marks {
    /// A place for each request of each script, with no mark.
    pub fn new(alloc: Global, scripts: &[Script]) -> Result<Marks, AllocError>
        ensures places { IfOk result (λ marks. HasPlaces marks.rows.items scripts.now) }
        ensures none { IfOk result (λ marks. (worker index : ℕ) → worker < MOST_WORKERS →
            is_marked marks.rows.items worker index ≡ false) }
    {
        let places = longest(scripts);
        Ok(Marks {
            rows: vec![in alloc; [false; MOST_WORKERS]; places]?,
        })
    }

    /// Whether a place has a mark.
    pub fn has(&self, worker: usize, index: usize) -> bool
        requires worker { worker < MOST_WORKERS }
        requires index { index < length self.now.rows.items }
        ensures { result ≡ is_marked self.now.rows.items worker index }
    {
        let row = self.rows[index];
        row[worker]
    }

    /// An index below so many at which a worker has no mark, if there is one.
    pub fn lacks(&self, worker: usize, count: usize) -> Option<usize>
        requires worker { worker < MOST_WORKERS }
        requires places { count ≤ length self.now.rows.items }
        ensures none { IfNone result ((index : ℕ) → index < count →
            is_marked self.now.rows.items worker index ≡ true) }
        ensures some { IfSome result (λ index. (index < count)
            × (is_marked self.now.rows.items worker index ≡ false)) }
    {
        for index in 0..count {
            if !self.has(worker, index) {
                return Some(index);
            }
        }
        None
    }

    /// Marks a place.
    pub fn mark(&mut self, worker: usize, index: usize)
        requires worker { worker < MOST_WORKERS }
        requires index { index < length self.old.rows.items }
        ensures places { length self.new.rows.items ≡ length self.old.rows.items }
        ensures marked { (w i : ℕ) → w < MOST_WORKERS → is_marked self.new.rows.items w i
            ≡ (if (worker == w) && (index == i) then true else is_marked self.old.rows.items w i) }
    {
        let mut row = self.rows[index];
        row[worker] = true;
        self.rows[index] = row;
    }
}

/// For each of 16 workers one past the greatest index of its entries.
#[derive(Drop)]
pub struct Turns {
    pub(crate) next: [u64; MOST_WORKERS],
}

impl Turns {
    /// The turns if there are no entries.
    pub fn new() -> Turns
        ensures { (worker : ℕ) → get_or result.next worker 0 ≡ 0 }
    {
        Turns {
            next: [0; MOST_WORKERS],
        }
    }

    /// Whether an entry of a worker has a greater index.
    pub fn is_late(&self, worker: usize, index: u32) -> bool
        requires { worker < MOST_WORKERS }
        ensures { result ≡ nat_lt index (get_or self.now.next worker 0) }
    {
        u64::from(index) < self.next[worker]
    }

    /// Adds an entry.
    pub fn pass(&mut self, worker: usize, index: u32)
        requires { worker < MOST_WORKERS }
        ensures { (other : ℕ) → other < MOST_WORKERS → get_or self.new.next other 0
            ≡ (if worker == other then max (get_or self.old.next other 0) (suc index)
            else get_or self.old.next other 0) }
    {
        let next = u64::from(index) + 1;
        self.next[worker] = self.next[worker].max(next);
    }
}

// Whether a request may stand after no later one of its script.
pub(crate) fn is_bound(order: Order, request: Request) -> bool
    ensures { result ≡ is_bound order request }
{
    match order {
        Order::Any => false,
        Order::StoresFirst => is_splittable(request),
        Order::Strict => true,
    }
}

/// An auction of one thread that has performed the lines of a history so far.
#[derive(Drop)]
pub struct Replay {
    pub(crate) auction: SerialAuction,
    pub(crate) order: Order,
    pub(crate) marks: Marks,
    pub(crate) turns: Turns,
    // How many rows it was opened with and lines it has performed, in all.
    pub(crate) rows: usize,
    // The text of the last reply that was due.
    due: ReplyText,
    // Why the last line is wrong, if it is. To return this for each line would copy a whole reply.
    pub(crate) wrong: Option<Wrong>,
}

// The reply to a store, as a reply.
fn reply_of(reply: StoreReply) -> Reply
    ensures { result ≡ reply_of reply }
{
    match reply {
        StoreReply::ItemStored(id) => Reply::ItemStored(id),
        StoreReply::BidStored(id) => Reply::BidStored(id),
        StoreReply::CommentStored(id) => Reply::CommentStored(id),
        StoreReply::Bought(id) => Reply::Bought(id),
        StoreReply::Refused(reason) => Reply::Refused(reason),
    }
}

impl Replay {
    ghost use Rattle.history_check.specs.Taking.{HasTaken, CanTake, ForEachTaken, AreMarked, IsUnmarked};
    ghost use Rattle.history_check.specs.inner.Replaying.{HasCompared};

    /// The auction of an opening book, before the first line.
    pub fn new(
        alloc: Global,
        book: &OpeningBook,
        scripts: &[Script],
        order: Order,
    ) -> Result<Replay, AllocError>
        ensures { IfOk result (HasTaken (opening_of book.now) (rows_of_book book.now)
            scripts.now order []) }
    {
        Ok(Replay {
            auction: SerialAuction::resume(alloc, book)?,
            order,
            marks: Marks::new(alloc, scripts)?,
            turns: Turns::new(),
            rows: book.rows().len(),
            due: ReplyText::new(),
            wrong: None,
        })
    }

    /// Performs the request of one line more, and returns whether the line is right. If it is not,
    /// `wrong` says why. After such a line, or a fault, the replay is to be dropped.
    pub fn perform(&mut self, scripts: &[Script], line: &[u8]) -> Result<bool, CheckFault>
        requires workers { length scripts.now ≤ MOST_WORKERS }
        requires taken { CanTake scripts.now self.old }
        ensures right { IfOk result (λ is_right. OnTrue is_right (
            ForEachTaken scripts.now self.old (λ opening start order history.
            (entry : Entry) × (history_line entry ≡ line.now)
            × HasTaken opening start scripts.now order (history ++ entry ∷ []) self.new))) }
        ensures wrong { IfOk result (λ is_right. OnFalse is_right (
            ForEachTaken scripts.now self.old (λ opening start order history.
            IsSomeAnd self.new.wrong (IsWrong opening start scripts.now order history line.now)))) }
        ensures too_long { IsErrOf result TooLong → MOST_ROWS ≤ self.old.rows }
    {
        match read_line(line) {
            Some((commit_id, text)) => self.perform_at(scripts, commit_id, text),
            None => Ok(self.refuse(Wrong::Unreadable)),
        }
    }

    /// Why the last line is wrong.
    pub fn wrong(&self) -> Wrong
        requires { IsSome self.now.wrong }
        ensures { self.now.wrong ≡ Some result }
    {
        match self.wrong {
            Some(wrong) => wrong,
            None => unreachable!(),
        }
    }

    // Remembers why a line is wrong, and returns that it is not right.
    #[cold]
    fn refuse(&mut self, wrong: Wrong) -> bool
        ensures refused { result ≡ false }
        ensures kept { self.new ≡ record self.old { wrong = Some wrong } }
    {
        self.wrong = Some(wrong);
        false
    }

    // Whether a line of a later request of the script stands before the request of a commit, and
    // may not.
    fn is_late(&self, commit_id: CommitId, request: Request) -> bool
        requires { commit_id.worker < MOST_WORKERS }
        ensures { result ≡ is_late self.now.order request commit_id.index
            (get_or self.now.turns.next commit_id.worker 0) }
    {
        is_bound(self.order, request)
            && self
                .turns
                .is_late(commit_id.worker as usize, commit_id.index)
    }

    // Whether a text is that of the reply to a store. Otherwise remembers the reply that was due.
    fn is_stored(&mut self, reply: StoreReply, text: &[u8]) -> bool
        ensures compared { HasCompared result (reply_of reply) text.now self.new }
        ensures others { self.new ≡ record self.old { due = self.new.due; wrong = self.new.wrong } }
    {
        if self.due.is_of_store(reply, text) {
            return true;
        }
        self.refuse(Wrong::Due(reply_of(reply)))
    }

    // Whether a text is that of the reply to a view. Otherwise remembers the reply that was due.
    #[inline(never)]
    fn is_seen(&mut self, worker: u32, request: &Request, text: &[u8]) -> bool
        requires { worker < MOST_WORKERS }
        ensures compared { (book : Book) → HoldsBook self.old.auction book → HasCompared result
            (reply (serial_opening self.old.auction) book worker request.now) text.now self.new }
        ensures others { self.new ≡ record self.old { due = self.new.due; wrong = self.new.wrong } }
    {
        let reply = self.auction.reply_to(worker, *request);
        if self.due.is_of(&reply, text) {
            return true;
        }
        self.refuse(Wrong::Due(reply))
    }

    // Performs a request, and returns whether a text is that of the reply. Otherwise remembers the
    // reply that was due.
    fn is_due(&mut self, worker: u32, request: &Request, text: &[u8]) -> Result<bool, AllocError>
        requires worker { worker < MOST_WORKERS }
        requires room { CanGrow self.old.auction }
        ensures compared { IfOk result (λ is_right.
            (book : Book) → HoldsBook self.old.auction book → HasCompared is_right
            (reply (serial_opening self.old.auction) book worker request.now) text.now self.new) }
        ensures book { OnOk result ((book : Book) → HoldsBook self.old.auction book →
            IsNotFull book → HoldsBook self.new.auction
            (next (serial_opening self.old.auction) book worker request.now)) }
        ensures opening { serial_opening self.new.auction ≡ serial_opening self.old.auction }
        ensures others { self.new ≡ record self.old {
          auction = self.new.auction;
          due = self.new.due;
          wrong = self.new.wrong;
        } }
    {
        match self.auction.perform_store(worker, request)? {
            Some(reply) => Ok(self.is_stored(reply, text)),
            None => Ok(self.is_seen(worker, request, text)),
        }
    }

    // Performs the request of a commit, if a line tells of it in its turn, and compares the reply
    // with a text.
    fn perform_at(
        &mut self,
        scripts: &[Script],
        commit_id: CommitId,
        text: &[u8],
    ) -> Result<bool, CheckFault>
        requires workers { length scripts.now ≤ MOST_WORKERS }
        requires taken { CanTake scripts.now self.old }
        requires fits { Fits commit_id }
        ensures right { IfOk result (λ is_right. OnTrue is_right (
            ForEachTaken scripts.now self.old (λ opening start order history.
            (entry : Entry) × (commit_id_of entry ≡ commit_id) × (text.now ≡ reply_text entry.reply)
            × HasTaken opening start scripts.now order (history ++ entry ∷ []) self.new))) }
        ensures wrong { IfOk result (λ is_right. OnFalse is_right (
            (line : List ℕ) → IsLineOf line commit_id text.now →
            ForEachTaken scripts.now self.old (λ opening start order history.
            IsSomeAnd self.new.wrong (IsWrong opening start scripts.now order history line)))) }
        ensures too_long { IsErrOf result TooLong → MOST_ROWS ≤ self.old.rows }
    {
        let Some(request) = request_of(scripts, commit_id.worker, commit_id.index) else {
            return Ok(self.refuse(Wrong::NoRequest));
        };
        if self
            .marks
            .has(commit_id.worker as usize, commit_id.index as usize)
        {
            return Ok(self.refuse(Wrong::Again));
        }
        if self.is_late(commit_id, request) {
            return Ok(self.refuse(Wrong::Late));
        }
        if self.rows >= MOST_ROWS {
            return Err(CheckFault::TooLong);
        }
        self.marks
            .mark(commit_id.worker as usize, commit_id.index as usize);
        self.turns.pass(commit_id.worker as usize, commit_id.index);
        self.rows += 1;
        let is_right = self.is_due(commit_id.worker, &request, text)?;
        Ok(is_right)
    }

    /// A request that has stood in no line, if there is one: its worker and its index.
    pub fn lacks(&self, scripts: &[Script]) -> Option<(usize, usize)>
        requires workers { length scripts.now ≤ MOST_WORKERS }
        requires taken { CanTake scripts.now self.now }
        ensures none { IfNone result (AreMarked scripts.now self.now.marks.rows.items) }
        ensures some { IfSome result (λ commit_id.
            IsUnmarked scripts.now self.now.marks.rows.items commit_id.0 commit_id.1) }
    {
        for worker in 0..scripts.len() {
            if let Some(index) = self.marks.lacks(worker, scripts[worker].len()) {
                return Some((worker, index));
            }
        }
        None
    }
}
