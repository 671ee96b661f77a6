//! What slices are of rows, what commits keep, and why their replies are the model's. Each law is
//! what a function with an empty body ensures.
ghost use Rattle.std.specs.Prelude.{◌≡◌, ◌<◌, ◌==◌, if◌then◌else◌, ℕ, ◌++◌, ◌∷◌, [], List, Option, length};
ghost use Rattle.auction_rows.specs.{Book.{Book}, Footprint.{footprint}, History.{IsRight}};
ghost use Rattle.auction_rows.specs.declared.{replies.Reply.{Reply}, requests.Facts.{Facts}};
ghost use Rattle.auction_rows.specs.declared.requests.{Object.{Object}, Request.{Request}};
ghost use Rattle.auction_rows.specs.declared.rows.Row.{Row};
ghost use Rattle.item_shards.specs.{Contents.{Contents}, Writing.{writes_of}};
ghost use Rattle.shard_boxes.specs.Keys.{KeyState, taking, putting, lines_at, added};
ghost use Rattle.shard_boxes.specs.{Lines.{Line}, States.{ShardState}};
ghost use Rattle.worker_slices.specs.Slicing.{slices_of, slices_after_acts, HaveAtMost};
ghost use Rattle.worker_slices.specs.declared.counters.Counters.{Counters};
ghost use Rattle.phase_transactions.specs.Performing.{HasCommitted, HasFailed, shards_asked};
ghost use Rattle.phase_transactions.specs.Txns.{Setting, Txn, entry_of, hot_of, IsAnswered};
ghost use Rattle.phase_transactions.specs.Workers.{WorkerState, IsExplained, IsIdle, setting_of, txn_of};
ghost use Rattle.phase_transactions.specs.Works.{Work, IsWorkOf, IsCommitOf, with_txn};
ghost use Rattle.phase_transactions.specs.declared.fault.PermitFault.{PermitFault};
ghost use Rattle.phase_permits.specs.Replying.{CountsOf, SawTrue, StoodFor, HasFixed, IsModelReply};

/// The slices of rows and one row more are those of the rows after the acts that write the row.
/// Each has at most as many operations as there are rows.
pub fn slices_of_rows()
    ensures one_more { (stocks : List (Object × Option (Facts × ℕ))) (rows : Book) (row : Row) →
        slices_of stocks (rows ++ row ∷ [])
        ≡ slices_after_acts (slices_of stocks rows) (writes_of row) }
    ensures few { (stocks : List (Object × Option (Facts × ℕ))) (rows : Book) →
        HaveAtMost (length rows) (slices_of stocks rows) }
{}

/// A commit that owes what a worker's work asks for keeps the work one.
pub fn commits_keep_work()
    ensures { (z : Setting) (worker : ℕ) (work : Work) (txn : Txn) →
        IsWorkOf z worker work → IsCommitOf z worker work txn →
        IsWorkOf z worker (with_txn z work txn) }
{}

/// After the commit of a request a permit is still explained by its transactions.
pub fn commits_stay_explained()
    ensures { (initial : List ShardState) (old new : WorkerState)
        (request : Request) (index : ℕ) (reply : Reply) →
        HasCommitted initial old new request index reply →
        IsExplained (length initial) old → IsExplained (length initial) new }
{}

/// A commit's reply is the model's for every book for which the shards that it took stood, but for
/// hot objects, in which hot items have what is fixed of them, and which its worker's counters
/// counted.
pub fn replies_are_right()
    ensures txns { (z : Setting) (taken : ℕ → Contents) (counters : Counters) (txn : Txn) →
        SawTrue z taken txn → IsAnswered z counters txn →
        (book : Book) → StoodFor z taken book txn → HasFixed z book →
        CountsOf book (entry_of txn).worker counters → IsRight z.opening book (entry_of txn) }
    ensures commits { (initial : List ShardState) (old new : WorkerState)
        (request : Request) (index : ℕ) (answer : Reply) →
        HasCommitted initial old new request index answer →
        IsModelReply initial old new request answer }
{}

/// A request with an empty footprint leaves the key as it was, whether it was committed or not.
pub fn empty_footprints_leave_keys()
    ensures commits { (initial : List ShardState) (old new : WorkerState)
        (request : Request) (index : ℕ) (answer : Reply)
        (done : HasCommitted initial old new request index answer) →
        let z = setting_of old (length initial) in
        let txn = txn_of old done.number request index answer done.found in
        footprint z.opening z.shards (hot_of z) (entry_of txn) ≡ [] → new.key ≡ old.key }
    ensures failures { (initial : List ShardState) (old new : WorkerState)
        (request : Request) (fault : PermitFault) →
        HasFailed initial old new request fault → shards_asked (length initial) old request ≡ [] →
        new.key ≡ old.key }
{}

/// A key that took one shard and put it back has that line more there, no other list of it changes,
/// and it holds what it held.
pub fn one_shard_put()
    ensures lines { (key : KeyState) (s : ℕ) (seen : List (ℕ × Line)) (line : Option Line) (t : ℕ) →
        s < length key.seats →
        lines_at (putting (taking key s seen) s line) t
        ≡ (if t == s then lines_at key s ++ added line else lines_at key t) }
    ensures idle { (key : KeyState) (s : ℕ) (seen : List (ℕ × Line)) (line : Option Line) →
        s < length key.seats →
        IsIdle key → IsIdle (putting (taking key s seen) s line) }
{}
