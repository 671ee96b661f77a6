//! Users who like pages. Each record is of a user or of a page; requests know which key is whose.
ghost use Rattle.std.specs.Prelude.{◌≡◌, ◌≤◌};

use split_engine::{Application, Decision, Few};

/// What is asked.
#[derive(Clone, Copy)]
pub enum LikeRequest {
    /// A user likes a page, at a time.
    Like { user: u32, page: u32, time: u64 },
    /// How many likes a page has, and when a user last liked a page.
    View { user: u32, page: u32 },
}

/// What is answered.
#[derive(Clone, Copy, PartialEq, Eq, Debug)]
pub enum LikeReply {
    Liked,
    /// How many likes the page has, and when the user last liked a page.
    Viewed { likes: u64, last: Option<u64> },
}

/// What is done to a record.
#[derive(Clone, Copy)]
pub enum Change {
    /// Keeps the time, if it is the latest.
    Note(u64),
    /// One like more.
    Count,
}

/// What is kept of a user or a page, and a slice of it.
#[derive(Clone, Copy)]
pub struct Tally {
    /// How many likes a page has.
    pub likes: u64,
    /// When a user last liked a page.
    pub last: Option<u64>,
}

/// A user or a page before the first like.
pub const NONE: Tally = Tally {
    likes: 0,
    last: None,
};

/// Likes, after Doppel's benchmark LIKE (Narula et al., OSDI 2014).
pub struct Likes;

impl Application for Likes {
    ghost use Rattle.example_likes.specs.{Laws.{likes_laws}, Model.{likes, Fits}};

    type Record = Tally;

    type Slice = Tally;

    type Look = Tally;

    type Request = LikeRequest;

    type Reply = LikeReply;

    type Act = Change;

    ghost rules = { likes };

    ghost fits = { Fits };

    ghost slice_fits = { Fits };

    ghost is_small = { λ _. Unit {0} };

    ghost laws = { likes_laws };

    fn keys(request: &LikeRequest) -> Few<u32> {
        match *request {
            LikeRequest::Like { user, page, .. } | LikeRequest::View { user, page } => {
                Few::two(user, page)
            }
        }
    }

    fn look(held: &Tally) -> Tally {
        *held
    }

    fn decide(request: &LikeRequest, looks: &Few<Tally>) -> Decision<LikeReply, Change> {
        match *request {
            LikeRequest::Like { time, .. } => Decision {
                reply: LikeReply::Liked,
                acts: Few::two(Change::Note(time), Change::Count),
            },
            LikeRequest::View { .. } => Decision {
                reply: LikeReply::Viewed {
                    likes: looks.at(1).likes,
                    last: looks.at(0).last,
                },
                acts: Few::none(),
            },
        }
    }

    fn splits(request: &LikeRequest) -> bool {
        matches!(*request, LikeRequest::Like { .. })
    }

    fn apply(held: &mut Tally, act: Change) {
        match act {
            Change::Note(time) => held.last = held.last.max(Some(time)),
            Change::Count => held.likes += 1,
        }
    }

    fn empty_slice() -> Tally {
        NONE
    }

    fn apply_to_slice(slice: &mut Tally, act: Change) {
        Likes::apply(slice, act);
    }

    fn merge(held: &mut Tally, slice: Tally) {
        held.likes += slice.likes;
        held.last = held.last.max(slice.last);
    }
}
