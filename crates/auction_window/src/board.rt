//! The board of a publisher and its windows.
use crate::phases::WindowName;
use crate::publisher::Publisher;
use crate::window::Told;
use auction_rows::Row;
use phase_boards::Board;
use std::alloc::AllocError;
use std::sync::Wait;

/// The board of a publisher's windows, which are shown each phase. It is spent by ending its
/// publisher.
pub struct WindowBoard<J: WindowName, P = Publisher<J>> {
    pub publisher: P,
    /// What the publisher told last, for a window to learn: None before the first phase.
    pub told: Option<Told<J>>,
}

impl<J: WindowName> WindowBoard<J, Publisher<J>> {
    ghost use Rattle.std.specs.Prelude.{◌≡◌, None};

    /// A board of this publisher, which has told nothing yet.
    pub fn new(publisher: Publisher<J>) -> WindowBoard<J>
        ensures publisher { result.publisher ≡ publisher }
        ensures told { result.told ≡ None }
    {
        WindowBoard {
            publisher,
            told: None,
        }
    }
}

impl<J: WindowName> Board for WindowBoard<J, Publisher<J>> {
    ghost use Rattle.std.specs.Prelude.{false, true};
    ghost use Rattle.auction_window.specs.Published.{HasPublished};

    ghost has = { λ board opening rows phases.
        HasPublished false J.opening J.rows opening rows board.publisher board.told phases };

    ghost has_refused = { λ board opening rows phases.
        HasPublished true J.opening J.rows opening rows board.publisher board.told phases };

    fn publish<R: Wait>(&mut self, rt: &R, last: Vec<Row>) -> Result<(), AllocError> {
        let told = self.publisher.publish(rt, last)?;
        self.told = Some(told);
        Ok(())
    }
}
