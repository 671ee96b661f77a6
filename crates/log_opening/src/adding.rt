//! Rows that are added to an auction.
ghost use Rattle.std.specs.Prelude.{◌≡◌, ◌<◌, ◌++◌, ◌∷◌, [], length, vec_capacity, vec_len, IfErr, IfOk};
ghost use Rattle.auction_rows.specs.Book.{Book};
ghost use Rattle.phase_floor.specs.Adding.{HasBook, IsSameAuction, IsStartOf};
ghost use Rattle.log_opening.specs.Parts.{HasAdded, HasAddedFirst, IsFirstRefused};
ghost use Rattle.log_opening.specs.ReadBack.{IsInRange};

use auction_rows::{Opened, Row};
use phase_floor::{AddFault, Joined};
use std::alloc::Global;

/// Why requests were not added.
#[derive(Clone, Copy, Debug, PartialEq, Eq, Drop)]
pub struct Refused {
    /// The place, from 0, of the first that is not taken.
    pub place: usize,
    /// Why it is not.
    pub fault: AddFault,
}

/// Adds the rows of requests to an auction, and gives them. After a fault just those before it are
/// added.
pub fn add_rows(alloc: Global, auction: &mut Joined, opened: &[Opened]) -> Result<Vec<Row>, Refused>
    requires { HasBook auction.old }
    ensures rows { IfOk result (λ rows. (book : Book) → IsStartOf auction.old book →
        HasAdded auction.old auction.new book opened.now rows.items) }
    ensures same { IsSameAuction auction.old auction.new }
    ensures refused { IfErr result (λ refused. (book : Book) → IsStartOf auction.old book →
        IsFirstRefused auction.old.limit refused.fault (length auction.old.counters)
        auction.old.opening book opened.now refused.place) }
    ensures first { IfErr result (λ refused. (book : Book) → IsStartOf auction.old book →
        HasAddedFirst auction.old auction.new book opened.now refused.place) }
{
    let mut rows = Vec::new(alloc);
    for (place, opened) in opened.iter().enumerate() {
        let Ok(()) = rows.reserve(1) else {
            let fault = AddFault::Memory;
            return Err(Refused { place, fault });
        };
        let row = match auction.add(opened) {
            Ok(row) => row,
            Err(fault) => return Err(Refused { place, fault }),
        };
        put_row(&mut rows, row);
    }
    Ok(rows)
}

// Puts a row behind others, for which there is room. The types of its fields give their ranges:
// contracts see numbers.
fn put_row(rows: &mut Vec<Row>, row: Row)
    requires { vec_len rows.old < vec_capacity rows.old }
    ensures rows { rows.new.items ≡ rows.old.items ++ row ∷ [] }
    ensures in_range { IsInRange row }
{
    rows.push_reserved(row);
}
