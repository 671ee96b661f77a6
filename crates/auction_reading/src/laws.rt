//! What holds of inputs.
ghost use Rattle.std.specs.Prelude.{◌≡◌, List, ℕ, false};
ghost use Rattle.auction_reading.specs.Scripts.{RowsComeFirst, read_records, records_of};
ghost use Rattle.record_reading.specs.declared.record.Record.{Record};

/// In an input without a fault the rows stand before all requests.
pub fn rows_come_first()
    ensures { (workers : ℕ) (text : List ℕ) (all : List Record) →
        read_records workers 1 false (records_of text) ≡ Ok all → RowsComeFirst all }
{}
