//! The lines of rows, as records that can be read again.
ghost use Rattle.std.specs.List.{flat_map};
ghost use Rattle.std.specs.Prelude.{◌≡◌, ◌++◌, OnOk, codes, decimal, option_to_list};
ghost use Rattle.auction_rows.specs.History.{row_of_entry, rows_of};
ghost use Rattle.auction_text.specs.Replies.{lines};
ghost use Rattle.auction_text.specs.RowLines.{bid_row_text, buy_row_text, byte_in_quotes, comment_row_text, item_row_text, offer_text, quoted, row_line, terms_text};

use auction_rows::{BidRow, BuyRow, CommentRow, ItemRow, Row};
use byte_texts::{Block, push_text};
use std::alloc::AllocError;
use worker_journals::{EntryRef, History};

fn push_byte_in_quotes(text: &mut Vec<u8>, byte: u8) -> Result<(), AllocError>
    ensures { OnOk result (text.new.items ≡ text.old.items ++ byte_in_quotes byte) }
{
    if byte == b'"' {
        text.push(b'"')?;
    }
    text.push(byte)?;
    Ok(())
}

fn push_bytes_in_quotes(text: &mut Vec<u8>, bytes: &[u8]) -> Result<(), AllocError>
    ensures { OnOk result (text.new.items ≡ text.old.items ++ flat_map byte_in_quotes bytes.now) }
{
    for byte in bytes {
        push_byte_in_quotes(text, *byte)?;
    }
    Ok(())
}

/// Adds bytes in quotes, each quote among them twice.
pub fn push_quoted(text: &mut Vec<u8>, bytes: &[u8]) -> Result<(), AllocError>
    ensures { OnOk result (text.new.items ≡ text.old.items ++ quoted bytes.now) }
{
    push_text(text, b"\"")?;
    push_bytes_in_quotes(text, bytes)?;
    push_text(text, b"\"")
}

// No line of a row, but for the name of an item, takes more.
const MOST_OF_A_ROW: usize = 160;

// A block in which the lines of rows are put together, one after the other.
type RowBlock = Block<MOST_OF_A_ROW>;

fn push_offer(text: &mut Vec<u8>, line: &mut RowBlock, row: &ItemRow) -> Result<(), AllocError>
    ensures { OnOk result (text.new.items
        ≡ text.old.items ++ (decimal row.now.id.worker ++ offer_text row.now.facts)) }
{
    line.clear();
    line.push_number(u64::from(row.id.worker));
    line.push_labelled(b",+item,", u64::from(row.facts.seller));
    line.push_labelled(b",", u64::from(row.facts.category));
    line.push(b",");
    push_text(text, line.bytes())?;
    push_quoted(text, row.facts.name.bytes())
}

fn push_terms(text: &mut Vec<u8>, line: &mut RowBlock, row: &ItemRow) -> Result<(), AllocError>
    ensures { OnOk result (text.new.items ≡ text.old.items ++ (terms_text row.now ++ codes "\n")) }
{
    line.clear();
    line.push_labelled(b",", row.facts.start);
    line.push_labelled(b",", row.facts.closes);
    line.push_labelled(b",", row.time);
    line.push_labelled(b",", u64::from(row.facts.quantity.value()));
    line.push(b"\n");
    push_text(text, line.bytes())
}

fn push_item_line(text: &mut Vec<u8>, line: &mut RowBlock, row: &ItemRow) -> Result<(), AllocError>
    ensures { OnOk result (text.new.items
        ≡ text.old.items ++ (item_row_text row.now ++ codes "\n")) }
{
    push_offer(text, line, row)?;
    push_terms(text, line, row)
}

fn push_bid_line(text: &mut Vec<u8>, line: &mut RowBlock, row: &BidRow) -> Result<(), AllocError>
    ensures { OnOk result (text.new.items
        ≡ text.old.items ++ (bid_row_text row.now ++ codes "\n")) }
{
    line.clear();
    line.push_number(u64::from(row.id.worker));
    line.push_labelled(b",+bid,", u64::from(row.bidder));
    line.push_id(b",", row.item.worker, row.item.serial);
    line.push_labelled(b",", row.amount);
    line.push_labelled(b",", row.time);
    line.push(b"\n");
    push_text(text, line.bytes())
}

fn push_comment_line(
    text: &mut Vec<u8>,
    line: &mut RowBlock,
    row: &CommentRow,
) -> Result<(), AllocError>
    ensures { OnOk result (text.new.items
        ≡ text.old.items ++ (comment_row_text row.now ++ codes "\n")) }
{
    line.clear();
    line.push_number(u64::from(row.id.worker));
    line.push_labelled(b",+comment,", u64::from(row.author));
    line.push_labelled(b",", u64::from(row.about));
    line.push_id(b",", row.item.worker, row.item.serial);
    line.push_signed(b",", row.stars.value());
    line.push(b"\n");
    push_text(text, line.bytes())
}

fn push_buy_line(text: &mut Vec<u8>, line: &mut RowBlock, row: &BuyRow) -> Result<(), AllocError>
    ensures { OnOk result (text.new.items
        ≡ text.old.items ++ (buy_row_text row.now ++ codes "\n")) }
{
    line.clear();
    line.push_number(u64::from(row.id.worker));
    line.push_labelled(b",+buynow,", u64::from(row.buyer));
    line.push_id(b",", row.item.worker, row.item.serial);
    line.push_labelled(b",", u64::from(row.quantity.value()));
    line.push_labelled(b",", row.time);
    line.push(b"\n");
    push_text(text, line.bytes())
}

// Adds the line of a row, which is put together in a block.
fn push_row_line(text: &mut Vec<u8>, line: &mut RowBlock, row: &Row) -> Result<(), AllocError>
    ensures { OnOk result (text.new.items ≡ text.old.items ++ row_line row.now) }
{
    match row {
        Row::Item(row) => push_item_line(text, line, row),
        Row::Bid(row) => push_bid_line(text, line, row),
        Row::Comment(row) => push_comment_line(text, line, row),
        Row::Buy(row) => push_buy_line(text, line, row),
    }
}

/// Adds the line of each row.
pub(crate) fn push_rows(text: &mut Vec<u8>, rows: &[Row]) -> Result<(), AllocError>
    ensures { OnOk result (text.new.items ≡ text.old.items ++ lines row_line rows.now) }
{
    let mut line = Block::new();
    for row in rows {
        push_row_line(text, &mut line, row)?;
    }
    Ok(())
}

// Adds the line of an entry's row, if it is an accepted store.
fn push_row_of(
    text: &mut Vec<u8>,
    line: &mut RowBlock,
    entry: &EntryRef<'_>,
) -> Result<(), AllocError>
    ensures { OnOk result (text.new.items
        ≡ text.old.items ++ lines row_line (option_to_list (row_of_entry entry.now))) }
{
    match entry.row() {
        Some(row) => push_row_line(text, line, &row),
        None => Ok(()),
    }
}

/// Adds the line of the row of each accepted store.
pub(crate) fn push_rows_of(text: &mut Vec<u8>, history: &History) -> Result<(), AllocError>
    ensures { OnOk result (text.new.items
        ≡ text.old.items ++ lines row_line (rows_of history.now.entries)) }
{
    let mut line = Block::new();
    for entry in history.iter() {
        push_row_of(text, &mut line, &entry)?;
    }
    Ok(())
}
