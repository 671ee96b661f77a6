//! The lines of a load, drawn one after the other, and their writing.
use crate::faults::Fault;
use crate::options::Plan;
use crate::popularity::Popularity;
use auction_rows::MOST_QUANTITY;
use byte_texts::{WriteFault, push_labelled, push_number, push_signed, push_text, write_last};
use rand::{RngExt, SeedableRng};
use rand_xoshiro::Xoshiro256PlusPlus;
use std::alloc::{AllocError, Global};
use std::io::Write;

// No start price is above the least amount that is bid.
const MOST_START: u64 = 100;

const MOST_AMOUNT: u64 = 1_000_000;

// After each time that a row or a request states.
const CLOSES: u64 = 100_000_000;

// So many bytes are written at once, and the rest of a line.
const BLOCK: usize = 1 << 15;

// The bytes of the longest line are fewer.
const LINE: usize = 256;

// What lines are drawn by.
#[derive(Drop)]
struct Market {
    plan: Plan,
    popularity: Popularity,
    rng: Xoshiro256PlusPlus,
}

impl Market {
    fn new(alloc: Global, plan: Plan) -> Result<Market, AllocError> {
        let popularity = Popularity::new(alloc, plan.items, plan.skew)?;
        let rng = Xoshiro256PlusPlus::seed_from_u64(plan.seed);
        Ok(Market {
            plan,
            popularity,
            rng,
        })
    }

    fn push_user(&mut self, text: &mut Vec<u8>, label: &[u8]) -> Result<(), AllocError> {
        let users = self.plan.users;
        push_labelled(text, label, u64::from(self.rng.random_range(0..users)))
    }

    fn push_category(&mut self, text: &mut Vec<u8>, label: &[u8]) -> Result<(), AllocError> {
        let categories = self.plan.categories;
        push_labelled(text, label, u64::from(self.rng.random_range(0..categories)))
    }

    // An item of the rows, by its popularity: these are dealt out to the workers in turn.
    fn push_item(&mut self, text: &mut Vec<u8>, label: &[u8]) -> Result<(), AllocError> {
        let workers = u64::from(self.plan.workers);
        let place = self.popularity.draw(&mut self.rng);
        push_labelled(text, label, place % workers)?;
        push_labelled(text, b".", place / workers)
    }

    fn push_facts(&mut self, text: &mut Vec<u8>, time: u64) -> Result<(), AllocError> {
        self.push_user(text, b",")?;
        self.push_category(text, b",")?;
        push_labelled(text, b",\"lot\",", self.rng.random_range(1..=MOST_START))?;
        push_labelled(text, b",", CLOSES)?;
        push_labelled(text, b",", time)?;
        push_labelled(text, b",", u64::from(MOST_QUANTITY))
    }

    // Of the four kinds of views one is as likely as another.
    fn push_view(&mut self, text: &mut Vec<u8>) -> Result<(), AllocError> {
        match self.rng.random_range(0u32..4) {
            0 => self.push_item(text, b",viewitem,"),
            1 => self.push_item(text, b",viewbids,"),
            2 => self.push_category(text, b",viewcategory,"),
            _ => self.push_user(text, b",viewuser,"),
        }
    }

    fn push_comment(&mut self, text: &mut Vec<u8>) -> Result<(), AllocError> {
        self.push_user(text, b",comment,")?;
        self.push_user(text, b",")?;
        self.push_item(text, b",")?;
        push_signed(text, b",", self.rng.random_range(-5..=5))
    }

    fn push_purchase(&mut self, text: &mut Vec<u8>, time: u64) -> Result<(), AllocError> {
        self.push_user(text, b",buynow,")?;
        self.push_item(text, b",")?;
        push_labelled(text, b",1,", time)
    }

    fn push_bid(&mut self, text: &mut Vec<u8>, time: u64) -> Result<(), AllocError> {
        self.push_user(text, b",bid,")?;
        self.push_item(text, b",")?;
        let amount = self.rng.random_range(MOST_START..=MOST_AMOUNT);
        push_labelled(text, b",", amount)?;
        push_labelled(text, b",", time)
    }

    // A request, its kind drawn by the mix: each kind has as many of a hundred numbers as its share
    // says.
    fn push_drawn(&mut self, text: &mut Vec<u8>, time: u64) -> Result<(), AllocError> {
        let mix = self.plan.mix;
        let drawn = self.rng.random_range(0u32..100);
        if drawn < mix.views {
            self.push_view(text)
        } else if drawn < mix.views + mix.comments {
            self.push_comment(text)
        } else if drawn < mix.views + mix.comments + mix.purchases {
            self.push_purchase(text, time)
        } else if drawn < mix.views + mix.comments + mix.purchases + mix.new_items {
            push_text(text, b",item")?;
            self.push_facts(text, time)
        } else {
            self.push_bid(text, time)
        }
    }

    // The line at a place: first those of rows, and then those of requests. Both are dealt out to the
    // workers in turn.
    fn push_line(&mut self, text: &mut Vec<u8>, place: u32) -> Result<(), AllocError> {
        let Plan { workers, items, .. } = self.plan;
        let time = u64::from(place);
        if place < items {
            push_number(text, u64::from(place % workers))?;
            push_text(text, b",+item")?;
            self.push_facts(text, time)?;
        } else {
            push_number(text, u64::from((place - items) % workers))?;
            self.push_drawn(text, time)?;
        }
        push_text(text, b"\n")
    }
}

/// Writes the load of a plan: a row for each item, and then the requests. `Memory` comes before the
/// first byte; after `Output` the load's beginning was written.
pub fn write_load<W: Write>(alloc: Global, writer: &mut W, plan: Plan) -> Result<(), Fault> {
    let Ok(mut market) = Market::new(alloc, plan) else {
        return Err(Fault::Memory);
    };
    write_lines(alloc, writer, &mut market).map_err(Fault::Output)
}

fn write_lines<W: Write>(
    alloc: Global,
    writer: &mut W,
    market: &mut Market,
) -> Result<(), WriteFault> {
    let plan = market.plan;
    let mut text = Vec::with_capacity(alloc, BLOCK + LINE).map_err(|_| WriteFault::Memory)?;
    for place in 0..plan.items + plan.requests {
        market
            .push_line(&mut text, place)
            .map_err(|_| WriteFault::Memory)?;
        if text.len() >= BLOCK {
            write_last(writer, &text)?;
            text.clear();
        }
    }
    write_last(writer, &text)
}
