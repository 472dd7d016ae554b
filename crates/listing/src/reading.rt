// What is read of a line, item by item.
ghost use Rattle.std.specs.Prelude.{◌≡◌, ℕ, suc, [], length};
ghost use Rattle.choice.specs.Tells.{Placed};
ghost use Rattle.listing.specs.Items.{items_of};
ghost use Rattle.listing.specs.Lines.{ended, expect, field, only_of};
ghost use Rattle.listing.specs.Told.{place_told, field_told};
ghost use Rattle.listing.specs.Reading.{data_first, left, past, resume, NextItem, FirstItem, Steps};

use crate::items::{Item, Items};
use crate::places::Place;
use crate::{digits, names};
use refusals::{Refusal, Refused};

const BLANK: u8 = b' ';

impl<'a> Item<'a> {
    // A refusal at the item's column.
    fn refused(self, refusal: Refusal) -> Refused
        ensures { result ≡ record { refusal = refusal; index = self.entry.column } }
    {
        Refused {
            refusal,
            index: self.column,
        }
    }
}

// The only value of a set that has one.
fn only_of(set: u32) -> u8
    ensures { result ≡ only_of set }
{
    if set == 0 {
        0
    } else {
        set.trailing_zeros() as u8
    }
}

impl<'a> Items<'a> {
    // A line, of which nothing has been read.
    pub(crate) fn of(line: &'a [u8]) -> Items<'a>
        ensures items { left result ≡ items_of line.now }
        ensures past { past result ≡ suc (length line.now) }
    {
        Items { line, at: 0 }
    }

    // The column one past the line.
    pub(crate) fn past(&self) -> usize
        ensures { result ≡ past self.now }
    {
        self.line.len() + 1
    }

    // The next item: it begins after the blanks, and ends at the next blank or with the line.
    pub(crate) fn next(&mut self) -> Option<Item<'a>>
        ensures { NextItem self.old self.new result }
    {
        let rest = &self.line[self.at..];
        let start = self.at + rest.iter().position(|byte| *byte != BLANK)?;
        let item = &self.line[start..];
        let size = item
            .iter()
            .position(|byte| *byte == BLANK)
            .unwrap_or(item.len());
        self.at = start + size;
        Some(Item {
            column: start + 1,
            text: &item[..size],
        })
    }

    // The next item, which must not be missing.
    fn item(&mut self, refusal: Refusal) -> Result<Item<'a>, Refused>
        ensures { FirstItem self.old self.new refusal result }
    {
        self.next().ok_or(Refused {
            refusal,
            index: self.past(),
        })
    }

    // The value of the item at a place.
    pub(crate) fn expect(&mut self, place: Place) -> Result<u8, Refused>
        ensures { Steps self.old self.new result (expect (past self.old) (place_told place) (left self.old)) }
    {
        let item = self.item(place.refusal)?;
        names::value_in(place.names, item.text).ok_or(item.refused(place.refusal))
    }

    // The value of a field: one that is not written has the only value of its set.
    pub(crate) fn field(&mut self, place: Option<Place>, set: u32) -> Result<u8, Refused>
        ensures { Steps self.old self.new result (field (past self.old) set (field_told place) (left self.old)) }
    {
        match place {
            Some(place) => self.expect(place),
            None => Ok(only_of(set)),
        }
    }

    // The data of the next item.
    pub(crate) fn data(&mut self) -> Result<u16, Refused>
        ensures { Steps self.old self.new result (data_first (past self.old) (left self.old)) }
    {
        let item = self.item(Refusal::NoSuchNumber)?;
        digits::data_in(item.text).ok_or(item.refused(Refusal::NoSuchNumber))
    }

    // Nothing is left over.
    pub(crate) fn end(&mut self) -> Result<(), Refused>
        ensures { (next : Placed ℕ) → resume result [] (λ _ _. next) ≡ ended (left self.old) next }
    {
        match self.next() {
            Some(item) => Err(item.refused(Refusal::RestOfLine)),
            None => Ok(()),
        }
    }
}
