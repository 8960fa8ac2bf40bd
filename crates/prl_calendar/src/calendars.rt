//! The dates of a list of clocks, one after another.

ghost use Rattle.std.specs.Prelude.{◌≡◌, ◌<◌, ◌^◌, length, IfOk, OnErr};
ghost use Rattle.std.specs.List.Sorted.{IsNonDecreasing, IsPermutation};
ghost use Rattle.prl_calendar.specs.Calendars.{AreAllClocks, Tells};

use crate::kinds::chains_of;
use crate::turns::{Turns, first_turns, next_before, take_due};
use prl_base::Clock;
use std::alloc::{AllocError, Global};
use std::marker::Model;

/// The dates of a list of clocks before a date, each told once, in order. Contracts see the
/// clocks, from which date on and before which one their dates are told.
pub struct Calendar<'a> {
    clocks: &'a [Clock],
    /// For each clock the place of the next one that equals it, or the number of clocks.
    following: Vec<u32>,
    turns: Turns,
    from: u64,
    until: u64,
}

impl<'a> Model for Calendar<'a> {
    ghost use Rattle.prl_calendar.specs.Calendars.{CalendarView};
    ghost use Rattle.prl_calendar.specs.Turns.{IsCalendar};

    ghost Value = { CalendarView };

    ghost view = { λ c. record { clocks = c.clocks.now; from = c.from; until = c.until } };

    ghost invariant = { λ c. IsCalendar c.clocks.now c.from c.until c.following.items c.turns };
}

impl<'a> Calendar<'a> {
    /// The calendar of these clocks before `until`.
    pub fn new(alloc: Global, clocks: &'a [Clock], until: u64) -> Result<Calendar<'a>, AllocError>
        requires periods { AreAllClocks clocks.now }
        requires few { length clocks.now < 2 ^ 32 }
        ensures { IfOk result (λ c. c ≡ record { clocks = clocks.now; from = 0; until = until }) }
    {
        let chains = chains_of(alloc, clocks)?;
        let turns = first_turns(alloc, clocks, chains.firsts.as_slice())?;
        Ok(Calendar {
            clocks,
            following: chains.following,
            turns,
            from: 0,
            until,
        })
    }

    /// The next date of a clock, and the places of the clocks that have it, in rising order; none
    /// where no date is left. After want of memory none is left.
    pub fn next(&mut self, due: &mut Vec<u32>) -> Result<Option<u64>, AllocError>
        ensures told { IfOk result (λ date. Tells self.old date due.new.items self.new) }
        ensures fault { OnErr result (self.new ≡ record self.old { from = self.old.until }) }
    {
        if self.from >= self.until {
            return Ok(None);
        }
        let Some(date) = next_before(&self.turns, self.until) else {
            return Ok(None);
        };
        self.from = self.until;
        due.clear();
        take_due(
            self.clocks,
            self.following.as_slice(),
            &mut self.turns,
            date,
            due,
        )?;
        sort(due);
        self.from = date + 1;
        Ok(Some(date))
    }
}

/// Puts the places in rising order.
fn sort(due: &mut Vec<u32>)
    ensures same { IsPermutation due.old.items due.new.items }
    ensures rising { IsNonDecreasing due.new.items }
{
    if due.is_sorted() {
        return;
    }
    due.sort_unstable();
}

impl<'a> Drop for Calendar<'a> {
    fn drop(self) {
        let Calendar {
            clocks: _,
            following,
            turns: _,
            from: _,
            until: _,
        } = self;
        drop(following);
    }
}
