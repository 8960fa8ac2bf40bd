//! Whether entries of a table clash.

ghost use Rattle.std.specs.Prelude.{IfErr, OnOk};
ghost use Rattle.prl_overlaps.specs.Overlaps.{AreApart};
ghost use Rattle.prl_tables.specs.Checks.{IsFault};
ghost use Rattle.prl_tables.specs.Tables.{ArePieces, AreWhole};

use crate::laws::pieces_are_short;
use crate::reading::TableFault;
use prl_overlaps::{Entry, first_clash};
use prl_plan::Plan;
use std::alloc::Global;

/// `Clash` at the first entry that clashes with another one, and the first of those.
pub(crate) fn check_clashes(alloc: Global, plan: &Plan, entries: &[Entry]) -> Result<(), TableFault>
    requires pieces { ArePieces plan.now entries.now }
    requires whole { AreWhole plan.now entries.now }
    ensures cause { IfErr result (IsFault plan.now entries.now) }
    ensures apart { OnOk result (AreApart plan.now.graph.hyper entries.now) }
{
    pieces_are_short();
    match first_clash(alloc, plan.graph().hyper, entries)? {
        None => Ok(()),
        Some((first, second)) => Err(TableFault::Clash { first, second }),
    }
}
