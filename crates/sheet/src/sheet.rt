// The sheet as it is kept: an entry for each number, and the set of the moves that are on it. The type itself carries what every sheet
// keeps, so no sheet without it can exist. The calls and the questions are in the modules below this one.
ghost use Rattle.std.specs.Prelude.{◌≡◌, length};
ghost use Rattle.moves.specs.Room.{room};
ghost use Rattle.sheet.specs.Parts.{ledger_of, HoldsMoves};
ghost use Rattle.sheet.specs.Facts.{Ranged, BothOn, NoReturn, InSpan};

use crate::entry::Entry;
use moves::{MoveSet, ROOM};

mod calls;
mod changes;
mod questions;
mod reach;
mod span;

#[derive(Clone, Copy)]
pub struct Sheet {
    // the moves on the sheet. The entries have them too; the set is kept beside them because the calls and the rule ask for it in each step, and
    // to gather it from the entries takes a step for each number
    present: MoveSet,
    // the entry of each number, at its place; an array, as each table of moves here is: a type between would promise no more than an array does
    entries: [Entry; ROOM],
    ghost places: { length entries ≡ room },
    ghost listed: { HoldsMoves present (ledger_of entries) },
    ghost ranges: { Ranged (ledger_of entries) },
    ghost ends: { BothOn (ledger_of entries) },
    ghost acyclic: { NoReturn (ledger_of entries) },
    ghost short: { InSpan (ledger_of entries) },
}
