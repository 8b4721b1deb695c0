//! What the lines of a script have given so far.
ghost use Rattle.std.specs.Prelude.{◌≡◌, ◌≤◌};
ghost use Rattle.tz_script.specs.Inside.{change_count, IsOrderly, RoundsDontFall};
ghost use Rattle.tz_script.specs.declared.limit.TheConstants.{MOST_ROUNDS, MOST_CHANGES};
ghost use Rattle.std.proofs.Props.{props};
ghost use Rattle.tz_script.specs.Size.{AreSized};

use crate::holds::{OpenHold, change, longest_open_line};
use crate::operation::{Op, Operation};
use crate::statement::Statement;
use std::alloc::Global;
use tz_types::{Items, NoMemory};

/// How many lanes there are, once a line has said so; how many rounds have begun; the operations, in the order of their
/// lines; how many of them are reloads or erasures; the holds that are open in this round; and the line of the first
/// hold that wasn't dropped in an earlier one.
#[derive(Debug, Drop)]
pub struct Gathered {
    pub lanes: Option<u32>,
    pub rounds: u32,
    pub operations: Items<Operation>,
    pub changes: u32,
    pub holds: Vec<OpenHold>,
    pub left: Option<u32>,
    pub ghost few_rounds: { rounds ≤ MOST_ROUNDS },
    pub ghost few_changes: { changes ≤ MOST_CHANGES },
    pub ghost counted: { changes ≡ change_count operations },
    pub ghost sound: { IsOrderly lanes rounds operations },
    pub ghost sized: { AreSized operations } by { Prim.hlevel props },
    pub ghost in_rounds: { RoundsDontFall operations },
}

impl Gathered {
    ghost use Rattle.std.specs.Prelude.{◌≡◌, ◌+◌, Some, if◌then◌else◌, OnOk, IsTrue};
    ghost use Rattle.tz_script.specs.Contents.{no_script_contents, first_left, with_line_said};
    ghost use Rattle.tz_script.specs.Gathered.{script_contents_gathered, MayFollow};
    ghost use Rattle.tz_script.specs.Operation.{is_change};
    ghost use Rattle.tz_script.specs.Inside.{all_stand_before};

    /// Before any line.
    pub fn new(alloc: Global) -> Self
        ensures { script_contents_gathered result ≡ no_script_contents }
    {
        Gathered {
            lanes: None,
            rounds: 0,
            operations: Items::new(alloc),
            changes: 0,
            holds: Vec::new(alloc),
            left: None,
        }
    }

    /// The line of the first hold that isn't dropped in its round, where the last round ends here.
    pub fn first_left(&self) -> Option<u32>
        ensures { result ≡ first_left (script_contents_gathered self.now) }
    {
        match self.left {
            Some(line) => Some(line),
            None => longest_open_line(self.holds.as_slice()),
        }
    }

    fn begin_round(&mut self)
        requires { MayFollow (script_contents_gathered self.old) Statement.Round }
        ensures { script_contents_gathered self.new ≡ with_line_said 0 (Some Statement.Round) (script_contents_gathered self.old) }
    {
        self.left = self.first_left();
        self.holds.clear();
        self.rounds += 1;
    }

    /// How many reloads and erasures there are with this operation.
    fn changes_with(&self, op: &Op) -> u32
        ensures { result ≡ self.now.changes + (if is_change op.now then 1 else 0) }
    {
        if op.is_change() {
            self.changes + 1
        } else {
            self.changes
        }
    }

    fn add_operation(&mut self, line: u32, lane: u32, op: Op) -> Result<(), NoMemory>
        requires before { IsTrue (all_stand_before line self.old.operations) }
        requires may { MayFollow (script_contents_gathered self.old) (Statement.Operation lane op) }
        ensures contents { OnOk result (script_contents_gathered self.new ≡ with_line_said line (Some (Statement.Operation lane op)) (script_contents_gathered self.old)) }
        ensures before { OnOk result (IsTrue (all_stand_before (line + 1) self.new.operations)) }
    {
        let changes = self.changes_with(&op);
        change(&mut self.holds, line, lane, &op)?;
        self.operations.push(Operation {
            line,
            round: self.rounds,
            lane,
            op,
        })?;
        self.changes = changes;
        Ok(())
    }

    /// Adds what a line says. After `NoMemory` the script can't be read on.
    pub fn add(&mut self, line: u32, said: Statement) -> Result<(), NoMemory>
        requires before { IsTrue (all_stand_before line self.old.operations) }
        requires may { MayFollow (script_contents_gathered self.old) said }
        ensures contents { OnOk result (script_contents_gathered self.new ≡ with_line_said line (Some said) (script_contents_gathered self.old)) }
        ensures before { OnOk result (IsTrue (all_stand_before (line + 1) self.new.operations)) }
    {
        match said {
            Statement::Lanes(lanes) => self.lanes = Some(lanes),
            Statement::Round => self.begin_round(),
            Statement::Operation { lane, op } => self.add_operation(line, lane, op)?,
        }
        Ok(())
    }
}
