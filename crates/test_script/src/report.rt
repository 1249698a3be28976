//! What is counted, and what differs.

use crate::unit::Outcome;
use std::alloc::{AllocError, Global};
use std::io::{self, Write};

/// Which trial of a unit it is.
#[derive(Clone, Copy)]
pub struct TrialName {
    /// How many of the unit's events are before the mark.
    pub first: usize,
    /// The number of the manner, counted from 1.
    pub manner: usize,
}

/// What is counted, and a line for each writing before or after which something differs.
#[derive(Drop)]
pub struct Report {
    rows: usize,
    /// The rows without a unit.
    empty: usize,
    /// The rows whose events memory can't hold.
    lost: usize,
    units: usize,
    /// The units of the row whose units are tried.
    units_of_row: usize,
    /// How often a unit was written in some manner, not counting by the renderers of their own.
    writings: usize,
    /// How many of these were refused, where a node is where it may not.
    refused: usize,
    /// How many of these texts memory can't hold.
    too_long: usize,
    /// How many of these gave a text.
    texts: usize,
    different: usize,
    lines: String,
}

impl Report {
    /// Nothing yet.
    pub fn new(alloc: Global) -> Report {
        Report {
            rows: 0,
            empty: 0,
            lost: 0,
            units: 0,
            units_of_row: 0,
            writings: 0,
            refused: 0,
            too_long: 0,
            texts: 0,
            different: 0,
            lines: String::new(alloc),
        }
    }

    /// A row begins.
    pub fn begin_row(&mut self) {
        self.rows = self.rows.saturating_add(1);
        self.units_of_row = 0;
    }

    /// A row ends, of which memory could hold all events, or not.
    pub fn end_row(&mut self, is_held: bool) {
        if !is_held {
            self.lost = self.lost.saturating_add(1);
        } else if self.units_of_row == 0 {
            self.empty = self.empty.saturating_add(1);
        }
    }

    /// A unit begins.
    pub fn begin_unit(&mut self) {
        self.units = self.units.saturating_add(1);
        self.units_of_row = self.units_of_row.saturating_add(1);
    }

    /// The unit was written in a manner, and this was the outcome.
    pub fn note(&mut self, outcome: Outcome) {
        self.writings = self.writings.saturating_add(1);
        match outcome {
            Outcome::Written => self.texts = self.texts.saturating_add(1),
            Outcome::Refused => self.refused = self.refused.saturating_add(1),
            Outcome::OutOfMemory => self.too_long = self.too_long.saturating_add(1),
        }
    }

    /// What differs in a trial, if anything, before or after its writing.
    pub fn note_difference(
        &mut self,
        place: TrialName,
        side: &str,
        different: Option<&'static str>,
    ) -> Result<(), AllocError> {
        let Some(what) = different else {
            return Ok(());
        };
        self.different = self.different.saturating_add(1);
        let (row, unit) = (self.rows, self.units_of_row);
        let TrialName { first, manner } = place;
        writeln!(
            self.lines,
            "row {row}, unit {unit}, mark at {first}, manner {manner}: different {side} in {what}"
        )
    }

    /// Writes the lines, and what was counted.
    pub fn write<W: Write>(&self, output: &mut W) -> io::Result<()> {
        let (rows, empty, lost) = (self.rows, self.empty, self.lost);
        let (units, writings, different) = (self.units, self.writings, self.different);
        let (refused, too_long, texts) = (self.refused, self.too_long, self.texts);
        output.write_all(self.lines.as_bytes())?;
        writeln!(
            output,
            "{rows} rows: {empty} without a unit, {lost} that memory can't hold"
        )?;
        writeln!(
            output,
            "{units} units, {writings} writings: {refused} refused, {too_long} that memory can't hold, {texts} texts"
        )?;
        writeln!(output, "{different} differ")
    }
}
