//! The gaps of two classes: those of the lines `clear`, and where there is none, those of the rules.

ghost use Rattle.std.specs.Prelude.{◌≡◌, ◌++◌, OnOk};
ghost use Rattle.board_reader.specs.Gaps.{clear_at, gap_in, gap_between, gaps_from, gaps_on, all_gaps};
ghost use Rattle.board_reader.specs.Kept.{AreTables};
ghost use Rattle.board_reader.specs.Tables.{value_at};

use crate::drafts::Draft;
use crate::tables::value_at;
use geo_rect::{List, NoMemory};

/// What a line `clear` gives: the gap of two classes on a layer.
#[derive(Clone, Copy)]
pub struct Clear {
    pub layer: u32,
    /// The class with the smaller number.
    pub low: u32,
    pub high: u32,
    /// In micrometres.
    pub gap: i32,
}

/// The gap of the first line `clear` for a layer and two classes, whichever of them is named first.
#[tactic(auto, unfolding(crate::specs::Gaps::clear_at))]
pub fn clear_at(clears: &[Clear], layer: u32, one: u32, other: u32) -> Option<i32>
    ensures { result ≡ clear_at clears.now layer one other }
{
    let low = one.min(other);
    let high = one.max(other);
    for clear in clears {
        if clear.layer == layer && clear.low == low && clear.high == high {
            return Some(clear.gap);
        }
    }
    None
}

impl Draft {
    /// The gap of a class's rule on a layer, in micrometres, and 1 where no line gave one.
    fn rule_gap(&self, layer: u32, class: u32) -> i32
        ensures { result ≡ gap_in (value_at self.now.rules layer class) }
    {
        match value_at(self.rules.as_slice(), layer, class) {
            Some(rule) => rule.gap,
            None => 1,
        }
    }

    /// The gap of two classes on a layer, in micrometres.
    #[tactic(auto, unfolding(crate::specs::Gaps::gap_between))]
    fn gap_between(&self, layer: u32, one: u32, other: u32) -> i32
        ensures { result ≡ gap_between self.now.rules self.now.clears layer one other }
    {
        match clear_at(self.clears.as_slice(), layer, one, other) {
            Some(gap) => gap,
            None => self.rule_gap(layer, one).max(self.rule_gap(layer, other)),
        }
    }

    fn push_gaps_from(
        &self,
        list: &mut List<i32>,
        classes: u32,
        layer: u32,
        one: u32,
    ) -> Result<(), NoMemory>
        requires { AreTables self.now.rules self.now.clears self.now.pads }
        ensures { OnOk result (list.new ≡ list.old ++ gaps_from self.now.rules self.now.clears classes layer one) }
    {
        for other in 0..classes {
            list.push(self.gap_between(layer, one, other))?;
        }
        Ok(())
    }

    fn push_gaps_on(&self, list: &mut List<i32>, classes: u32, layer: u32) -> Result<(), NoMemory>
        requires { AreTables self.now.rules self.now.clears self.now.pads }
        ensures { OnOk result (list.new ≡ list.old ++ gaps_on self.now.rules self.now.clears classes layer) }
    {
        for one in 0..classes {
            self.push_gaps_from(list, classes, layer, one)?;
        }
        Ok(())
    }

    /// Adds the gaps by layers, in each layer by first classes, and for each of these by second
    /// classes.
    pub fn push_gaps(&self, list: &mut List<i32>, layers: u32, classes: u32) -> Result<(), NoMemory>
        requires { AreTables self.now.rules self.now.clears self.now.pads }
        ensures { OnOk result (list.new ≡ list.old ++ all_gaps self.now.rules self.now.clears layers classes) }
    {
        for layer in 0..layers {
            self.push_gaps_on(list, classes, layer)?;
        }
        Ok(())
    }
}
