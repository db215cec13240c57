// Rows of a node by what they put above all else, so that few of them need be compared with a state.
ghost use Rattle.std.specs.Prelude.{◌↔◌, ◌<◌, IsTrue, IsNone, IfSome, Any};
ghost use Rattle.tce_fusion.specs.Relation.{above};
ghost use Rattle.tce_fusion.specs.Row.{StandsFor};

use crate::uppers::{Parts, group_of, hint_of, marks_of, parts_of, single_of, uppers_of};
use tce_nesting::Row;
use tce_space::IndexSet;

// Fewer rows have no entries, since to fill the groups would take longer than to ask all rows.
const FEW: usize = 48;

// The place of a row, and the marks of its upper parts.
#[derive(Clone, Copy, Default)]
pub(crate) struct Entry {
    place: u32,
    marks: u32,
}

// The rows of a node by their three largest upper parts: the outer loops that they put above the others.
//
// The upper parts of a row that stands for a state are upper parts of the state too, so the row is looked for in the
// groups of three of these. No answer rests on it: where no row of a group stands for the state, all rows are asked. So
// groups without room give the same answers.
#[derive(Drop)]
pub(crate) struct Groups<'a> {
    // For each group the place behind its last entry. It begins where the group before it ends.
    pub(crate) ends: &'a mut [u32],
    pub(crate) entries: &'a mut [Entry],
    // The place of the last row with one class, by that class.
    pub(crate) singles: &'a mut [u32],
    // Whether the rows of the node have entries.
    pub(crate) are_filled: bool,
}

// A state for which a row is sought, and the marks of its upper parts.
#[derive(Clone, Copy)]
struct Sought<'a, 'b> {
    rows: &'a [Row],
    state: &'b Row,
    outer: IndexSet,
    marks: u32,
}

impl<'a> Groups<'a> {
    // Takes the rows of a node in the place of those that it had.
    pub(crate) fn fill(&mut self, rows: &[Row], outer: IndexSet) {
        self.are_filled = FEW <= rows.len() && rows.len() <= self.entries.len();
        if !self.are_filled {
            return;
        }
        self.count(rows, outer);
        self.begin();
        for (place, row) in rows.iter().enumerate() {
            self.add(place, row, outer);
        }
        self.fill_singles(rows);
    }

    // Notes the place of the last row with one class, for each class.
    fn fill_singles(&mut self, rows: &[Row]) {
        self.singles.fill(u32::MAX);
        for (place, row) in rows.iter().enumerate() {
            if row.classes.classes().len() == 1 && place < u32::MAX as usize {
                if let Some(single) = self.singles.get_mut(single_of(row.classes.classes()[0])) {
                    *single = place as u32;
                }
            }
        }
    }

    // Counts the rows of each group.
    fn count(&mut self, rows: &[Row], outer: IndexSet) {
        self.ends.fill(0);
        for row in rows {
            let parts = parts_of(uppers_of(&row.classes, outer).as_slice());
            let group = group_of(&parts, self.ends.len());
            if let Some(count) = self.ends.get_mut(group) {
                *count = u32::saturating_add(*count, 1);
            }
        }
    }

    // Has each group begin behind so many entries as those before it count, and end there.
    fn begin(&mut self) {
        let mut next: u32 = 0;
        for place in 0..self.ends.len() {
            let count = self.ends[place];
            self.ends[place] = next;
            next = next.saturating_add(count);
        }
    }

    // Adds a row to its group.
    fn add(&mut self, place: usize, row: &Row, outer: IndexSet) {
        let uppers = uppers_of(&row.classes, outer);
        let group = group_of(&parts_of(uppers.as_slice()), self.ends.len());
        if place < u32::MAX as usize {
            if let Some(end) = self.ends.get_mut(group) {
                if let Some(entry) = self.entries.get_mut(*end as usize) {
                    *entry = Entry {
                        place: place as u32,
                        marks: marks_of(uppers.as_slice()),
                    };
                    *end = u32::saturating_add(*end, 1);
                }
            }
        }
    }

    // The entries of the group of three parts.
    fn entries_of(&self, parts: &Parts) -> &[Entry] {
        let group = group_of(parts, self.ends.len());
        let from = if group == 0 {
            0
        } else {
            self.end_of(group - 1)
        };
        let to = self.end_of(group);
        if from <= to && to <= self.entries.len() {
            &self.entries[from..to]
        } else {
            &self.entries[0..0]
        }
    }

    // The place behind the last entry of a group.
    fn end_of(&self, group: usize) -> usize {
        match self.ends.get(group) {
            Some(end) => *end as usize,
            None => 0,
        }
    }

    // The place of a row in the group of three parts that stands for the state.
    fn place_with(&self, parts: &Parts, sought: &Sought) -> Option<u32>
        ensures { IfSome result (λ place. Any (StandsFor sought.now.outer (above
            sought.now.state.now.classes) sought.now.state.now.cost) sought.now.rows.now) }
    {
        for entry in self.entries_of(parts) {
            if entry.marks & !sought.marks == 0 {
                if let Some(row) = sought.rows.get(entry.place as usize) {
                    if stands_for(row, sought.state, sought.outer) {
                        return Some(entry.place);
                    }
                }
            }
        }
        None
    }

    // The place of a row whose two largest upper parts are these of the state's, where those below them are known.
    fn place_below(
        &self,
        first: IndexSet,
        second: IndexSet,
        lower: &[IndexSet],
        sought: &Sought,
    ) -> Option<u32>
        ensures { IfSome result (λ place. Any (StandsFor sought.now.outer (above
            sought.now.state.now.classes) sought.now.state.now.cost) sought.now.rows.now) }
    {
        let two = Parts {
            first,
            second,
            third: IndexSet::empty(),
        };
        if let Some(place) = self.place_with(&two, sought) {
            return Some(place);
        }
        for third in lower {
            let three = Parts {
                first,
                second,
                third: *third,
            };
            if let Some(place) = self.place_with(&three, sought) {
                return Some(place);
            }
        }
        None
    }

    // The place of a row whose largest upper part is this one of the state's, where those below it are known.
    fn place_under(&self, first: IndexSet, lower: &[IndexSet], sought: &Sought) -> Option<u32>
        ensures { IfSome result (λ place. Any (StandsFor sought.now.outer (above
            sought.now.state.now.classes) sought.now.state.now.cost) sought.now.rows.now) }
    {
        let one = Parts {
            first,
            second: IndexSet::empty(),
            third: IndexSet::empty(),
        };
        if let Some(place) = self.place_with(&one, sought) {
            return Some(place);
        }
        for count in 0..lower.len() {
            if let Some(place) = self.place_below(first, lower[count], &lower[..count], sought) {
                return Some(place);
            }
        }
        None
    }

    // The place of a row in the group of three of these upper parts, the least first. Most rows are found by the largest part, so that comes first.
    fn place_among(&self, uppers: &[IndexSet], sought: &Sought) -> Option<u32>
        ensures { IfSome result (λ place. Any (StandsFor sought.now.outer (above
            sought.now.state.now.classes) sought.now.state.now.cost) sought.now.rows.now) }
    {
        for count in (0..uppers.len()).rev() {
            if let Some(place) = self.place_under(uppers[count], &uppers[..count], sought) {
                return Some(place);
            }
        }
        self.place_with(&Parts::default(), sought)
    }

    // The place of a row in the group of three of the state's upper parts that stands for it.
    fn likely_place(&self, rows: &[Row], state: &Row, outer: IndexSet) -> Option<u32>
        ensures { IfSome result (λ place. Any (StandsFor outer (above state.now.classes)
            state.now.cost) rows.now) }
    {
        let uppers = uppers_of(&state.classes, outer);
        let sought = Sought {
            rows,
            state,
            outer,
            marks: marks_of(uppers.as_slice()),
        };
        self.place_among(uppers.as_slice(), &sought)
    }

    // The place of a row with one class, which is a union of the state's first ones, that stands for it.
    fn single_place(&self, rows: &[Row], state: &Row, outer: IndexSet) -> Option<u32>
        ensures { IfSome result (λ place. Any (StandsFor outer (above state.now.classes)
            state.now.cost) rows.now) }
    {
        let mut reached = IndexSet::empty();
        for class in state.classes.classes() {
            reached = reached.union(*class);
            let place = self.singles.get(single_of(reached)).copied();
            if stands_at(rows, place, state, outer) {
                return place;
            }
        }
        None
    }

    // The place of a row that stands for the state, where the groups lead to it.
    fn place_soon(&self, rows: &[Row], state: &Row, outer: IndexSet) -> Option<u32>
        ensures { IfSome result (λ place. Any (StandsFor outer (above state.now.classes)
            state.now.cost) rows.now) }
    {
        if !self.are_filled {
            return None;
        }
        if let Some(place) = self.single_place(rows, state, outer) {
            return Some(place);
        }
        self.likely_place(rows, state, outer)
    }

    // Whether some row stands for a state.
    pub(crate) fn is_stood_for(&self, rows: &[Row], state: &Row, outer: IndexSet) -> bool
        ensures { IsTrue result ↔ Any (StandsFor outer (above state.now.classes) state.now.cost)
            rows.now }
    {
        if self.place_soon(rows, state, outer).is_some() {
            return true;
        }
        place_of(rows, state, outer).is_some()
    }

    // The same, where the place of the row that last stood for a state with the same hint is asked first.
    pub(crate) fn is_soon_stood_for(
        &self,
        hints: &mut [u32],
        rows: &[Row],
        state: &Row,
        outer: IndexSet,
    ) -> bool
        ensures { IsTrue result → Any (StandsFor outer (above state.now.classes) state.now.cost)
            rows.now }
    {
        let number = hint_of(&state.classes, hints.len());
        if stands_at(rows, hints.get(number).copied(), state, outer) {
            return true;
        }
        if let Some(place) = self.place_soon(rows, state, outer) {
            if let Some(hint) = hints.get_mut(number) {
                *hint = place;
            }
            return true;
        }
        place_of(rows, state, outer).is_some()
    }
}

// Whether there is a place, and the row at it stands for a state.
fn stands_at(rows: &[Row], place: Option<u32>, state: &Row, outer: IndexSet) -> bool
    ensures { IsTrue result → Any (StandsFor outer (above state.now.classes) state.now.cost)
        rows.now }
{
    if let Some(place) = place {
        if let Some(row) = rows.get(place as usize) {
            return stands_for(row, state, outer);
        }
    }
    false
}

// The place of the first row that stands for a state.
fn place_of(rows: &[Row], state: &Row, outer: IndexSet) -> Option<usize>
    ensures some { IfSome result (λ place. Any (StandsFor outer (above state.now.classes)
        state.now.cost) rows.now) }
    ensures none { IsNone result → ¬ Any (StandsFor outer (above state.now.classes) state.now.cost)
        rows.now }
{
    for (place, row) in rows.iter().enumerate() {
        if stands_for(row, state, outer) {
            return Some(place);
        }
    }
    None
}

// Whether a row stands for a state.
pub(crate) fn stands_for(row: &Row, state: &Row, outer: IndexSet) -> bool
    ensures { IsTrue result ↔ StandsFor outer (above state.now.classes) state.now.cost row.now }
{
    row.cost <= state.cost && row.classes.coarser(&state.classes, outer)
}
