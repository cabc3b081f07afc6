//! The rule by which the switches of a Spidergon send packets on, and the distances that it keeps to.

ghost use Rattle.std.specs.Prelude.{◌≡◌, ◌*◌, ◌≤◌};

/// What a packet does at a switch.
#[derive(Clone, Copy, PartialEq, Eq)]
pub enum Step {
    /// It is taken off.
    Off,
    /// It goes to the next switch.
    Next,
    /// It goes to the switch before.
    Before,
    /// It goes to the switch across.
    Across,
}

/// The rule for a ring of four quarters.
#[derive(Clone, Copy)]
pub struct Rule {
    // how many switches a quarter has
    quarter: u16,
    ghost some: { 1 ≤ quarter },
    ghost few: { quarter ≤ 64 },
}

impl Rule {
    /// The rule for quarters of 1 to 64 switches.
    pub(super) fn new(quarter: u16) -> Option<Rule> {
        if !(1..=64).contains(&quarter) {
            return None;
        }
        Some(Rule { quarter })
    }

    /// How many moves a packet makes at most.
    pub(super) fn most_moves(self) -> u16 {
        self.quarter
    }

    // How many switches there are.
    fn switches(self) -> u16
        ensures { result ≡ 4 * self.quarter }
    {
        4 * self.quarter
    }

    /// How far a switch lies ahead of another.
    pub(super) fn ahead(self, from: u16, to: u16) -> u16 {
        if from <= to {
            to - from
        } else {
            self.switches().saturating_sub(from - to)
        }
    }

    /// What a packet does at a switch that its place lies so far ahead of.
    pub(super) fn step(self, ahead: u16) -> Step {
        match ahead {
            0 => Step::Off,
            r if r <= self.quarter => Step::Next,
            r if r >= 3 * self.quarter => Step::Before,
            _ => Step::Across,
        }
    }

    /// The switch at which a packet is after a step.
    pub(super) fn after(self, switch: u16, step: Step) -> u16 {
        let gone = match step {
            Step::Off => 0,
            Step::Next => 1,
            Step::Before => self.switches() - 1,
            Step::Across => 2 * self.quarter,
        };
        switch.saturating_add(gone) % self.switches()
    }

    /// How many links a shortest route has to a switch that lies so far ahead.
    pub(super) fn distance(self, ahead: u16) -> u16 {
        if ahead <= self.quarter {
            ahead
        } else if ahead >= 3 * self.quarter {
            self.switches().saturating_sub(ahead)
        } else {
            1 + ahead.abs_diff(2 * self.quarter)
        }
    }
}

impl Step {
    /// The channel in which a packet leaves a switch, the local one where it leaves for none.
    pub(super) fn channel(self, switch: u16) -> u16 {
        let link = match self {
            Step::Off => 0,
            Step::Next => 1,
            Step::Before => 2,
            Step::Across => 3,
        };
        switch.saturating_mul(4).saturating_add(link)
    }
}
