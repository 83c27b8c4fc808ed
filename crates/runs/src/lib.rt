//! The theory of strings of calls.
#![tactic(auto)]

ghost use Rattle.calls.specs.Laws.{ReportsRight, FloorsLow, CoursesProve, RunsRight};

/// Where every reply is the one due at its point, each proved report is right, no floor is above degeneracy + 1, each
/// course of calls proves the report with its yes in time, and so it is in every string of calls.
pub fn runs_stand()
    ensures right { ReportsRight }
    ensures floors { FloorsLow }
    ensures courses { CoursesProve }
    ensures runs { RunsRight }
{}
