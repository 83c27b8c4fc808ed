//! A list form and the rising edges of its graph determine each other.
#![tactic(auto)]

ghost use Rattle.forms.specs.Forms.{HasEdges, OneForm, OneEdges};

/// Every list form has rising edges, and exactly one list of them; every stock of edges has one list form at most.
pub fn forms_stand()
    ensures edges { HasEdges }
    ensures form { OneForm }
    ensures one { OneEdges }
{}
