// Worked consignments, shown of the definitions: a reader can follow each by hand, and a definition that went astray would fail one of them.
#![tactic(auto)]

ghost use Rattle.examples.specs.Shortcuts.{TurnedRound, WithoutTieBreak};
ghost use Rattle.examples.specs.Worked.{ConsignmentsStand};

/// What is claimed of each consignment of the table holds.
pub fn consignments_stand()
    ensures { ConsignmentsStand }
{}

/// Two shortcuts that look right, and that a network refutes: turning weights the other way round, and a least first cost without a tie-break.
pub fn shortcuts_fail()
    ensures turned_round { TurnedRound → ⊥ }
    ensures no_tie_break { WithoutTieBreak → ⊥ }
{}
