//! Numbers and names are one thing in two spellings.

ghost use Rattle.ds_map.specs.Growing.{GrowsSo};
ghost use Rattle.ds_map.specs.Translation.{UnderEachTable, IsOneToOne, LabelsAreOneToOne, SameAnswers, SameRules};

/// Under each table a known category and its number say each other, and the number's parity says the kind.
pub fn numbers_are_one_to_one()
    ensures { UnderEachTable IsOneToOne }
{}

/// Under each table a label of numbers that have names and the label of these names say each other, and the algebra of
/// labels makes the same of both.
pub fn labels_are_one_to_one()
    ensures { UnderEachTable LabelsAreOneToOne }
{}

/// Under each table all that is asked of labels of numbers that have names, and each rule of processes and mailboxes over
/// them, is answered as over the names.
pub fn answers_are_the_same()
    ensures labels { UnderEachTable SameAnswers }
    ensures rules { UnderEachTable SameRules }
{}

/// A table grows at its end alone: what had a name keeps it, what had a number keeps it, and labels keep their names.
pub fn names_stay()
    ensures { GrowsSo }
{}
